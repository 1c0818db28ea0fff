use crate::{END, OffsetClock, SEATS, SplitClock, StopClock};
use std::process::Abort;

// What any clock does, beginning with no mark.
fn keeps_time<C: StopClock>(rt: &impl Abort, clock: &mut C) {
    assert_eq!(rt; clock.since(SEATS - 1, END - 1), END - 1);
    clock.mark(3, 7);
    assert_eq!(rt; clock.since(3, 19), 12);
    assert_eq!(rt; clock.since(3, 6), 0, "an earlier moment");
    assert_eq!(rt; clock.since(2, 4), 4, "another seat");
    clock.mark(3, 9);
    clock.mark(3, END);
    clock.mark(SEATS, 11);
    assert_eq!(rt; clock.since(3, 19), 10, "marked again");
    assert_eq!(rt; clock.since(3, END), 0, "no such moment");
    assert_eq!(rt; clock.since(SEATS, 19), 0, "no such seat");
}

#[test]
fn both_keep_time(rt: HostRuntime) {
    let mut offset = OffsetClock::new([77; SEATS]);
    keeps_time(&rt, &mut offset);
    let mut split = SplitClock::new([77; SEATS]);
    keeps_time(&rt, &mut split);
}

// What a clock answers at a moment after a mark.
fn timed<C: StopClock>(clock: &mut C, mark: u64, moment: u64) -> u64 {
    clock.mark(0, mark);
    clock.since(0, moment)
}

#[test]
fn offset_turns_over(rt: HostRuntime) {
    let mut clock = OffsetClock::new([u64::MAX; SEATS]);
    assert_eq!(rt; timed(&mut clock, 0, 5), 5);
}

#[test]
fn split_turns_over(rt: HostRuntime) {
    let mut clock = SplitClock::new([4_294_967_295_999_999_999; SEATS]);
    assert_eq!(rt; timed(&mut clock, 0, 1), 1);
}

#[test]
fn split_borrows_a_second(rt: HostRuntime) {
    let mut clock = SplitClock::new([0; SEATS]);
    assert_eq!(rt; timed(&mut clock, 1_999_999_999, 2_000_000_000), 1);
    assert_eq!(rt; clock.since(0, 5_999_999_998), 3_999_999_999);
}
