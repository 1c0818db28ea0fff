// The checks that come first: the moment, the seat, and whether the seat has ended.
use crate::answer::Answer::*;
use crate::desk::run;
use crate::step::Step::*;
use network::END;
use records::Direction::*;
use std::test::Fail;

const NOWHERE: usize = usize::MAX;

#[test]
fn moments_never_go_back(rt: HostRuntime) -> Result<(), Fail> {
    run(
        &rt,
        rt.alloc(),
        2,
        &[
            (Point(7), Number(1)),
            // Each call refuses an earlier moment, before it looks at the seat.
            (Point(6), Refused(10)),
            (Seal(6), Refused(10)),
            (Deliver(6, 0), RefusedAt(10, 0)),
            (Submit(6, 1), RefusedAt(10, 1)),
            (Beat(6, 1), RefusedAt(10, 1)),
            (End(6, 2), RefusedAt(10, 2)),
            (Collect(0, NOWHERE), RefusedAt(10, NOWHERE)),
            // A refused call does not count.
            (Deliver(100, 0), RefusedWith(30, Some(0), Some(Forward), 0)),
            (Submit(101, 0), RefusedAt(40, 0)),
            (Beat(102, 2), RefusedAt(11, 2)),
            (Collect(103, 0), RefusedWith(50, Some(0), Some(Reverse), 0)),
            (Point(END), Refused(10)),
            // The same moment is taken, and each accepted call counts.
            (Seal(7), Number(1)),
            (Beat(8, 0), Sent),
            (Seal(7), Refused(10)),
            (Deliver(12, 0), Given(1, 1, 1)),
            (Beat(11, 0), RefusedAt(10, 0)),
            (Submit(13, 0), Number(1)),
            (Beat(12, 0), RefusedAt(10, 0)),
            (Collect(14, 0), TookBeat),
            (Point(13), Refused(10)),
            (End(15, 0), Sent),
            (Seal(14), Refused(10)),
        ],
    )
}

#[test]
fn the_last_moment_is_below_the_end(rt: HostRuntime) -> Result<(), Fail> {
    assert_eq!(rt; END, 281_474_976_710_656);
    run(
        &rt,
        rt.alloc(),
        1,
        &[
            (Point(0), Number(1)),
            (Seal(0), Number(1)),
            (Deliver(END, 0), RefusedAt(10, 0)),
            (Deliver(END - 1, 0), Given(1, 1, 1)),
            (Submit(END, 0), RefusedAt(10, 0)),
            (Submit(END - 1, 0), Number(1)),
            (Point(END), Refused(10)),
            (Point(u64::MAX), Refused(10)),
            (Point(END - 1), Number(2)),
            (Seal(END), Refused(10)),
            (Seal(END - 1), Number(2)),
            (Collect(END, 0), RefusedAt(10, 0)),
            // The trade arrives at the end, which is no moment.
            (
                Collect(END - 1, 0),
                RefusedWith(50, Some(0), Some(Reverse), 0),
            ),
            (End(END, 0), RefusedAt(10, 0)),
            (End(END - 1, 0), Sent),
        ],
    )
}

#[test]
fn seats_are_there_until_they_end(rt: HostRuntime) -> Result<(), Fail> {
    run(
        &rt,
        rt.alloc(),
        2,
        &[
            (Deliver(0, 2), RefusedAt(11, 2)),
            (Submit(0, 2), RefusedAt(11, 2)),
            (Beat(0, 2), RefusedAt(11, 2)),
            (End(0, NOWHERE), RefusedAt(11, NOWHERE)),
            (Collect(0, NOWHERE), RefusedAt(11, NOWHERE)),
            (Point(0), Number(1)),
            (Seal(0), Number(1)),
            (Deliver(5, 1), Given(1, 1, 1)),
            (End(5, 1), Sent),
            // It takes nothing more, and its end is still to be collected.
            (Deliver(6, 1), RefusedAt(12, 1)),
            (Offer(6, 1, 0, 0, 0), RefusedAt(12, 1)),
            (Beat(6, 1), RefusedAt(12, 1)),
            (End(6, 1), RefusedAt(12, 1)),
            (Collect(10, 1), TookEnd),
            (Collect(10, 1), RefusedWith(50, Some(1), Some(Reverse), 0)),
            // A bare seat may end too.
            (End(10, 0), Sent),
            (Submit(10, 0), RefusedAt(12, 0)),
        ],
    )
}
