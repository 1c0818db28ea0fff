// The order of the releases, and what holds them up.
use crate::answer::Answer::*;
use crate::answer::released;
use crate::desk::{Desk, reject, run};
use crate::step::Step::*;
use lines::Lines;
use network::Slot;
use records::Line;
use std::alloc::Global;
use std::process::Abort;
use std::test::Fail;

#[test]
fn a_watermark_must_be_above(rt: HostRuntime) -> Result<(), Fail> {
    run(
        &rt,
        rt.alloc(),
        2,
        &[
            (Point(0), Number(1)),
            (Seal(0), Number(1)),
            // Seat 0 submits with tag (1, 9), and seat 1 beats at (1, 9) and (1, 10) by its own clock.
            (Deliver(15, 0), Given(1, 1, 1)),
            (Submit(24, 0), Number(1)),
            (Deliver(40, 1), Given(1, 1, 1)),
            (Beat(49, 1), Sent),
            (Beat(50, 1), Sent),
            (Release, Refused(60)),
            (Collect(54, 0), TookTrade),
            (Release, RefusedWith(61, Some(1), None, 1)),
            (Collect(54, 1), TookBeat),
            (Release, RefusedWith(61, Some(1), None, 1)),
            (Collect(55, 1), TookBeat),
            (Release, Released(1, 0, 1)),
            (Release, Refused(60)),
            // A higher batch counts before the time: (1, 60) is not above (2, 0), and that is above (1, 75).
            (Point(60), Number(2)),
            (Seal(60), Number(2)),
            (Deliver(65, 0), Given(2, 2, 1)),
            (Submit(65, 0), Number(2)),
            (Beat(100, 1), Sent),
            (Collect(105, 0), TookTrade),
            (Collect(105, 1), TookBeat),
            (Release, RefusedWith(61, Some(1), None, 2)),
            (Submit(115, 1), Number(1)),
            (End(115, 1), Sent),
            (Collect(120, 1), TookTrade),
            (Release, Released(2, 1, 1)),
            (Release, RefusedWith(61, Some(1), None, 2)),
            (Collect(120, 1), TookEnd),
            (Release, Released(3, 0, 2)),
        ],
    )
}

#[test]
fn equal_tags_go_by_seat_and_serial(rt: HostRuntime) -> Result<(), Fail> {
    run(
        &rt,
        rt.alloc(),
        2,
        &[
            (Point(0), Number(1)),
            (Seal(0), Number(1)),
            (Deliver(10, 0), Given(1, 1, 1)),
            (Deliver(10, 1), Given(1, 1, 1)),
            (Submit(19, 1), Number(1)),
            (Submit(19, 0), Number(1)),
            (Submit(19, 0), Number(2)),
            (Submit(20, 0), Number(3)),
            (Collect(24, 1), TookTrade),
            (Release, RefusedWith(61, Some(0), None, 1)),
            (Collect(24, 0), TookTrade),
            (Collect(24, 0), TookTrade),
            (Collect(25, 0), TookTrade),
            // Seat 0's trades are first, and seat 1 holds them up.
            (Release, RefusedWith(61, Some(1), None, 1)),
            (Beat(25, 1), Sent),
            (Collect(30, 1), TookBeat),
            (Release, Released(1, 0, 1)),
            (Release, Released(2, 0, 2)),
            (Release, Released(3, 1, 1)),
            (Release, Released(4, 0, 3)),
            (Release, Refused(60)),
        ],
    )
}

// Two trades of seat 0 onto a tape of one line, with tags (1, 2) and (1, 3).
fn release_two(rt: &impl Abort, heap: Global, tape: &mut [Line]) -> Result<(), Fail> {
    let mut forward = [Slot::default(); 32];
    let mut reverse = [Slot::default(); 64];
    let mut points = [0; 1];
    let mut desk = Desk::new(rt, heap, 2, &mut forward, &mut reverse, &mut points, tape)?;
    desk.expect(
        rt,
        &[
            (Point(0), Number(1)),
            (Seal(0), Number(1)),
            (Deliver(10, 0), Given(1, 1, 1)),
            (Deliver(10, 1), Given(1, 1, 1)),
            (Offer(12, 0, 1, 70, 8), Number(1)),
            (Offer(13, 0, 1, 60, 9), Number(2)),
            (Beat(13, 1), Sent),
            (End(14, 1), Sent),
            (Collect(18, 0), TookTrade),
            (Collect(18, 0), TookTrade),
            (Collect(18, 1), TookBeat),
            (Release, Released(1, 0, 1)),
            // What holds the next one up is told before the full tape.
            (Release, RefusedWith(61, Some(1), None, 1)),
            (Collect(19, 1), TookEnd),
            (Release, Refused(62)),
            (Release, Refused(62)),
        ],
    );
    let mut more = [Line::default(); 2];
    let answer = reject(&mut desk.session, &mut Lines::new(&mut more));
    assert_eq!(rt;
        released(answer),
        Released(1, 0, 2),
        "the next tape's first"
    );
    desk.expect(rt, &[(Release, Refused(60))]);
    Ok(())
}

#[test]
fn a_full_tape_leaves_the_trade(rt: HostRuntime) -> Result<(), Fail> {
    let mut tape = [Line::default(); 1];
    release_two(&rt, rt.alloc(), &mut tape)?;
    let [Line { place, trade }] = tape;
    assert_eq!(rt; (place, trade.seat, trade.serial), (1, 0, 1));
    assert_eq!(rt;
        (trade.tag.batch, trade.tag.elapsed, trade.trigger),
        (1, 2, 1)
    );
    assert_eq!(rt; (trade.price, trade.quantity), (70, 8));
    Ok(())
}
