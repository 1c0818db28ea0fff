// Which offers a seat may submit.
use crate::answer::Answer::*;
use crate::desk::{Desk, reject, run};
use crate::step::Step::*;
use lines::Lines;
use network::Slot;
use records::Direction::*;
use records::Line;
use std::test::Fail;

#[test]
fn offers_have_limits(rt: HostRuntime) -> Result<(), Fail> {
    run(
        &rt,
        rt.alloc(),
        1,
        &[
            (Point(0), Number(1)),
            (Point(0), Number(2)),
            (Offer(0, 0, 0, 0, 0), RefusedAt(40, 0)),
            (Seal(0), Number(1)),
            (Submit(5, 0), RefusedAt(40, 0)),
            (Deliver(5, 0), Given(1, 1, 2)),
            // A point that was sealed and not delivered is no trigger.
            (Point(5), Number(3)),
            (Seal(50), Number(2)),
            (Offer(60, 0, 0, 1, 1), RefusedAt(41, 0)),
            (Offer(60, 0, 1, 1, 1), Number(1)),
            (Offer(60, 0, 2, 1, 1), Number(2)),
            (Offer(60, 0, 3, 1, 1), RefusedAt(41, 0)),
            (Offer(60, 0, u64::MAX, 0, 0), RefusedAt(41, 0)),
            (Deliver(60, 0), Given(2, 3, 1)),
            (Offer(60, 0, 3, 1, 1), Number(3)),
            (Offer(60, 0, 4, 1, 1), RefusedAt(41, 0)),
            (Offer(60, 0, 1, 1, 1), Number(4)),
            (Offer(60, 0, 1, 0, 1), RefusedAt(42, 0)),
            (Offer(60, 0, 1, 1_000_000_000, 1), Number(5)),
            (Offer(60, 0, 1, 1_000_000_001, 1), RefusedAt(42, 0)),
            (Offer(60, 0, 1, (1 << 32) + 1, 1), RefusedAt(42, 0)),
            (Offer(60, 0, 1, u64::MAX, 1), RefusedAt(42, 0)),
            (Offer(60, 0, 1, 1, 0), RefusedAt(42, 0)),
            (Offer(60, 0, 1, 1, 1_000_000), Number(6)),
            (Offer(60, 0, 1, 1, 1_000_001), RefusedAt(42, 0)),
            (Offer(60, 0, 1, 1, (1 << 32) + 1), RefusedAt(42, 0)),
        ],
    )
}

#[test]
fn sixteen_trades_are_pending_at_most(rt: HostRuntime) -> Result<(), Fail> {
    run(
        &rt,
        rt.alloc(),
        2,
        &[
            (Point(0), Number(1)),
            (Seal(0), Number(1)),
            (Deliver(5, 0), Given(1, 1, 1)),
            (Deliver(5, 1), Given(1, 1, 1)),
            (Submits(5, 0, 16), Number(16)),
            // The link is full too, which is told last.
            (Submit(5, 0), RefusedAt(44, 0)),
            (Offer(5, 0, 1, 0, 1), RefusedAt(42, 0)),
            (Beat(5, 0), RefusedWith(45, Some(0), Some(Reverse), 0)),
            (Submit(5, 1), Number(1)),
            (End(5, 1), Sent),
            (Collect(10, 0), TookTrade),
            (Submit(10, 0), RefusedAt(44, 0)),
            (Collects(10, 1, 2), TookEnd),
            (Release, Released(1, 0, 1)),
            (Submit(10, 0), Number(17)),
            (Submit(10, 0), RefusedAt(44, 0)),
            (Collects(15, 0, 16), TookTrade),
            // Seat 1's trade comes after the 16 with the same tag, and before the later one.
            (Releases(15), Released(16, 0, 16)),
            (Release, Released(17, 1, 1)),
            (Release, Released(18, 0, 17)),
            (Submits(15, 0, 16), Number(33)),
            (Submit(15, 0), RefusedAt(44, 0)),
        ],
    )
}

#[test]
fn a_link_fills_up(rt: HostRuntime) -> Result<(), Fail> {
    run(
        &rt,
        rt.alloc(),
        2,
        &[
            (Point(0), Number(1)),
            (Seal(0), Number(1)),
            (Deliver(5, 1), Given(1, 1, 1)),
            (Submit(5, 1), Number(1)),
            (Beats(5, 1, 15), Sent),
            (Submit(6, 1), RefusedWith(45, Some(1), Some(Reverse), 0)),
            (Beat(6, 1), RefusedWith(45, Some(1), Some(Reverse), 0)),
            (End(6, 1), RefusedWith(45, Some(1), Some(Reverse), 0)),
            (Beat(6, 0), Sent),
            (Collect(9, 1), RefusedWith(50, Some(1), Some(Reverse), 0)),
            (Collect(10, 1), TookTrade),
            (Submit(10, 1), Number(2)),
            (Submit(10, 1), RefusedWith(45, Some(1), Some(Reverse), 0)),
            (Collect(10, 1), TookBeat),
            (End(10, 1), Sent),
            (Submit(10, 1), RefusedAt(12, 1)),
        ],
    )
}

// Trades that are submitted, collected and released one by one.
fn trade(desk: &mut Desk, count: usize) {
    for at in (5..).step_by(5).take(count) {
        let _ = desk.make(Submit(at, 0));
        let _ = desk.make(Collect(at.saturating_add(5), 0));
        let mut tape = [Line::default(); 1];
        let _ = reject(&mut desk.session, &mut Lines::new(&mut tape));
    }
}

#[test]
fn a_seat_has_a_million_trades(rt: HostRuntime) -> Result<(), Fail> {
    let mut forward = [Slot::default(); 16];
    let mut reverse = [Slot::default(); 512];
    let mut points = [0; 1];
    let mut desk = Desk::new(
        &rt,
        rt.alloc(),
        1,
        &mut forward,
        &mut reverse,
        &mut points,
        &mut [],
    )?;
    let _ = desk.make(Point(0));
    let _ = desk.make(Seal(0));
    let _ = desk.make(Deliver(5, 0));
    trade(&mut desk, 999_984);
    // Sixteen are pending too, which is told later.
    desk.expect(
        &rt,
        &[
            (Submits(6_000_000, 0, 16), Number(1_000_000)),
            (Submit(6_000_000, 0), RefusedAt(43, 0)),
        ],
    );
    Ok(())
}
