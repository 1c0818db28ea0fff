// Points, seals and deliveries.
use crate::answer::Answer::*;
use crate::desk::{Desk, run};
use crate::step::Step::*;
use records::Direction::*;
use std::test::Fail;

#[test]
fn a_batch_takes_64_points(rt: HostRuntime) -> Result<(), Fail> {
    run(
        &rt,
        rt.alloc(),
        0,
        &[
            (Points(0, 64), Number(64)),
            (Point(0), Refused(20)),
            (Seal(0), Number(1)),
            (Points(0, 64), Number(128)),
            // The list is full too, which is told later.
            (Point(0), Refused(20)),
            (Seal(50), Number(2)),
            (Point(50), Refused(21)),
        ],
    )
}

#[test]
fn a_session_takes_65_536_points(rt: HostRuntime) -> Result<(), Fail> {
    let mut points = [0; 65_537];
    let mut desk = Desk::new(&rt, rt.alloc(), 0, &mut [], &mut [], &mut points, &mut [])?;
    for batch in 0..1023u64 {
        let _ = desk.make(Points(batch * 50, 64));
        let _ = desk.make(Seal(batch * 50));
    }
    desk.expect(
        &rt,
        &[
            (Points(60_000, 64), Number(65_536)),
            (Seal(60_000), Number(1024)),
            (Point(60_000), Refused(21)),
        ],
    );
    Ok(())
}

#[test]
fn seals_are_a_window_apart(rt: HostRuntime) -> Result<(), Fail> {
    run(
        &rt,
        rt.alloc(),
        3,
        &[
            (Seal(10), Refused(22)),
            (Point(10), Number(1)),
            (Seal(10), Number(1)),
            (Seal(10), Refused(22)),
            (Point(11), Number(2)),
            (Point(12), Number(3)),
            (Seal(59), Refused(23)),
            (Seal(60), Number(2)),
            (Deliver(65, 0), Given(1, 1, 1)),
            (Point(65), Number(4)),
            // The links hold two batches. The lowest full one is named, unless its seat has ended.
            (Seal(109), Refused(23)),
            (Seal(110), RefusedWith(24, Some(1), Some(Forward), 3)),
            (End(110, 1), Sent),
            (Seal(110), RefusedWith(24, Some(2), Some(Forward), 3)),
            (Deliver(110, 2), Given(1, 1, 1)),
            (Seal(110), Number(3)),
            // Each seat got all three, and the ended one nothing more.
            (Deliver(115, 0), Given(2, 2, 2)),
            (Deliver(135, 0), Given(3, 4, 1)),
            (Deliver(135, 2), Given(2, 2, 2)),
        ],
    )
}

#[test]
fn deliveries_are_a_horizon_apart(rt: HostRuntime) -> Result<(), Fail> {
    run(
        &rt,
        rt.alloc(),
        2,
        &[
            (Point(0), Number(1)),
            (Seal(0), Number(1)),
            (Deliver(4, 0), RefusedWith(30, Some(0), Some(Forward), 0)),
            (Deliver(5, 0), Given(1, 1, 1)),
            (Deliver(5, 0), RefusedWith(30, Some(0), Some(Forward), 1)),
            (Point(5), Number(2)),
            (Seal(50), Number(2)),
            (Deliver(54, 0), RefusedWith(30, Some(0), Some(Forward), 1)),
            (Deliver(60, 1), Given(1, 1, 1)),
            (Deliver(60, 1), RefusedWith(31, Some(1), None, 1)),
            (Deliver(79, 1), RefusedWith(31, Some(1), None, 1)),
            (Deliver(79, 0), Given(2, 2, 1)),
            (Deliver(80, 1), Given(2, 2, 1)),
            (Deliver(81, 1), RefusedWith(30, Some(1), Some(Forward), 2)),
        ],
    )
}
