// What a layout takes, and that its session keeps it.
use crate::answer::Answer::*;
use crate::desk::Desk;
use crate::step::Step::*;
use network::Slot;
use records::Line;
use session::Layout;
use std::alloc::Global;
use std::process::Abort;
use std::test::Fail;

// Sets the times, or gives the flaw's number.
fn setting(layout: &mut Layout, horizon: u64, window: u64) -> Result<(), u32> {
    layout
        .set_times(horizon, window)
        .map_err(|flaw| flaw.number())
}

#[test]
fn times_have_limits(rt: HostRuntime) -> Result<(), Fail> {
    let mut layout = Layout::new(rt.alloc())?;
    let rows = [
        (0, 2, Err(1)),
        (0, 0, Err(1)),
        (1, 0, Err(2)),
        (1, 1, Err(2)),
        (1, 2, Ok(())),
        (20, 19, Err(2)),
        (20, 20, Err(2)),
        (20, 21, Ok(())),
        (1, 1 << 33, Ok(())),
        (1, (1 << 33) + 1, Err(2)),
        (1, u64::MAX, Err(2)),
        (1 << 32, 1 << 32, Err(2)),
        (1 << 32, (1 << 32) + 1, Ok(())),
        (1 << 32, 1 << 33, Ok(())),
        (1 << 32, (1 << 33) + 1, Err(2)),
        ((1 << 32) + 1, 1 << 33, Err(1)),
        (u64::MAX, u64::MAX, Err(1)),
    ];
    for (i, row) in rows.iter().enumerate() {
        let (horizon, window, wanted) = *row;
        assert_eq!(rt; setting(&mut layout, horizon, window), wanted, "row {i}");
    }
    Ok(())
}

// That the session of a layout keeps just these times.
fn keeps(
    rt: &impl Abort,
    heap: Global,
    layout: Layout,
    horizon: u64,
    window: u64,
) -> Result<(), Fail> {
    let mut forward = [Slot::default(); 32];
    let mut points = [0; 2];
    let mut desk = Desk::new(rt, heap, 0, &mut forward, &mut [], &mut points, &mut [])?;
    desk.session = layout.open();
    let first = window.saturating_add(5);
    let second = first.saturating_add(horizon);
    desk.expect(
        rt,
        &[
            (Point(0), Number(1)),
            (Seal(0), Number(1)),
            (Point(0), Number(2)),
            (Seal(window.saturating_sub(1)), Refused(23)),
            (Seal(window), Number(2)),
            (Deliver(first, 0), Given(1, 1, 1)),
            (
                Deliver(second.saturating_sub(1), 0),
                RefusedWith(31, Some(0), None, 1),
            ),
            (Deliver(second, 0), Given(2, 2, 1)),
        ],
    );
    Ok(())
}

#[test]
fn times_are_kept(rt: HostRuntime) -> Result<(), Fail> {
    let heap = rt.alloc();
    let mut layout = Layout::new(heap)?;
    assert!(rt; layout.add_seat().is_ok());
    // as laid out first
    keeps(&rt, heap, layout, 1, 2)?;
    let mut layout = Layout::new(heap)?;
    assert!(rt; layout.add_seat().is_ok());
    assert_eq!(rt; setting(&mut layout, 1 << 32, 1 << 33), Ok(()));
    // the longest
    keeps(&rt, heap, layout, 1 << 32, 1 << 33)?;
    let mut layout = Layout::new(heap)?;
    assert!(rt; layout.add_seat().is_ok());
    assert_eq!(rt; setting(&mut layout, 20, 21), Ok(()));
    assert_eq!(rt; setting(&mut layout, 0, 60), Err(1));
    assert_eq!(rt; setting(&mut layout, 30, 30), Err(2));
    // refused settings change nothing
    keeps(&rt, heap, layout, 20, 21)
}

// That a session has just so many seats.
fn has(rt: &impl Abort, heap: Global, layout: Layout, seats: usize) -> Result<(), Fail> {
    let mut reverse = [Slot::default(); 16];
    let mut points = [0; 1];
    let mut tape = [Line::default(); 1];
    let mut desk = Desk::new(rt, heap, 0, &mut [], &mut reverse, &mut points, &mut tape)?;
    desk.session = layout.open();
    for seat in 0..seats {
        desk.expect(rt, &[(Beat(0, seat), Sent)]);
    }
    desk.expect(rt, &[(Beat(0, seats), RefusedAt(11, seats))]);
    Ok(())
}

#[test]
fn sixteen_seats_at_most(rt: HostRuntime) -> Result<(), Fail> {
    let heap = rt.alloc();
    has(&rt, heap, Layout::new(heap)?, 0)?;
    let mut layout = Layout::new(heap)?;
    assert_eq!(rt; adding(&mut layout), Ok(0));
    has(&rt, heap, layout, 1)?;
    let mut layout = Layout::new(heap)?;
    for seat in 0..16usize {
        assert_eq!(rt; adding(&mut layout), Ok(seat));
    }
    assert_eq!(rt; adding(&mut layout), Err(3));
    assert_eq!(rt; adding(&mut layout), Err(3));
    has(&rt, heap, layout, 16)
}

// The new seat's number, or the flaw's.
fn adding(layout: &mut Layout) -> Result<usize, u32> {
    layout.add_seat().map_err(|flaw| flaw.number())
}
