// Messages that come over a reverse link past the session. A stray trade isn't buffered, and each message's tag becomes
// the watermark of the link's seat.
use crate::answer::Answer::*;
use crate::desk::run;
use crate::step::Step::*;
use std::test::Fail;

#[test]
fn a_trade_of_another_seat_is_stray(rt: HostRuntime) -> Result<(), Fail> {
    run(
        &rt,
        rt.alloc(),
        2,
        &[
            (Point(0), Number(1)),
            (Seal(0), Number(1)),
            (Deliver(10, 0), Given(1, 1, 1)),
            (Deliver(10, 1), Given(1, 1, 1)),
            (Submit(18, 1), Number(1)),
            (Submit(19, 1), Number(2)),
            (StrayTrade(19, 0, 1, 1), Sent),
            (Collect(24, 0), TookTrade),
            (Release, Refused(60)),
            (Collect(24, 1), TookTrade),
            (Collect(24, 1), TookTrade),
            // Seat 0 is known up to (1, 9).
            (Release, Released(1, 1, 1)),
            (Release, RefusedWith(61, Some(0), None, 1)),
        ],
    )
}

#[test]
fn only_the_next_serial_is_not_stray(rt: HostRuntime) -> Result<(), Fail> {
    run(
        &rt,
        rt.alloc(),
        2,
        &[
            (Point(0), Number(1)),
            (Seal(0), Number(1)),
            (Deliver(10, 0), Given(1, 1, 1)),
            (Deliver(10, 1), Given(1, 1, 1)),
            (End(13, 1), Sent),
            (Collect(18, 1), TookEnd),
            // It was not submitted yet.
            (StrayTrade(18, 0, 0, 1), Sent),
            (Collect(23, 0), TookTrade),
            (Release, Refused(60)),
            (Submit(23, 0), Number(1)),
            // A repeated one, one that no trade has, and one that is too early.
            (StrayTrade(23, 0, 0, 1), Sent),
            (StrayTrade(23, 0, 0, 0), Sent),
            (StrayTrade(23, 0, 0, 3), Sent),
            (Submit(24, 0), Number(2)),
            (Submit(24, 0), Number(3)),
            (Collect(29, 0), TookTrade),
            (Collect(29, 0), TookTrade),
            (Collect(29, 0), TookTrade),
            (Collect(29, 0), TookTrade),
            (Release, Released(1, 0, 1)),
            (Release, Refused(60)),
            (Collect(29, 0), TookTrade),
            (Collect(29, 0), TookTrade),
            (Release, Released(2, 0, 2)),
            (Release, Released(3, 0, 3)),
            (Release, Refused(60)),
        ],
    )
}

#[test]
fn a_beat_after_an_end_takes_it_back(rt: HostRuntime) -> Result<(), Fail> {
    run(
        &rt,
        rt.alloc(),
        2,
        &[
            (Point(0), Number(1)),
            (Seal(0), Number(1)),
            (Deliver(10, 0), Given(1, 1, 1)),
            (Deliver(10, 1), Given(1, 1, 1)),
            (Submit(12, 0), Number(1)),
            (Submit(13, 0), Number(2)),
            (End(13, 0), Sent),
            (End(13, 1), Sent),
            (StrayBeat(13, 1), Sent),
            (StrayEnd(13, 1), Sent),
            (StrayBeat(14, 1), Sent),
            (Collect(18, 0), TookTrade),
            (Collect(18, 0), TookTrade),
            (Collect(18, 0), TookEnd),
            (Collect(18, 1), TookEnd),
            (Collect(18, 1), TookBeat),
            // Seat 1 is known up to (1, 3).
            (Release, Released(1, 0, 1)),
            (Release, RefusedWith(61, Some(1), None, 1)),
            (Collect(18, 1), TookEnd),
            (Release, Released(2, 0, 2)),
            (Settled, Is(true)),
            (Collect(19, 1), TookBeat),
            (Settled, Is(false)),
        ],
    )
}
