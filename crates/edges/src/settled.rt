// When a session is settled.
use crate::answer::Answer::*;
use crate::desk::run;
use crate::step::Step::*;
use std::test::Fail;

#[test]
fn ends_are_collected_and_nothing_waits(rt: HostRuntime) -> Result<(), Fail> {
    run(&rt, rt.alloc(), 0, &[(Settled, Is(true))])?;
    run(
        &rt,
        rt.alloc(),
        2,
        &[
            (Settled, Is(false)),
            (Point(0), Number(1)),
            (Seal(0), Number(1)),
            (Deliver(5, 0), Given(1, 1, 1)),
            (Submit(5, 0), Number(1)),
            (End(5, 0), Sent),
            (End(5, 1), Sent),
            (Settled, Is(false)),
            (Collect(10, 0), TookTrade),
            (Collect(10, 0), TookEnd),
            (Settled, Is(false)),
            (Collect(10, 1), TookEnd),
            // A trade waits in the buffer.
            (Settled, Is(false)),
            (Release, Released(1, 0, 1)),
            (Settled, Is(true)),
        ],
    )
}
