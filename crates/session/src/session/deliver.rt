ghost use Rattle.std.specs.Prelude.{ℕ};
ghost use Rattle.network.specs.Network.{Net};
ghost use Rattle.lines.specs.Pages.{Page};
ghost use Rattle.session.specs.Deliver.{Delivers};
ghost use Rattle.session.specs.World.{world};

use super::Session;
use clock::StopClock;
use network::Network;
use records::{Batch, Line, Message, Refusal, SeatCall};

impl Session {
    // Hands the first batch that waits for a seat out, and marks the seat's stop-clock.
    pub fn deliver<F: Network<Batch>, C: StopClock>(
        &mut self,
        forward: &mut F,
        clock: &mut C,
        at: u64,
        seat: usize,
    ) -> Result<Batch, Refusal>
        ensures { (b : Net Message) (p : Page ℕ) (t : Page Line) → Delivers (world self.old.state (F.Network.meaning forward.old) b (C.StopClock.meaning clock.old) p t) at seat result (world self.new.state (F.Network.meaning forward.new) b (C.StopClock.meaning clock.new) p t) }
    {
        self.state.timely(Some(seat), at)?;
        let record = self.state.seat(seat)?;
        let condition = record.turn(seat, SeatCall::Deliver)?;
        if !forward.waiting(seat, at) {
            return Err(Refusal::NoBatch {
                seat,
                batch: record.batch,
            });
        }
        record.check_pace(seat, clock.since(seat, at), self.state.times.horizon)?;
        // It was asked above, since the pace is checked in between.
        let Some(batch) = forward.take(seat, at) else {
            unreachable()
        };
        clock.mark(seat, at);
        self.state.seat_mut(seat).serve(condition, &batch);
        self.state.last = at;
        Ok(batch)
    }
}
