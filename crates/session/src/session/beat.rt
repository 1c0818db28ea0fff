ghost use Rattle.std.specs.Prelude.{ℕ};
ghost use Rattle.network.specs.Network.{Net};
ghost use Rattle.lines.specs.Pages.{Page};
ghost use Rattle.session.specs.Beat.{Beats};
ghost use Rattle.session.specs.World.{world};

use super::Session;
use clock::StopClock;
use network::Network;
use records::{Batch, Line, Message, Refusal, SeatCall};

impl Session {
    // Sends the seat's tag to the exchange: no trade of it with a lower one will follow.
    pub fn beat<R: Network<Message>, C: StopClock>(
        &mut self,
        reverse: &mut R,
        clock: &C,
        at: u64,
        seat: usize,
    ) -> Result<(), Refusal>
        ensures { (f : Net Batch) (p : Page ℕ) (t : Page Line) → Beats (world self.old.state f (R.Network.meaning reverse.old) (C.StopClock.meaning clock.now) p t) at seat result (world self.new.state f (R.Network.meaning reverse.new) (C.StopClock.meaning clock.now) p t) }
    {
        self.state.timely(Some(seat), at)?;
        let record = self.state.seat(seat)?;
        record.turn(seat, SeatCall::Beat)?;
        let tag = record.tag(clock.since(seat, at));
        reverse
            .send(seat, at, Message::Beat(tag))
            .map_err(|_| Refusal::ReverseFull { seat })?;
        self.state.last = at;
        Ok(())
    }
}
