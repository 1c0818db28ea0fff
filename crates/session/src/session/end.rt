ghost use Rattle.std.specs.Prelude.{ℕ};
ghost use Rattle.network.specs.Network.{Net};
ghost use Rattle.lines.specs.Pages.{Page};
ghost use Rattle.session.specs.End.{Ends};
ghost use Rattle.session.specs.World.{world};

use super::Session;
use network::Network;
use records::{Batch, Line, Message, Refusal, SeatCall};

impl Session {
    // Sends an end to the exchange; the seat has ended.
    pub fn end<R: Network<Message>>(
        &mut self,
        reverse: &mut R,
        at: u64,
        seat: usize,
    ) -> Result<(), Refusal>
        ensures { (f : Net Batch) (c : ℕ → ℕ) (p : Page ℕ) (t : Page Line) → Ends (world self.old.state f (R.Network.meaning reverse.old) c p t) at seat result (world self.new.state f (R.Network.meaning reverse.new) c p t) }
    {
        self.state.timely(Some(seat), at)?;
        let condition = self.state.seat(seat)?.turn(seat, SeatCall::End)?;
        reverse
            .send(seat, at, Message::End)
            .map_err(|_| Refusal::ReverseFull { seat })?;
        self.state.seat_mut(seat).condition = condition;
        self.state.last = at;
        Ok(())
    }
}
