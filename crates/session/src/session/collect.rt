ghost use Rattle.std.specs.Prelude.{ℕ};
ghost use Rattle.network.specs.Network.{Net};
ghost use Rattle.lines.specs.Pages.{Page};
ghost use Rattle.session.specs.Collect.{Collects};
ghost use Rattle.session.specs.World.{world};

use super::Session;
use network::Network;
use records::{Batch, Kind, Line, Message, Refusal};

impl Session {
    // Takes the first message that waits from a seat, and answers its kind. A trade goes into the buffer, unless it is
    // stray; either way the message's tag becomes the seat's watermark.
    pub fn collect<R: Network<Message>>(
        &mut self,
        reverse: &mut R,
        at: u64,
        seat: usize,
    ) -> Result<Kind, Refusal>
        ensures { (f : Net Batch) (c : ℕ → ℕ) (p : Page ℕ) (t : Page Line) → Collects (world self.old.state f (R.Network.meaning reverse.old) c p t) at seat result (world self.new.state f (R.Network.meaning reverse.new) c p t) }
    {
        self.state.timely(Some(seat), at)?;
        let record = self.state.seat(seat)?;
        let message = reverse.take(seat, at).ok_or(Refusal::NoMessage { seat })?;
        let collected = self.state.buffer.put(seat, &record, &message);
        self.state
            .seat_mut(seat)
            .note_collected(collected, message.watermark());
        self.state.last = at;
        Ok(message.kind())
    }
}
