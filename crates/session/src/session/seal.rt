ghost use Rattle.std.specs.Prelude.{ℕ};
ghost use Rattle.network.specs.Network.{Net};
ghost use Rattle.lines.specs.Pages.{Page};
ghost use Rattle.session.specs.Seal.{Seals};
ghost use Rattle.session.specs.World.{world};

use super::Session;
use network::Network;
use records::{Batch, Line, Message, Refusal};

impl Session {
    // Sends the open batch to every seat that has not ended, and opens an empty one. The number of the batch sent.
    pub fn seal<F: Network<Batch>>(&mut self, forward: &mut F, at: u64) -> Result<u32, Refusal>
        ensures { (b : Net Message) (c : ℕ → ℕ) (p : Page ℕ) (t : Page Line) → Seals (world self.old.state (F.Network.meaning forward.old) b c p t) at result (world self.new.state (F.Network.meaning forward.new) b c p t) }
    {
        self.state.timely(None, at)?;
        let market = self.state.market;
        if market.unsealed == 0 {
            return Err(Refusal::BatchEmpty);
        }
        if market.sealed_lately(self.state.times.window, at) {
            return Err(Refusal::SealedLately);
        }
        let batch = market.open_batch();
        if let Some(seat) = self.state.lowest_crowded(forward) {
            return Err(Refusal::ForwardFull {
                seat,
                batch: batch.number,
            });
        }
        self.state.deal(forward, at, batch);
        self.state.market = market.sealed(at);
        self.state.last = at;
        Ok(batch.number)
    }
}
