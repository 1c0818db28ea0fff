ghost use Rattle.std.specs.Prelude.{ℕ};
ghost use Rattle.network.specs.Network.{Net};
ghost use Rattle.lines.specs.Pages.{Page};
ghost use Rattle.session.specs.Settled.{Says, Settled};
ghost use Rattle.session.specs.World.{world};

use super::Session;
use records::{Batch, Line, Message};

impl Session {
    // Whether nothing is to come from any seat, and no trade waits.
    pub fn settled(&self) -> bool
        ensures { (f : Net Batch) (b : Net Message) (c : ℕ → ℕ) (p : Page ℕ) (t : Page Line) → Says result (Settled (world self.now.state f b c p t)) }
    {
        self.state.buffer.is_empty() && self.state.all_ended()
    }
}
