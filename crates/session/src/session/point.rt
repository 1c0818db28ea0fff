ghost use Rattle.std.specs.Prelude.{◌≡◌, ℕ};
ghost use Rattle.network.specs.Network.{Net};
ghost use Rattle.lines.specs.Pages.{Page, page};
ghost use Rattle.session.specs.Point.{Points};
ghost use Rattle.session.specs.World.{world};

use super::Session;
use lines::Lines;
use records::{Batch, Line, Message, Refusal};

// A batch has so many points at most, and a session so many.
const BATCH_ROOM: u32 = 64;

const POINTS_ROOM: u32 = 65_536;

impl Session {
    // Writes a value into the point list, as the next point of the open batch, and answers its number.
    pub fn point(&mut self, points: &mut Lines<u64>, at: u64, value: u64) -> Result<u32, Refusal>
        ensures point { (f : Net Batch) (b : Net Message) (c : ℕ → ℕ) (t : Page Line) → Points (world self.old.state f b c (page points.old) t) at value result (world self.new.state f b c (page points.new) t) }
        ensures same { points.new.lines.ghost_name ≡ points.old.lines.ghost_name }
    {
        self.state.timely(None, at)?;
        if self.state.market.unsealed >= BATCH_ROOM {
            return Err(Refusal::BatchFull);
        }
        if self.state.market.points >= POINTS_ROOM {
            return Err(Refusal::PointsFull);
        }
        points.write(value).map_err(|_| Refusal::PointsFull)?;
        self.state.market.points += 1;
        self.state.market.unsealed += 1;
        self.state.last = at;
        Ok(self.state.market.points)
    }
}
