ghost use Rattle.std.specs.Prelude.{◌≡◌, length};
ghost use Rattle.network.specs.Delays.{fixed_delay, greatest};
ghost use Rattle.network.specs.Network.{Unused};
ghost use Rattle.network.specs.Rings.{rings_net, unused};

use crate::network::LINKS;
use crate::rings::{Rings, Slot};

// A network with one delay for each link.
pub type Fixed<'a, R> = Rings<'a, R, [u32; LINKS]>;

impl<'a, R> Fixed<'a, R> {
    // `Trace::new` is alike, but takes its delays as one list; one `new` for both would ask callers for a `Recording`.
    pub fn new(slots: &'a mut [Slot<R>], delays: [u32; LINKS]) -> Fixed<'a, R>
        ensures net { rings_net fixed_delay greatest result ≡ unused (length slots.old) (fixed_delay delays) (greatest delays) }
        ensures idle { Unused (rings_net fixed_delay greatest result) }
    {
        Rings::with_delays(slots, delays)
    }
}
