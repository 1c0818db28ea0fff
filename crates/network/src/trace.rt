ghost use Rattle.std.specs.Prelude.{◌≡◌, length};
ghost use Rattle.network.specs.Delays.{entry, greatest, recorded_delay, recorded_longest};
ghost use Rattle.network.specs.Network.{Unused};
ghost use Rattle.network.specs.Rings.{rings_net, unused};

use crate::delays::Recording;
use crate::rings::{Rings, Slot};

// A network with recorded delays: the nth record that a link accepts has the nth of them.
pub type Trace<'a, 'd, R> = Rings<'a, R, Recording<'d>>;

impl<'a, 'd, R> Trace<'a, 'd, R> {
    // `Fixed::new` says why each has a `new`.
    pub fn new(slots: &'a mut [Slot<R>], delays: &'d [u32]) -> Trace<'a, 'd, R>
        ensures net { rings_net recorded_delay recorded_longest result ≡ unused (length slots.old) (λ _ nth. entry delays.now nth) (greatest delays.now) }
        ensures idle { Unused (rings_net recorded_delay recorded_longest result) }
    {
        Rings::with_delays(slots, Recording::new(delays))
    }
}
