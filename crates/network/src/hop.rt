ghost use Rattle.std.specs.Prelude.{◌≡◌};
ghost use Rattle.network.specs.Layer.{hop_at, hopped};
ghost use Rattle.network.specs.Moves.{hop_moves};
ghost use Rattle.network.specs.Network.{Unused};

use crate::layer::{Layer, Shift};
use crate::network::{END, Network};

// A layer through which every record takes some nanoseconds longer.
pub type Hop<N> = Layer<N, Later>;

impl<N> Hop<N> {
    // An unused network below makes an unused one. `Poll::new` is alike: one `new` for
    // both would promise by what a `From<u32>` gives.
    pub fn new<R>(below: N, extra: u32) -> Hop<N>
    where
        N: Network<R>,
        ensures net { hopped result.shift.extra (N.Network.meaning result.below) ≡ hopped extra (N.Network.meaning below) }
        ensures idle { Unused (N.Network.meaning below) → Unused (hopped result.shift.extra (N.Network.meaning result.below)) }
    {
        Layer::over(below, Later { extra })
    }
}

// Each arrival is `extra` later.
#[derive(Clone, Copy)]
pub struct Later {
    extra: u32,
}

impl Shift for Later {
    ghost moves = { λ s. hop_at s.extra };

    ghost most = { λ s. s.extra };

    ghost ordered = { λ s. hop_moves s.extra };

    fn most(&self) -> u32 {
        self.extra
    }

    fn before(&self, moment: u64) -> Option<u64> {
        if moment >= END {
            return None;
        }
        moment.checked_sub(u64::from(self.extra))
    }
}
