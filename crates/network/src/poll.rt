ghost use Rattle.std.specs.Prelude.{◌≡◌, ◌-◌, ◌%◌, ◌<◌};
ghost use Rattle.network.specs.Layer.{gap as gap_of, poll_at, polled};
ghost use Rattle.network.specs.Moves.{gap_moves};
ghost use Rattle.network.specs.Network.{Unused};

use crate::layer::{Layer, Shift};
use crate::network::{END, Network};

// A layer that looks for records at every multiple of a gap only.
pub type Poll<N> = Layer<N, RoundUp>;

impl<N> Poll<N> {
    // An unused network below makes an unused one. `Hop::new` says why each has a `new`.
    pub fn new<R>(below: N, gap: u32) -> Poll<N>
    where
        N: Network<R>,
        ensures net { polled result.shift.gap (N.Network.meaning result.below) ≡ polled gap (N.Network.meaning below) }
        ensures idle { Unused (N.Network.meaning below) → Unused (polled result.shift.gap (N.Network.meaning result.below)) }
    {
        Layer::over(below, RoundUp { gap })
    }
}

// Each arrival is rounded up to a multiple of `gap`, where 0 is taken as 1.
#[derive(Clone, Copy)]
pub struct RoundUp {
    gap: u32,
}

impl RoundUp {
    fn step(&self) -> u32
        ensures { result ≡ gap_of self.now.gap }
    {
        self.gap.max(1)
    }
}

impl Shift for RoundUp {
    ghost moves = { λ s. poll_at (gap_of s.gap) };

    ghost most = { λ s. gap_of s.gap - 1 };

    ghost ordered = { λ s. gap_moves s.gap };

    fn most(&self) -> u32 {
        self.step() - 1
    }

    #[tactic(auto, using(crate::specs::Moves::poll_before))]
    fn before(&self, moment: u64) -> Option<u64> {
        if moment >= END {
            return None;
        }
        Some(last_multiple(u64::from(self.step()), moment))
    }
}

// The last multiple of a step up to a moment.
fn last_multiple(step: u64, moment: u64) -> u64
    requires { 0 < step }
    ensures { result ≡ moment - moment % step }
{
    moment - moment % step
}
