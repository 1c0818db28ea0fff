ghost use Rattle.std.proofs.Common.{lit<};
ghost use Rattle.clock.specs.Readings.{offset_turn};

use crate::reading::Reading;

// What an offset clock shows: nanoseconds, which turn over after 2^64.
#[derive(Clone, Copy)]
pub struct OffsetReading {
    nanos: u64,
}

impl Reading for OffsetReading {
    ghost turn = { offset_turn };

    ghost count = { λ r. r.nanos };

    ghost long = { lit< tt };

    fn at(start: u64, moment: u64) -> Self {
        OffsetReading {
            nanos: start.wrapping_add(moment),
        }
    }

    fn since(self, earlier: Self) -> u64 {
        self.nanos.wrapping_sub(earlier.nanos)
    }
}
