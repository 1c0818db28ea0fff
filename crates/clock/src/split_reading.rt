ghost use Rattle.std.specs.Prelude.{◌≡◌, ◌+◌, ◌/◌, ◌%◌, ◌^◌, ◌<◌};
ghost use Rattle.std.proofs.Common.{lit<};
ghost use Rattle.clock.specs.Readings.{joined, one_second, split_turn};
ghost use Rattle.clock.specs.Turns.{shown};

use crate::reading::Reading;

// The nanoseconds of a second.
const SECOND: u64 = 1_000_000_000;

// The seconds turn over after so many.
const TURN: u128 = 1 << 32;

// What a split clock shows: whole seconds, which turn over, and the nanoseconds below one.
#[derive(Clone, Copy)]
pub struct SplitReading {
    seconds: u32,
    nanos: u32,
    ghost below: { nanos < one_second },
}

impl Reading for SplitReading {
    ghost turn = { split_turn };

    ghost count = { λ r. joined r.seconds r.nanos };

    ghost long = { lit< tt };

    // The sum of start and moment may pass 64 bits, and is not wrapped.
    fn at(start: u64, moment: u64) -> Self
        ensures seconds { result.seconds ≡ (start + moment) / one_second % 2 ^ 32 }
        ensures nanos { result.nanos ≡ (start + moment) % one_second }
        ensures whole { joined result.seconds result.nanos ≡ shown split_turn start moment }
    {
        let total = u128::from(start) + u128::from(moment);
        let second = u128::from(SECOND);
        SplitReading {
            seconds: (total / second % TURN) as u32,
            nanos: (total % second) as u32,
        }
    }

    // The parts below a second are subtracted with their sign, and a difference below 0 borrows a second.
    fn since(self, earlier: Self) -> u64 {
        let mut seconds = self.seconds.wrapping_sub(earlier.seconds);
        let mut nanos = self.nanos as i32 - earlier.nanos as i32;
        if nanos < 0 {
            seconds = seconds.wrapping_sub(1);
            nanos += SECOND as i32;
        }
        u64::from(seconds) * SECOND + nanos as u64
    }
}
