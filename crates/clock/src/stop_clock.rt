ghost use Rattle.std.specs.Prelude.{◌≡◌, ℕ};
ghost use Rattle.clock.specs.StopClock.{elapsed, fit, marked, unless_back};

// How many seats a clock has. This and `END` stand in `network` too, so that neither crate depends on the other.
pub const SEATS: usize = 16;

// The first count of nanoseconds that is no moment.
pub const END: u64 = 1 << 48;

// A clock means one moment for each seat: that of the seat's last mark, and 0 before the first.
pub trait StopClock {
    ghost meaning: { Self → ℕ → ℕ };

    // Sets the seat's moment. Where there is no such seat or moment, nothing changes.
    fn mark(&mut self, seat: usize, moment: u64)
        ensures { meaning self.new ≡ marked (meaning self.old) seat moment };

    // The time from the seat's moment to this one: 0 if this one is earlier, or there is no such seat or moment. By the rules
    // a clock refuses nothing, so the 0 is no `None`.
    fn since(&self, seat: usize, moment: u64) -> u64
        ensures { result ≡ elapsed (meaning self.now) seat moment };
}

// Whether there is such a seat and such a moment.
pub(crate) fn fits(seat: usize, moment: u64) -> bool
    ensures { result ≡ fit seat moment }
{
    seat < SEATS && moment < END
}

// What a clock answers where the reading at the mark is this far behind. No two moments are END apart, and a clock turns
// over only after more than twice that, so a greater distance means that the mark is the later.
pub(crate) fn forward(gone: u64) -> u64
    ensures { result ≡ unless_back gone }
{
    if gone < END { gone } else { 0 }
}
