ghost use Rattle.std.specs.Prelude.{◌≡◌, ⊤};
ghost use Rattle.clock.specs.Hands.{moments, starts_of};
ghost use Rattle.clock.specs.StopClock.{marked, unmarked};

use crate::hand::Hand;
use crate::offset_reading::OffsetReading;
use crate::reading::Reading;
use crate::split_reading::SplitReading;
use crate::stop_clock::{SEATS, StopClock, fits};
use std::alloc::AllocError;

// A clock of any kind of reading: one hand for each seat.
pub struct Clock<R: Reading> {
    hands: [Hand<R>; SEATS],
}

// Each seat's clock shows nanoseconds, and turns over after 2^64 of them.
pub type OffsetClock = Clock<OffsetReading>;

// Each seat's clock shows seconds, which turn over after 2^32, and nanoseconds.
pub type SplitClock = Clock<SplitReading>;

impl<R: Reading> Clock<R> {
    // A clock with these starts, and no seat marked yet.
    pub fn new(starts: [u64; SEATS]) -> Self
        ensures meaning { ⟦<Clock<R> as StopClock>⟧.meaning result ≡ unmarked }
        ensures starts { starts_of result.hands ≡ starts }
    {
        // `map(Hand::new)` gets no proof yet, since what that function returns names a type parameter.
        Clock {
            hands: starts.map(|start| Hand::new(start)),
        }
    }
}

impl<R: Reading> StopClock for Clock<R> {
    ghost meaning = { λ c. moments c.hands };

    #[tactic(auto, using(crate::proofs::Hands::read_after_set, crate::proofs::Hands::same_after_set))]
    fn mark(&mut self, seat: usize, moment: u64)
        ensures meaning { moments self.new.hands ≡ marked (moments self.old.hands) seat moment }
        ensures starts { starts_of self.new.hands ≡ starts_of self.old.hands }
    {
        if fits(seat, moment) {
            self.hands[seat].mark(moment);
        }
    }

    fn since(&self, seat: usize, moment: u64) -> u64 {
        if fits(seat, moment) {
            self.hands[seat].since(moment)
        } else {
            0
        }
    }
}

// Written by hand: derived, `search` did not prove that it cannot fail, which would rest on the size of a list of hands, and
// so of any reading.
impl<R: Reading> Clone for Clock<R> {
    ghost is_clone = { λ x y. y ≡ x };

    ghost is_infallible = { λ _. ⊤ };

    fn clone(&self) -> Result<Self, AllocError> {
        Ok(*self)
    }
}

impl<R: Reading> Copy for Clock<R> {}
