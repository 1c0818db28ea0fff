ghost use Rattle.std.specs.Prelude.{◌≡◌, ◌-◌, ◌<◌, ⊤};
ghost use Rattle.clock.specs.StopClock.{limit};
ghost use Rattle.clock.specs.Turns.{moment_of};

use crate::reading::Reading;
use crate::stop_clock::forward;
use std::alloc::AllocError;

// One seat's clock: its start, and what it showed at its mark.
pub(crate) struct Hand<R: Reading> {
    start: u64,
    reading: R,
    // Its count is less than a turn.
    ghost below: { R.count reading < R.turn },
    // The reading stands for a moment.
    ghost early: { moment_of R.turn start (R.count reading) < limit },
}

#[tactic(auto, using(crate::proofs::Turns::gone_since, crate::proofs::Turns::moment_of_shown))]
impl<R: Reading> Hand<R> {
    ghost use Rattle.clock.specs.Hands.{hand_moment};

    // A hand that is not marked yet shows what it does at moment 0.
    pub(crate) fn new(start: u64) -> Self
        ensures start { result.start ≡ start }
        ensures moment { hand_moment result ≡ 0 }
    {
        Hand {
            start,
            reading: R::at(start, 0),
        }
    }

    pub(crate) fn mark(&mut self, moment: u64)
        requires { moment < limit }
        ensures start { self.new.start ≡ self.old.start }
        ensures moment { hand_moment self.new ≡ moment }
    {
        self.reading = R::at(self.start, moment);
    }

    // The time from the mark to a moment, or 0 if the moment is earlier.
    pub(crate) fn since(&self, moment: u64) -> u64
        requires { moment < limit }
        ensures { result ≡ moment - hand_moment self.now }
    {
        forward(R::at(self.start, moment).since(self.reading))
    }
}

// Written by hand: `derive(Clone, Copy)` was tried, and is refused for a struct with a ghost field and a type parameter.
impl<R: Reading> Clone for Hand<R> {
    ghost is_clone = { λ x y. y ≡ x };

    ghost is_infallible = { λ _. ⊤ };

    fn clone(&self) -> Result<Self, AllocError> {
        Ok(*self)
    }
}

impl<R: Reading> Copy for Hand<R> {}
