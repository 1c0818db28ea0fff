ghost use Rattle.std.specs.Prelude.{◌≡◌, ℕ};
ghost use Rattle.network.specs.Layer.{Before, Moves, layered};

use crate::network::{END, Network};

// A way of moving arrivals on: in their order, by so much at most, and never past `END`.
pub trait Shift {
    ghost moves: { Self → ℕ → ℕ };

    ghost most: { Self → ℕ };

    // By how much an arrival is moved at most.
    fn most(&self) -> u32
        ensures { result ≡ most self.now };

    // By when a record has to arrive below to arrive above by `moment`, or `None` where none can.
    fn before(&self, moment: u64) -> Option<u64>
        ensures { Before (moves self.now) moment result };

    ghost ordered: { (s : Self) → Moves (moves s) (most s) };
}

// A network whose arrivals are those of the one below, moved on.
#[derive(Drop)]
pub struct Layer<N, S> {
    below: N,
    shift: S,
}

impl<N, S> Layer<N, S> {
    pub(crate) fn over(below: N, shift: S) -> Layer<N, S>
        ensures { (result.below ≡ below) × (result.shift ≡ shift) }
    {
        Layer { below, shift }
    }
}

// Each call asks below, and is proved by the lemma that says what moving arrivals on keeps of that call.
impl<R, N: Network<R>, S: Shift> Network<R> for Layer<N, S> {
    ghost meaning = { λ l. layered (S.Shift.moves l.shift) (S.Shift.most l.shift) (N.Network.meaning l.below) };

    fn capacity(&self) -> usize {
        self.below.capacity()
    }

    fn longest_delay(&self) -> u64 {
        (self.below.longest_delay() + u64::from(self.shift.most())).min(END)
    }

    #[tactic(auto, using(crate::specs::Moves::room_moved))]
    fn room(&self, link: usize) -> bool {
        self.below.room(link)
    }

    #[tactic(auto, using(crate::specs::Moves::sends_moved))]
    fn send(&mut self, link: usize, moment: u64, item: R) -> Result<(), R> {
        self.below.send(link, moment, item)
    }

    #[tactic(auto, using(crate::specs::Moves::arrived_moved, crate::specs::Moves::none_arrived))]
    fn waiting(&self, link: usize, moment: u64) -> bool {
        match self.shift.before(moment) {
            Some(earlier) => self.below.waiting(link, earlier),
            None => false,
        }
    }

    #[tactic(auto, using(crate::specs::Moves::takes_moved, crate::specs::Moves::none_taken))]
    fn take(&mut self, link: usize, moment: u64) -> Option<R> {
        let earlier = self.shift.before(moment)?;
        self.below.take(link, earlier)
    }
}
