// What the seats' watermarks say together.
ghost use Rattle.std.specs.Prelude.{◌≡◌, ◌<◌, true, false, MatchOption};
ghost use Rattle.session.specs.Release.{Clear, Holds};
ghost use Rattle.session.specs.Settled.{AllTop, Says};

use super::State;
use records::Trade;

impl State {
    // Whether every seat's end was collected.
    pub fn all_ended(&self) -> bool
        ensures { Says result (AllTop self.now.seats.items) }
    {
        self.seats.iter().all(|seat| seat.watermark.is_top())
    }

    // A seat that holds a trade up: another one, whose watermark is not above the trade's tag.
    pub fn holder(&self, trade: &Trade) -> Option<usize>
        ensures { MatchOption result (Clear self.now.seats.items trade.now) (λ j. Holds self.now.seats.items trade.now j) }
    {
        // `find` over the places was tried, and got no proof.
        for (k, seat) in self.seats.iter().enumerate() {
            if k != trade.seat && !seat.watermark.above(&trade.tag) {
                return Some(k);
            }
        }
        None
    }
}
