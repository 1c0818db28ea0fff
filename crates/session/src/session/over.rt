ghost use Rattle.std.specs.Prelude.{◌≡◌, ℕ, ◌≤◌, [], replicate};
ghost use Rattle.records.specs.Market.{no_points};
ghost use Rattle.records.specs.Seat.{blank};
ghost use Rattle.session.specs.Opening.{most_seats};

use super::Session;
use crate::state::State;

impl Session {
    // A session in which nothing has happened.
    pub(crate) fn over(state: State) -> Session
        requires seats { (n : ℕ) × (n ≤ most_seats) × (state.seats.items ≡ replicate n blank) }
        requires buffer { state.buffer ≡ [] }
        requires market { state.market ≡ no_points }
        ensures { result.state ≡ state }
    {
        Session { state }
    }
}
