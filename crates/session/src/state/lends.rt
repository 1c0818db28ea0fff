ghost use Rattle.std.specs.Prelude.{◌≡◌, ◌<◌, vec_len, slice_index_or};
ghost use Rattle.std.specs.Borrow.{follows, sem};
ghost use Rattle.records.specs.contracts.seat.Seat.{the_row as seat_row};
ghost use Rattle.records.specs.Seat.{blank};
ghost use Rattle.session.specs.contracts.state.State.{the_row};
ghost use Rattle.session.specs.Lending.{with_seat};

use super::State;
use records::Seat;

impl State {
    // Lends the record of one seat: nothing else of the session changes through it.
    pub fn seat_mut(&mut self, seat: usize) -> &mut Seat
        requires { seat < vec_len self.old.seats }
        ensures* follows { sem 𝓛 (follows the_row seat_row self.entry.ghost_name result.ghost_name (with_seat self.old seat)) }
        ensures value { result.now ≡ slice_index_or self.old.seats.items seat blank }
    {
        &mut self.seats[seat]
    }
}
