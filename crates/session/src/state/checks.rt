// What the calls check first.
ghost use Rattle.std.specs.Prelude.{◌≡◌, length, if◌then◌else◌, Ok, Err, nat_le, slice_index_or};
ghost use Rattle.records.specs.declared.refusal.Refusal.TheVariants.{BadMoment, NoSeat};
ghost use Rattle.records.specs.Seat.{blank};
ghost use Rattle.session.specs.Checks.{untimely};

use super::State;
use network::END;
use records::{Refusal, Seat};

impl State {
    // Moments never go back.
    pub fn timely(&self, seat: Option<usize>, at: u64) -> Result<(), Refusal>
        ensures { result ≡ (if untimely self.now.last at then Err (BadMoment seat) else Ok tt) }
    {
        if at < self.last || at >= END {
            return Err(Refusal::BadMoment { seat });
        }
        Ok(())
    }

    // The record of a seat, if there is one.
    pub fn seat(&self, seat: usize) -> Result<Seat, Refusal>
        ensures { result ≡ (if nat_le (length self.now.seats.items) seat then Err (NoSeat seat) else Ok (slice_index_or self.now.seats.items seat blank)) }
    {
        self.seats
            .get(seat)
            .copied()
            .ok_or(Refusal::NoSeat { seat })
    }
}
