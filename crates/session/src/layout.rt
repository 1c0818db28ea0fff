ghost use Rattle.std.specs.Prelude.{◌≡◌, ◌≤◌, [], replicate, vec_len, vec_capacity};
ghost use Rattle.records.specs.Seat.{blank};
ghost use Rattle.session.specs.Opening.{most_seats};

use crate::buffer::Buffer;
use crate::times::Times;
use records::Seat;

mod calls;

// What a session is laid out with before it opens: its times and its seats. It has reserved all the memory that the session
// will ever need.
#[derive(Drop)]
pub struct Layout {
    times: Times,
    seats: Vec<Seat>,
    buffer: Buffer,
    ghost few: { vec_len seats ≤ most_seats },
    ghost reserved: { most_seats ≤ vec_capacity seats },
    // Nothing has happened yet.
    ghost untouched: { seats.items ≡ replicate (vec_len seats) blank },
    ghost empty: { buffer ≡ [] },
}
