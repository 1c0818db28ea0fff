use crate::buffer::Buffer;
use crate::times::Times;
use records::{Market, Seat};

mod checks;
mod deal;
mod lends;
mod watch;

// All that an open session is made of. The seats stand in one table, from which one record is lent at a time.
#[derive(Drop)]
pub struct State {
    pub times: Times,
    pub last: u64,
    pub market: Market,
    pub seats: Vec<Seat>,
    pub buffer: Buffer,
}
