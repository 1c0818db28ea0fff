// A price-time book. It holds resting orders on two sides, lets an incoming order meet the best of the other side,
// writes each fill into a list of the caller's, and keeps what is left at rest. It knows nothing of sessions.

#![tactic(auto)]

mod book;
mod fill;
mod matching;
mod order;
mod quote;
mod side;

pub use book::Book;
pub use fill::Fill;
pub use order::{Booked, Order, Party, Resting, Side};
