// An exchange's session: the layout that it is opened from, the eight calls that it takes, and the tickets that it hands
// out. It hands market data out to its seats in spaced batches, tags each trade with the last batch delivered to its seat
// and the time since, and releases the trades in the order of their tags.

#![tactic(auto)]

mod buffer;
mod layout;
mod post;
mod session;
mod state;
mod ticket;
mod times;

pub use layout::Layout;
pub use session::Session;
pub use ticket::Ticket;
