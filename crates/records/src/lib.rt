// The plain records of a session and the rules that each keeps by itself: tags and watermarks, trades and their rank,
// messages, batches, a seat's record, how far the market data has come, and why a call is refused.

#![tactic(auto)]

mod batch;
mod flaw;
mod line;
mod market;
mod message;
mod offer;
mod refusal;
mod seat;
mod tag;
mod trade;

pub use batch::Batch;
pub use flaw::Flaw;
pub use line::Line;
pub use market::Market;
pub use message::{Kind, Message};
pub use offer::Offer;
pub use refusal::{Direction, Refusal};
pub use seat::{Condition, Seat, SeatCall};
pub use tag::{Tag, Watermark};
pub use trade::{DeliveryKey, Trade};
