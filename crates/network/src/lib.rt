// Networks that carry records to sixteen links: what a network means, two that keep their records in a list of the
// caller's, and two layers that stand over any network.

#![tactic(auto)]

mod delays;
mod fixed;
mod hop;
mod layer;
mod network;
mod part;
mod poll;
mod ring;
mod rings;
#[cfg(test)]
mod tests;
mod trace;

pub use delays::{Delays, Recording};
pub use fixed::Fixed;
pub use hop::{Hop, Later};
pub use layer::{Layer, Shift};
pub use network::{END, LINKS, Network};
pub use poll::{Poll, RoundUp};
pub use rings::{Rings, Slot};
pub use trace::Trace;
