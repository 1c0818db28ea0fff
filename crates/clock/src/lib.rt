// Stop-clocks for sixteen seats: a seat is marked at one moment, and asked at another how long ago that was.
//
// Code that needs a clock is written over `StopClock`, whose contracts say all that a clock does. `OffsetClock` and
// `SplitClock` both do it, from readings that turn over, and keep no moment themselves.

#![tactic(auto)]

mod clock;
mod hand;
mod offset_reading;
mod reading;
mod split_reading;
mod stop_clock;
#[cfg(test)]
mod tests;

pub use clock::{Clock, OffsetClock, SplitClock};
pub use reading::Reading;
pub use stop_clock::{END, SEATS, StopClock};
