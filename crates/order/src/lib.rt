// Calls of a session as values, runs of them, the law that holds of every run, and `play`, the call that it stands on.

#![tactic(auto)]

mod acting;
mod call;
mod event;
mod performing;
mod playing;
mod venue;

pub use acting::act;
pub use call::Call;
pub use event::{Event, Outcome};
pub use performing::perform;
pub use playing::{Played, play};
pub use venue::Venue;
