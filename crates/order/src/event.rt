ghost use Rattle.std.specs.Prelude.{◌≡◌};
ghost use Rattle.order.specs.Run.{call_of};

use crate::call::Call;
use book::Booked;
use records::{Batch, Kind, Line, Offer, Refusal};

// What became of a trade that was released: its line on the tape, and what the book made of it.
#[derive(Clone, Copy, Debug, PartialEq, Eq)]
pub struct Outcome {
    pub line: Line,
    pub booked: Booked,
}

// A call that was made, with its answer.
#[derive(Clone, Copy, Debug, PartialEq, Eq)]
pub enum Event {
    Point {
        at: u64,
        value: u64,
        answer: Result<u32, Refusal>,
    },
    Seal {
        at: u64,
        answer: Result<u32, Refusal>,
    },
    Deliver {
        at: u64,
        seat: usize,
        answer: Result<Batch, Refusal>,
    },
    Submit {
        at: u64,
        seat: usize,
        offer: Offer,
        answer: Result<u32, Refusal>,
    },
    Beat {
        at: u64,
        seat: usize,
        answer: Result<(), Refusal>,
    },
    End {
        at: u64,
        seat: usize,
        answer: Result<(), Refusal>,
    },
    Collect {
        at: u64,
        seat: usize,
        answer: Result<Kind, Refusal>,
    },
    Release {
        answer: Result<Outcome, Refusal>,
    },
}

impl Event {
    // The call that was made.
    pub fn call(&self) -> Call
        ensures { result ≡ call_of self.now }
    {
        match *self {
            Event::Point { at, value, .. } => Call::Point { at, value },
            Event::Seal { at, .. } => Call::Seal { at },
            Event::Deliver { at, seat, .. } => Call::Deliver { at, seat },
            Event::Submit {
                at,
                seat,
                offer,
                ..
            } => Call::Submit { at, seat, offer },
            Event::Beat { at, seat, .. } => Call::Beat { at, seat },
            Event::End { at, seat, .. } => Call::End { at, seat },
            Event::Collect { at, seat, .. } => Call::Collect { at, seat },
            Event::Release { .. } => Call::Release,
        }
    }
}
