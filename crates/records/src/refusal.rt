ghost use Rattle.std.specs.Prelude.{◌≡◌};
ghost use Rattle.records.specs.Refusal.{spelled};

use std::error::Error;
use std::fmt;

// Which of the two networks a refusal is about.
#[derive(Clone, Copy, Debug, PartialEq, Eq)]
pub enum Direction {
    Forward,
    Reverse,
}

// Why a call was refused.
#[derive(Clone, Copy, Debug, PartialEq, Eq)]
pub enum Refusal {
    // The moment is before that of the last accepted call, or is none. The seat is the one given, if any.
    BadMoment { seat: Option<usize> },
    // There is no such seat.
    NoSeat { seat: usize },
    // The seat has ended.
    Ended { seat: usize },
    // The open batch is full.
    BatchFull,
    // The point list is full, or there are as many points as there may be.
    PointsFull,
    // The open batch is empty.
    BatchEmpty,
    // Less than the window has passed since the last seal.
    SealedLately,
    // The lowest seat that the batch is due to and whose forward link has no room.
    ForwardFull { seat: usize, batch: u32 },
    // No batch is waiting for the seat.
    NoBatch { seat: usize, batch: u32 },
    // Less than the horizon has passed since the seat's last delivery.
    ServedLately { seat: usize, batch: u32 },
    // The seat had no delivery yet.
    Bare { seat: usize },
    // The trigger is no point that was delivered to the seat.
    BadTrigger { seat: usize },
    // The price or the quantity is out of range.
    BadOrder { seat: usize },
    // The seat has had all the trades that it may have.
    TradesSpent { seat: usize },
    // As many of the seat's trades as may be are not released.
    TooManyPending { seat: usize },
    // The seat's reverse link has no room.
    ReverseFull { seat: usize },
    // No message of the seat is waiting.
    NoMessage { seat: usize },
    // The buffer is empty.
    BufferEmpty,
    // A seat that holds the buffer's first trade up, and the trade's batch.
    HeldUp { seat: usize, batch: u32 },
    // The tape has no free line.
    TapeFull,
}

impl Refusal {
    // The refusal's number, which the rules give each.
    pub fn number(&self) -> u32
        ensures { result ≡ (spelled self.now).number }
    {
        match *self {
            Refusal::BadMoment { .. } => 10,
            Refusal::NoSeat { .. } => 11,
            Refusal::Ended { .. } => 12,
            Refusal::BatchFull => 20,
            Refusal::PointsFull => 21,
            Refusal::BatchEmpty => 22,
            Refusal::SealedLately => 23,
            Refusal::ForwardFull { .. } => 24,
            Refusal::NoBatch { .. } => 30,
            Refusal::ServedLately { .. } => 31,
            Refusal::Bare { .. } => 40,
            Refusal::BadTrigger { .. } => 41,
            Refusal::BadOrder { .. } => 42,
            Refusal::TradesSpent { .. } => 43,
            Refusal::TooManyPending { .. } => 44,
            Refusal::ReverseFull { .. } => 45,
            Refusal::NoMessage { .. } => 50,
            Refusal::BufferEmpty => 60,
            Refusal::HeldUp { .. } => 61,
            Refusal::TapeFull => 62,
        }
    }

    // The seat that it names, if any.
    pub fn seat(&self) -> Option<usize>
        ensures { result ≡ (spelled self.now).seat }
    {
        match *self {
            Refusal::BadMoment { seat } => seat,
            Refusal::NoSeat { seat }
            | Refusal::Ended { seat }
            | Refusal::ForwardFull { seat, .. }
            | Refusal::NoBatch { seat, .. }
            | Refusal::ServedLately { seat, .. }
            | Refusal::Bare { seat }
            | Refusal::BadTrigger { seat }
            | Refusal::BadOrder { seat }
            | Refusal::TradesSpent { seat }
            | Refusal::TooManyPending { seat }
            | Refusal::ReverseFull { seat }
            | Refusal::NoMessage { seat }
            | Refusal::HeldUp { seat, .. } => Some(seat),
            Refusal::BatchFull
            | Refusal::PointsFull
            | Refusal::BatchEmpty
            | Refusal::SealedLately
            | Refusal::BufferEmpty
            | Refusal::TapeFull => None,
        }
    }

    // The network that it is about, if any.
    pub fn hop(&self) -> Option<Direction>
        ensures { result ≡ (spelled self.now).hop }
    {
        match *self {
            Refusal::ForwardFull { .. } | Refusal::NoBatch { .. } => Some(Direction::Forward),
            Refusal::ReverseFull { .. } | Refusal::NoMessage { .. } => Some(Direction::Reverse),
            _ => None,
        }
    }

    // The batch that it names, or 0. By the rules it is a number, as a seat without a delivery names batch 0 too.
    pub fn batch(&self) -> u32
        ensures { result ≡ (spelled self.now).batch }
    {
        match *self {
            Refusal::ForwardFull { batch, .. }
            | Refusal::NoBatch { batch, .. }
            | Refusal::ServedLately { batch, .. }
            | Refusal::HeldUp { batch, .. } => batch,
            _ => 0,
        }
    }
}

// The reason alone: the seat and the batch are asked for by `seat` and `batch`.
impl fmt::Display for Refusal {
    ghost use Rattle.std.specs.Prelude.{Some};
    ghost use Rattle.records.specs.Refusal.{reason};

    ghost output = { λ refusal. Some (reason refusal) };

    fn fmt<W: fmt::Write>(&self, f: &mut fmt::Formatter<W>) -> fmt::Result {
        f.pad(match *self {
            Refusal::BadMoment { .. } =>
                "the moment is before that of the last accepted call, or is none",
            Refusal::NoSeat { .. } => "there is no such seat",
            Refusal::Ended { .. } => "the seat has ended",
            Refusal::BatchFull => "the open batch is full",
            Refusal::PointsFull => "there is no room for another point",
            Refusal::BatchEmpty => "the open batch is empty",
            Refusal::SealedLately => "less than the window has passed since the last seal",
            Refusal::ForwardFull { .. } => "the seat's forward link has no room",
            Refusal::NoBatch { .. } => "no batch is waiting for the seat",
            Refusal::ServedLately { .. } =>
                "less than the horizon has passed since the seat's last delivery",
            Refusal::Bare { .. } => "the seat had no delivery yet",
            Refusal::BadTrigger { .. } => "the trigger is no point that was delivered to the seat",
            Refusal::BadOrder { .. } => "the price or the quantity is out of range",
            Refusal::TradesSpent { .. } => "the seat has had all the trades that it may have",
            Refusal::TooManyPending { .. } =>
                "as many of the seat's trades as may be are not released",
            Refusal::ReverseFull { .. } => "the seat's reverse link has no room",
            Refusal::NoMessage { .. } => "no message of the seat is waiting",
            Refusal::BufferEmpty => "the buffer is empty",
            Refusal::HeldUp { .. } => "the seat holds the buffer's first trade up",
            Refusal::TapeFull => "the tape has no free line",
        })
    }
}

impl Error for Refusal {}
