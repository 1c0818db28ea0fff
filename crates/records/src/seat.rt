ghost use Rattle.std.specs.Prelude.{◌≡◌, ◌+◌, ◌<◌, ◌&&◌, if◌then◌else◌, Ok, Err, nat_lt};
ghost use Rattle.records.specs.declared.refusal.Refusal.TheVariants.{ServedLately};
ghost use Rattle.records.specs.Checks.{checked};
ghost use Rattle.records.specs.Seat.{blank, collected_with, is_ended, is_next, is_served, released_once, served_as, submitted_once, turned};
ghost use Rattle.records.specs.Offer.{most_trades, offer_checks};

use crate::batch::Batch;
use crate::offer::Offer;
use crate::refusal::Refusal;
use crate::tag::{Tag, Watermark};
use crate::trade::Trade;

// Prices and quantities are 1 to these.
const MOST_PRICE: u64 = 1_000_000_000;

const MOST_QUANTITY: u64 = 1_000_000;

// A seat has so many trades in all, and so many that are not released.
const MOST_TRADES: u32 = 1_000_000;

const MOST_PENDING: u32 = 16;

// A seat is bare until its first delivery, then served, until it ends.
#[derive(Clone, Copy, Debug, PartialEq, Eq)]
pub enum Condition {
    Bare,
    Served,
    Ended,
}

// The calls that a seat takes or refuses by its condition. They are values: `turn` says what becomes of a seat, and runs
// nothing.
#[derive(Clone, Copy, Debug, PartialEq, Eq)]
pub enum SeatCall {
    Deliver,
    Submit,
    Beat,
    End,
}

// One member's record: the last batch and the last point delivered, how many of its trades were submitted, collected and
// released, and how far its messages are known. The batch and the point are no part of the condition: an ended seat keeps
// them, and a bare one's tag reads batch 0. The seat's number is its place in the session's table and no field, which would
// say it twice; so calls that name it in a refusal are given both.
#[derive(Clone, Copy, Debug, PartialEq, Eq)]
pub struct Seat {
    pub condition: Condition,
    pub batch: u32,
    pub point: u64,
    pub submitted: u32,
    pub collected: u32,
    pub released: u32,
    pub watermark: Watermark,
}

impl Seat {
    // A seat that was never named by a call.
    pub fn new() -> Seat
        ensures { result ≡ blank }
    {
        Seat {
            condition: Condition::Bare,
            batch: 0,
            point: 0,
            submitted: 0,
            collected: 0,
            released: 0,
            watermark: Watermark::At(Tag::default()),
        }
    }

    // The condition after a call, or why the call is refused.
    pub fn turn(&self, seat: usize, call: SeatCall) -> Result<Condition, Refusal>
        ensures { result ≡ turned self.now.condition call seat }
    {
        match (self.condition, call) {
            (Condition::Ended, _) => Err(Refusal::Ended { seat }),
            (Condition::Bare, SeatCall::Submit) => Err(Refusal::Bare { seat }),
            (Condition::Bare | Condition::Served, SeatCall::Deliver) => Ok(Condition::Served),
            (Condition::Served, SeatCall::Submit) => Ok(Condition::Served),
            (condition, SeatCall::Beat) => Ok(condition),
            (Condition::Bare | Condition::Served, SeatCall::End) => Ok(Condition::Ended),
        }
    }

    // Whether the seat has ended.
    pub fn ended(&self) -> bool
        ensures { result ≡ is_ended self.now.condition }
    {
        self.condition == Condition::Ended
    }

    // Whether a served seat takes an offer.
    pub fn check(&self, seat: usize, offer: &Offer) -> Result<(), Refusal>
        ensures { result ≡ checked (offer_checks self.now seat offer.now) }
    {
        if offer.trigger == 0 || offer.trigger > self.point {
            return Err(Refusal::BadTrigger { seat });
        }
        if offer.price == 0
            || offer.price > MOST_PRICE
            || offer.quantity == 0
            || offer.quantity > MOST_QUANTITY
        {
            return Err(Refusal::BadOrder { seat });
        }
        if self.submitted >= MOST_TRADES {
            return Err(Refusal::TradesSpent { seat });
        }
        if self.submitted.saturating_sub(self.released) >= MOST_PENDING {
            return Err(Refusal::TooManyPending { seat });
        }
        Ok(())
    }

    // Whether a trade is the next one of this seat to be collected. Any other is stray.
    pub fn expects(&self, seat: usize, trade: &Trade) -> bool
        ensures { result ≡ is_next self.now seat trade.now }
    {
        trade.seat == seat && self.collected < self.submitted && trade.serial == self.collected + 1
    }

    // Whether so long after its last delivery the seat may be served again.
    pub fn check_pace(&self, seat: usize, since: u64, horizon: u64) -> Result<(), Refusal>
        ensures { result ≡ (if is_served self.now.condition && nat_lt since horizon then Err (ServedLately seat self.now.batch) else Ok tt) }
    {
        match self.condition {
            Condition::Served if since < horizon => Err(Refusal::ServedLately {
                seat,
                batch: self.batch,
            }),
            _ => Ok(()),
        }
    }

    // The seat's tag so long after its last delivery.
    pub fn tag(&self, elapsed: u64) -> Tag
        ensures { result ≡ record { batch = self.now.batch; elapsed = elapsed } }
    {
        let batch = self.batch;
        Tag { batch, elapsed }
    }

    // A batch is delivered: the seat is in this condition now, and knows the batch and its last point.
    pub fn serve(&mut self, condition: Condition, batch: &Batch)
        ensures { self.new ≡ served_as condition batch.now self.old }
    {
        self.condition = condition;
        self.batch = batch.number;
        self.point = batch.last_point();
    }

    // A trade is submitted. Its serial.
    pub fn count_submitted(&mut self) -> u32
        requires { self.old.submitted < most_trades }
        ensures serial { result ≡ self.old.submitted + 1 }
        ensures after { self.new ≡ submitted_once self.old }
    {
        self.submitted += 1;
        self.submitted
    }

    // A message is collected: so many trades are by now, and so far the seat is known.
    pub fn note_collected(&mut self, collected: u32, watermark: Watermark)
        ensures { self.new ≡ collected_with collected watermark self.old }
    {
        self.collected = collected;
        self.watermark = watermark;
    }

    // A trade is released.
    pub fn count_released(&mut self)
        requires { self.old.released < most_trades }
        ensures { self.new ≡ released_once self.old }
    {
        self.released += 1;
    }
}
