// Calls and what else is done at a desk, written short. A moment comes first, then a seat. They are values and no closures,
// so that a test is a table.
use book::Side;
use records::{Message, Offer, Tag, Trade};

#[derive(Clone, Copy)]
pub enum Step {
    Point(u64),
    Seal(u64),
    Deliver(u64, usize),
    // A submit with trigger 1, price 10 and quantity 1.
    Submit(u64, usize),
    // A submit with its trigger, price and quantity.
    Offer(u64, usize, u64, u64, u64),
    Beat(u64, usize),
    End(u64, usize),
    Collect(u64, usize),
    Release,
    // A release whose ticket is rejected.
    Reject,
    // So many calls of a kind, of which the last is answered.
    Points(u64, u32),
    Submits(u64, usize, u32),
    Beats(u64, usize, u32),
    Collects(u64, usize, u32),
    Releases(u32),
    // Whether the session is settled.
    Settled,
    // A trade of a seat with a serial, which is sent on the link of the first seat past the session.
    StrayTrade(u64, usize, usize, u32),
    StrayBeat(u64, usize),
    StrayEnd(u64, usize),
}

pub fn buy(trigger: u64, price: u64, quantity: u64) -> Offer {
    Offer {
        trigger,
        side: Side::Buy,
        price,
        quantity,
    }
}

// The tag of what is sent at a moment by a seat that got batch 1 at 10.
fn tag_at(at: u64) -> Tag {
    Tag {
        batch: 1,
        elapsed: at.saturating_sub(10),
    }
}

pub fn stray_trade(at: u64, seat: usize, serial: u32) -> Message {
    Message::Trade(Trade {
        seat,
        serial,
        tag: tag_at(at),
        trigger: 1,
        side: Side::Buy,
        price: 1,
        quantity: 1,
    })
}

pub fn stray_beat(at: u64) -> Message {
    Message::Beat(tag_at(at))
}
