// Answers as values that compare. Refusals are told by number, as the rules name them.
use book::Booked;
use order::{Event, Outcome};
use records::{Batch, Direction, Kind, Line, Refusal};

#[derive(Clone, Copy, Debug, PartialEq, Eq)]
pub enum Answer {
    // The number of a point, a batch or a trade.
    Number(u32),
    // A batch with its number, first point and count.
    Given(u32, u32, u32),
    Sent,
    Lost,
    TookTrade,
    TookBeat,
    TookEnd,
    // Whether it is settled.
    Is(bool),
    // A line with its place, seat and serial.
    Released(u64, usize, u32),
    // What was dropped of a rejected trade, of which nothing else became.
    Dropped(u32),
    // A refusal with its number alone, with a seat, and with all.
    Refused(u32),
    RefusedAt(u32, usize),
    RefusedWith(u32, Option<usize>, Option<Direction>, u32),
}

// In the shortest form that says all.
fn refused(refusal: Refusal) -> Answer {
    match (refusal.seat(), refusal.hop(), refusal.batch()) {
        (None, None, 0) => Answer::Refused(refusal.number()),
        (Some(seat), None, 0) => Answer::RefusedAt(refusal.number(), seat),
        (seat, hop, batch) => Answer::RefusedWith(refusal.number(), seat, hop, batch),
    }
}

// What an answer says, or the refusal.
fn told<T, F: FnOnce(T) -> Answer>(answer: Result<T, Refusal>, says: F) -> Answer
    requires { F.IsAlwaysCallable says }
{
    match answer {
        Ok(value) => says(value),
        Err(refusal) => refused(refusal),
    }
}

fn given(batch: Batch) -> Answer {
    Answer::Given(batch.number, batch.first, batch.count)
}

fn taken(kind: Kind) -> Answer {
    match kind {
        Kind::Trade => Answer::TookTrade,
        Kind::Beat => Answer::TookBeat,
        Kind::End => Answer::TookEnd,
    }
}

fn placed(outcome: Outcome) -> Answer {
    let Line { place, trade } = outcome.line;
    Answer::Released(place, trade.seat, trade.serial)
}

// All is dropped, and nothing else became of it.
fn dropped(outcome: Outcome) -> Answer {
    match outcome.booked {
        Booked {
            filled: 0,
            rested: 0,
            dropped,
            fills: 0,
        } => Answer::Dropped(dropped),
        _ => Answer::Lost,
    }
}

pub fn released(answer: Result<Outcome, Refusal>) -> Answer {
    told(answer, placed)
}

pub fn rejected(answer: Result<Outcome, Refusal>) -> Answer {
    told(answer, dropped)
}

pub fn answer_of(event: Event) -> Answer {
    match event {
        Event::Point { answer, .. } | Event::Seal { answer, .. } | Event::Submit { answer, .. } =>
            told(answer, Answer::Number),
        Event::Deliver { answer, .. } => told(answer, given),
        Event::Beat { answer, .. } | Event::End { answer, .. } => told(answer, |()| Answer::Sent),
        Event::Collect { answer, .. } => told(answer, taken),
        Event::Release { answer } => released(answer),
    }
}
