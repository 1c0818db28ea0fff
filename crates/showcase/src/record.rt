// The record of the session: each call with its moment and its arguments, and its answer.
use order::Event;
use records::{Batch, Direction, Kind, Line, Offer, Refusal};
use std::io;

pub fn print(rt: &impl Print, events: &[Event]) -> io::Result<()> {
    println!(rt;
        "\nThe record: each call, and its answer\n\ncall  moment  what     member  arguments                answer"
    )?;
    for (number, event) in (1usize..).zip(events) {
        print!(rt; "{number:>4} ")?;
        print_call(rt, event)?;
        print_answer(rt, event)?;
    }
    Ok(())
}

// The call: its moment, its name, its member and its arguments. A release has no moment.
fn print_call(rt: &impl Print, event: &Event) -> io::Result<()> {
    match *event {
        Event::Point { at, value, .. } => print_point(rt, at, value),
        Event::Seal { at, .. } => print_seal(rt, at),
        Event::Deliver { at, seat, .. } => print_member_call(rt, at, "deliver", seat),
        Event::Submit {
            at,
            seat,
            offer,
            ..
        } => print_submit(rt, at, seat, &offer),
        Event::Beat { at, seat, .. } => print_member_call(rt, at, "beat", seat),
        Event::End { at, seat, .. } => print_member_call(rt, at, "end", seat),
        Event::Collect { at, seat, .. } => print_member_call(rt, at, "collect", seat),
        Event::Release { .. } => print!(rt; "      -  release       -                           "),
    }
}

fn print_point(rt: &impl Print, at: u64, value: u64) -> io::Result<()> {
    print!(rt; "{at:>7}  point         -  value {value:<17}  ")
}

fn print_seal(rt: &impl Print, at: u64) -> io::Result<()> {
    print!(rt; "{at:>7}  seal          -                           ")
}

fn print_submit(rt: &impl Print, at: u64, seat: usize, offer: &Offer) -> io::Result<()> {
    print!(rt;
        "{at:>7}  submit  {seat:>7}  tick {}: {:<4} {:>3} at {:>3}  ",
        offer.trigger, offer.side, offer.quantity, offer.price
    )
}

// A call of a member that takes nothing else.
fn print_member_call(rt: &impl Print, at: u64, name: &str, seat: usize) -> io::Result<()> {
    print!(rt; "{at:>7}  {name:<7} {seat:>7}                           ")
}

fn print_answer(rt: &impl Print, event: &Event) -> io::Result<()> {
    match *event {
        Event::Point {
            answer: Ok(number),
            ..
        } => println!(rt; "tick {number}"),
        Event::Seal {
            answer: Ok(number),
            ..
        } => println!(rt; "batch {number}"),
        Event::Deliver {
            answer: Ok(batch),
            ..
        } => print_batch(rt, &batch),
        Event::Submit {
            answer: Ok(serial),
            ..
        } => println!(rt; "serial {serial}"),
        Event::Beat { answer: Ok(()), .. } | Event::End { answer: Ok(()), .. } => {
            println!(rt; "sent")
        }
        Event::Collect {
            answer: Ok(kind),
            ..
        } => println!(rt; "{}", kind_name(kind)),
        Event::Release {
            answer: Ok(outcome),
        } => print_line(rt, &outcome.line),
        Event::Point {
            answer: Err(refusal),
            ..
        }
        | Event::Seal {
            answer: Err(refusal),
            ..
        }
        | Event::Deliver {
            answer: Err(refusal),
            ..
        }
        | Event::Submit {
            answer: Err(refusal),
            ..
        }
        | Event::Beat {
            answer: Err(refusal),
            ..
        }
        | Event::End {
            answer: Err(refusal),
            ..
        }
        | Event::Collect {
            answer: Err(refusal),
            ..
        }
        | Event::Release {
            answer: Err(refusal),
        } => print_refusal(rt, &refusal),
    }
}

fn print_batch(rt: &impl Print, batch: &Batch) -> io::Result<()> {
    println!(rt;
        "batch {}, ticks {} to {}",
        batch.number,
        batch.first,
        batch.last_point()
    )
}

fn print_line(rt: &impl Print, line: &Line) -> io::Result<()> {
    println!(rt;
        "place {}: member {}, serial {}",
        line.place, line.trade.seat, line.trade.serial
    )
}

// A refusal's number, what it names, and why.
fn print_refusal(rt: &impl Print, refusal: &Refusal) -> io::Result<()> {
    print!(rt; "refused {}", refusal.number())?;
    if let Some(seat) = refusal.seat() {
        print!(rt; ", member {seat}")?;
    }
    if let Some(direction) = refusal.hop() {
        print!(rt; ", {}", direction_name(direction))?;
    }
    if refusal.batch() > 0 {
        print!(rt; ", batch {}", refusal.batch())?;
    }
    println!(rt; ": {}", reason(refusal))
}

// The names and reasons are the program's own, which says member, tick and line where the library's `Display` says seat,
// point and link.
fn kind_name(kind: Kind) -> &'static str {
    match kind {
        Kind::Trade => "a trade",
        Kind::Beat => "a beat",
        Kind::End => "an end",
    }
}

fn direction_name(direction: Direction) -> &'static str {
    match direction {
        Direction::Forward => "line from exchange",
        Direction::Reverse => "line to exchange",
    }
}

fn reason(refusal: &Refusal) -> &'static str {
    match *refusal {
        Refusal::BadMoment { .. } => "the moment is past",
        Refusal::NoSeat { .. } => "no such member",
        Refusal::Ended { .. } => "the member has ended",
        Refusal::BatchFull => "the open batch is full",
        Refusal::PointsFull => "no more points",
        Refusal::BatchEmpty => "the open batch is empty",
        Refusal::SealedLately => "within the window of the last seal",
        Refusal::ForwardFull { .. } | Refusal::ReverseFull { .. } => "the line is full",
        Refusal::NoBatch { .. } => "no batch is waiting",
        Refusal::ServedLately { .. } => "within the horizon of the last delivery",
        Refusal::Bare { .. } => "nothing was delivered yet",
        Refusal::BadTrigger { .. } => "the tick was not delivered",
        Refusal::BadOrder { .. } => "bad price or quantity",
        Refusal::TradesSpent { .. } => "no more trades",
        Refusal::TooManyPending { .. } => "too many trades are pending",
        Refusal::NoMessage { .. } => "no message is waiting",
        Refusal::BufferEmpty => "no trade is waiting",
        Refusal::HeldUp { .. } => "this member holds the first trade up",
        Refusal::TapeFull => "the tape is full",
    }
}
