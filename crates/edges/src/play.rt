// Tickets that are rejected, and calls that are played from a list, with tickets that are booked.
use crate::answer::Answer::*;
use crate::answer::{Answer, answer_of};
use crate::desk::run;
use crate::step::Step::*;
use crate::step::buy;
use book::{Book, Booked, Fill, Side};
use clock::{OffsetClock, SEATS};
use lines::Lines;
use network::{Fixed, LINKS, Slot};
use order::{Call, Event, Played, Venue, play};
use records::{Line, Offer};
use session::Layout;
use std::alloc::Global;
use std::process::Abort;
use std::test::Fail;

#[test]
fn a_rejected_ticket_drops_all(rt: HostRuntime) -> Result<(), Fail> {
    run(
        &rt,
        rt.alloc(),
        1,
        &[
            (Point(0), Number(1)),
            (Seal(0), Number(1)),
            (Deliver(5, 0), Given(1, 1, 1)),
            (Offer(5, 0, 1, 10, 7), Number(1)),
            (Submit(5, 0), Number(2)),
            (Collect(10, 0), TookTrade),
            (Collect(10, 0), TookTrade),
            (Reject, Dropped(7)),
            (Release, Released(2, 0, 2)),
            (Reject, Refused(60)),
        ],
    )
}

// That events are these calls in turn, with these answers.
fn tell(rt: &impl Abort, events: &[Event], rows: &[(Call, Answer)]) {
    assert_eq!(rt; events.len(), rows.len());
    for (event, row) in events.iter().zip(rows) {
        assert_eq!(rt; (event.call(), answer_of(*event)), *row);
    }
}

// What the last released trade was booked as.
fn last_booked(events: &[Event]) -> Option<Booked> {
    events
        .iter()
        .filter_map(|event| match *event {
            Event::Release {
                answer: Ok(outcome),
            } => Some(outcome.booked),
            _ => None,
        })
        .last()
}

// Plays calls with two seats.
fn play_two(
    heap: Global,
    points: &mut [u64],
    tape: &mut [Line],
    fills: &mut [Fill],
    calls: &[Call],
) -> Result<Played, Fail> {
    let mut layout = Layout::new(heap)?;
    let _ = layout.add_seat();
    let _ = layout.add_seat();
    let mut book = Book::new(heap)?;
    let mut batches = [Slot::default(); 16];
    let mut messages = [Slot::default(); 32];
    let mut forward = Fixed::new(&mut batches, [5; LINKS]);
    let mut reverse = Fixed::new(&mut messages, [5; LINKS]);
    let mut clock = OffsetClock::new([7; SEATS]);
    let mut points = Lines::new(points);
    let mut tape = Lines::new(tape);
    let mut fills = Lines::new(fills);
    let mut venue = Venue {
        forward: &mut forward,
        reverse: &mut reverse,
        clock: &mut clock,
        book: &mut book,
    };
    Ok(play(
        heap,
        layout,
        &mut venue,
        &mut points,
        &mut tape,
        &mut fills,
        calls,
    )?)
}

#[test]
fn calls_are_played_in_turn(rt: HostRuntime) -> Result<(), Fail> {
    let sell = Offer {
        side: Side::Sell,
        ..buy(1, 9, 8)
    };
    let rows = [
        (Call::Point { at: 0, value: 77 }, Number(1)),
        (Call::Seal { at: 0 }, Number(1)),
        (Call::Deliver { at: 5, seat: 0 }, Given(1, 1, 1)),
        (Call::Deliver { at: 5, seat: 1 }, Given(1, 1, 1)),
        (Call::Deliver { at: 5, seat: 2 }, RefusedAt(11, 2)),
        (
            Call::Submit {
                at: 6,
                seat: 0,
                offer: buy(1, 10, 5),
            },
            Number(1),
        ),
        (
            Call::Submit {
                at: 7,
                seat: 1,
                offer: sell,
            },
            Number(1),
        ),
        (Call::Beat { at: 7, seat: 0 }, Sent),
        (Call::Collect { at: 12, seat: 0 }, TookTrade),
        (Call::Collect { at: 12, seat: 0 }, TookBeat),
        (Call::End { at: 12, seat: 0 }, Sent),
        (Call::End { at: 12, seat: 1 }, Sent),
        (Call::Collect { at: 17, seat: 0 }, TookEnd),
        (Call::Collect { at: 17, seat: 1 }, TookTrade),
        (Call::Collect { at: 17, seat: 1 }, TookEnd),
        (Call::Release, Released(1, 0, 1)),
        (Call::Release, Released(2, 1, 1)),
        (Call::Release, Refused(60)),
    ];
    let calls = rows.map(|row| row.0);
    let mut points = [0; 2];
    let mut tape = [Line::default(); 2];
    let mut fills = [Fill::default(); 1];
    let played = play_two(rt.alloc(), &mut points, &mut tape, &mut fills, &calls)?;
    assert!(rt; played.session.settled());
    tell(&rt, &played.events, &rows);
    let booked = Booked {
        filled: 5,
        rested: 3,
        dropped: 0,
        fills: 1,
    };
    assert_eq!(rt; last_booked(&played.events), Some(booked));
    assert_eq!(rt; points, [77, 0]);
    let [first, second] = tape;
    assert_eq!(rt;
        (
            first.place,
            first.trade.seat,
            second.place,
            second.trade.seat,
        ),
        (1, 0, 2, 1)
    );
    let [fill] = fills;
    assert_eq!(rt;
        (fill.price, fill.quantity, fill.buyer.seat, fill.seller.seat),
        (10, 5, 0, 1)
    );
    Ok(())
}
