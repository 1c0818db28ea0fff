// What the calls are played over: a network in each direction, the members' clocks, the lists that are lent and the book.
use crate::members::{GAP, HOP, each};
use book::{Book, Fill};
use clock::SplitClock;
use lines::Lines;
use network::{Fixed, Hop, Poll, Slot};
use order::{Call, Played, Venue};
use records::Line;
use session::Layout;
use std::alloc::{AllocError, Global};

// The room of the lists. Each of a network's sixteen links has an equal part of its places.
const PLACES: usize = 128;

const POINTS: usize = 16;

const TAPE: usize = 32;

pub const FILLS: usize = 32;

// Opens the layout and makes the calls. Every line has a hop, and the exchange polls the lines to it.
pub fn play(
    heap: Global,
    layout: Layout,
    fills: &mut Lines<Fill>,
    calls: &[Call],
) -> Result<Played, AllocError> {
    let mut batches = [Slot::default(); PLACES];
    let mut messages = [Slot::default(); PLACES];
    let mut forward = Hop::new(Fixed::new(&mut batches, each(|member| member.forward)), HOP);
    let mut reverse = Poll::new(
        Hop::new(
            Fixed::new(&mut messages, each(|member| member.reverse)),
            HOP,
        ),
        GAP,
    );
    let mut clock = SplitClock::new(each(|member| member.start));
    let mut book = Book::new(heap)?;
    let mut points = [0; POINTS];
    let mut tape = [Line::default(); TAPE];
    let mut venue = Venue {
        forward: &mut forward,
        reverse: &mut reverse,
        clock: &mut clock,
        book: &mut book,
    };
    order::play(
        heap,
        layout,
        &mut venue,
        &mut Lines::new(&mut points),
        &mut Lines::new(&mut tape),
        fills,
        calls,
    )
}
