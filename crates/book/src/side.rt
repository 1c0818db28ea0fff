// One side of the book: its resting orders, what is asked of them, and one fill with the first.
ghost use Rattle.std.specs.Prelude.{◌≡◌, ◌<◌, ◌++◌, length, IfOk};
ghost use Rattle.std.specs.List.Sorted.{IsPermutation};
ghost use Rattle.heap.specs.Calls.{Adds, Fresh};
ghost use Rattle.heap.specs.Heaps.{Upto};
ghost use Rattle.book.specs.Book.{room};
ghost use Rattle.book.specs.Side.{Best, Keeps, MeetsBest, any_crosses, left_over};

use crate::fill::{Fill, fill_of};
use crate::order::{Order, Resting};
use crate::quote::Quote;
use heap::Heap;
use std::alloc::{AllocError, Global};
use std::marker::Model;

// How many resting orders a side holds at most.
const ROOM: usize = 256;

// The resting orders of a side, by rank.
#[derive(Drop)]
pub(crate) struct Quotes<S: Quote> {
    heap: Heap<S>,
}

// Contracts see what the heap holds, the first quote at the front. The quotes always stand by rank, and there is room for so
// many as a side may hold.
impl<S: Quote> Model for Quotes<S> {
    ghost use Rattle.std.specs.Prelude.{◌≡◌};
    ghost use Rattle.heap.specs.Contents.{Contents};
    ghost use Rattle.book.specs.Book.{room};
    ghost use Rattle.book.specs.Side.{Stood};

    ghost Value = { Contents S };

    ghost view = { λ q. q.heap };

    ghost invariant = { λ q. (q.heap.bound ≡ room) × Stood S.Ranked.key S.Ranked.upto q.heap.items };
}

impl<S: Quote> Quotes<S> {
    // A side on which nothing rests, with all the memory that it will ever need.
    pub(crate) fn new(heap: Global) -> Result<Quotes<S>, AllocError>
        ensures { IfOk result (λ q. Fresh (Upto S.Ranked.key S.Ranked.upto) room q) }
    {
        let heap = Heap::with_room(heap, ROOM)?;
        Ok(Quotes { heap })
    }

    // The first order.
    pub(crate) fn best(&self) -> Option<Resting>
        ensures { Best S.Quote.kind self.now.items result }
    {
        Some(self.heap.peek()?.order())
    }

    // Whether some order crosses a price: the first does, or none.
    pub(crate) fn crossed(&self, price: u32) -> bool
        ensures { result ≡ any_crosses S.Quote.kind price self.now.items }
    {
        match self.heap.peek() {
            Some(first) => first.crosses(price),
            None => false,
        }
    }
}

impl<S: Quote + Drop> Quotes<S> {
    // Takes a quote in, or hands it back where the side holds as many as it may.
    pub(crate) fn add(&mut self, quote: S) -> Result<(), S>
        ensures added { Adds self.old quote result self.new }
        ensures room { self.old.bound ≡ room }
        ensures kept { Keeps S.Ranked.key S.Ranked.upto self.old self.new }
    {
        self.heap.add(quote)
    }

    // Puts back what is left of a resting order once `taken` of it is gone.
    fn put_back(&mut self, resting: Resting, taken: u32)
        requires { length self.old.items < room }
        ensures items { IsPermutation (left_over S.Quote.kind taken resting ++ self.old.items) self.new.items }
        ensures kept { Keeps S.Ranked.key S.Ranked.upto self.old self.new }
    {
        if taken < resting.quantity {
            let _ = self.add(S::quote(resting.less(taken)));
        }
    }

    // Meets the first order where it crosses; what is left of that one rests again.
    pub(crate) fn fill_first(&mut self, order: &Order, left: u32) -> Option<Fill>
        ensures fill { MeetsBest S.Quote.kind order.now left self.old.items result self.new.items }
        ensures kept { Keeps S.Ranked.key S.Ranked.upto self.old self.new }
    {
        if !self.crossed(order.price) {
            return None;
        }
        let first = self.heap.take()?;
        let resting = first.order();
        self.put_back(resting, left);
        Some(fill_of(order, left, &resting))
    }
}
