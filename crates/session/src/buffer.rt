// The buffer of trades that are collected and not released.
ghost use Rattle.std.specs.Prelude.{◌≡◌, ◌<◌, [], length, IfOk, MatchOption};
ghost use Rattle.heap.specs.Calls.{KeepsOrder};
ghost use Rattle.heap.specs.Heaps.{AtRoot, First};
ghost use Rattle.records.specs.Trade.{TradeUpto};
ghost use Rattle.session.specs.Balance.{buffer_room};
ghost use Rattle.session.specs.Collect.{Put};
ghost use Rattle.session.specs.Release.{Head};
ghost use Rattle.session.specs.Settled.{Says};

use heap::Heap;
use records::{Message, Seat, Trade};
use std::alloc::{AllocError, Global};
use std::marker::Model;

// Room for 16 trades of each of 16 seats.
const ROOM: usize = 256;

// The trades by rank. A side of the book is such a heap too, but a type for both would be wrapped here all the same, for the
// calls below.
#[derive(Drop)]
pub struct Buffer {
    heap: Heap<Trade>,
}

// Contracts see the trades, the first of them at the front. They always stand by rank, and there is room for so many as the
// seats may have there.
impl Model for Buffer {
    ghost use Rattle.std.specs.Prelude.{◌≡◌, List};
    ghost use Rattle.heap.specs.Heaps.{Heaped};
    ghost use Rattle.records.specs.declared.trade.Trade.{Trade};
    ghost use Rattle.records.specs.Trade.{TradeUpto};
    ghost use Rattle.session.specs.Balance.{buffer_room};

    ghost Value = { List Trade };

    ghost view = { λ b. b.heap.items };

    ghost invariant = { λ b. (b.heap.bound ≡ buffer_room) × Heaped TradeUpto b.heap.items };
}

impl Buffer {
    // An empty buffer, with all the memory that it will ever need.
    pub fn new(heap: Global) -> Result<Buffer, AllocError>
        ensures { IfOk result (λ b. b ≡ []) }
    {
        let heap = Heap::with_room(heap, ROOM)?;
        Ok(Buffer { heap })
    }

    // The first trade, which the next `take` hands out.
    pub fn head(&self) -> Option<Trade>
        ensures { MatchOption result (self.now ≡ []) (λ x. (0 < length self.now) × AtRoot x self.now × First TradeUpto x self.now) }
    {
        self.heap.peek().copied()
    }

    // Whether no trade waits.
    pub fn is_empty(&self) -> bool
        ensures { Says result (self.now ≡ []) }
    {
        self.heap.len() == 0
    }

    // Puts a collected trade in, unless it is stray, and answers how many of the seat are collected by now.
    pub fn put(&mut self, seat: usize, own: &Seat, message: &Message) -> u32
        requires { own.now.collected < own.now.submitted → length self.old < buffer_room }
        ensures put { Put own.now seat message.now result self.old self.new }
        ensures ranked { KeepsOrder TradeUpto self.old self.new }
    {
        match *message {
            Message::Trade(trade) if own.expects(seat, &trade) => {
                let _ = self.heap.add(trade);
                trade.serial
            }
            _ => own.collected,
        }
    }

    // Takes the first trade out.
    pub fn take(&mut self, head: Trade)
        requires { (0 < length self.old) × AtRoot head self.old }
        ensures taken { Head self.old head self.new }
        ensures ranked { KeepsOrder TradeUpto self.old self.new }
    {
        let _ = self.heap.take();
    }
}
