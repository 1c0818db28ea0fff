ghost use Rattle.std.specs.Prelude.{◌≡◌, ◌+◌, ◌<◌, ◌≤◌, MatchOption};
ghost use Rattle.lines.specs.Pages.{page};
ghost use Rattle.book.specs.TakeOrder.{Settled, most};

use super::Book;
use crate::fill::Fill;
use crate::matching::deal;
use crate::order::{Booked, Order, Side};
use lines::Lines;

// How many orders a book takes.
const ORDERS: u32 = 1_000_000;

// The arrival number of one more order, and the count with it, if the book still takes one.
fn count_in(taken: u32) -> Option<(u32, u32)>
    ensures { MatchOption result (most ≤ taken) (λ n. (n.0 ≡ taken) × (n.1 ≡ taken + 1) × (taken < most)) }
{
    if taken < ORDERS {
        Some((taken, taken + 1))
    } else {
        None
    }
}

impl Book {
    // Takes an order in: it meets the other side, first to last, and what is left rests or is dropped.
    pub fn take_order(&mut self, order: Order, fills: &mut Lines<Fill>) -> Booked
        ensures settled { Settled self.old order (page fills.old) self.new (page fills.new) result }
        ensures same { fills.new.lines.ghost_name ≡ fills.old.lines.ghost_name }
    {
        let Some((arrival, taken)) = count_in(self.taken) else {
            return Booked::all_dropped(order.quantity);
        };
        self.taken = taken;
        match order.side {
            Side::Buy => deal(&mut self.sells, &mut self.buys, &order, arrival, fills),
            Side::Sell => deal(&mut self.buys, &mut self.sells, &order, arrival, fills),
        }
    }
}
