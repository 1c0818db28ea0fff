// What an incoming order does to the two sides: it meets the other side, and what is left rests on its own or is dropped.
ghost use Rattle.std.specs.Prelude.{◌≡◌};
ghost use Rattle.lines.specs.Pages.{page, full};
ghost use Rattle.book.specs.Book.{room};
ghost use Rattle.book.specs.Matching.{Deals, Longest, Meeting, Rests};
ghost use Rattle.book.specs.Side.{Keeps};

use crate::fill::Fill;
use crate::order::{Booked, Order};
use crate::quote::Quote;
use crate::side::Quotes;
use lines::Lines;

impl<S: Quote + Drop> Quotes<S> {
    // Meets the orders of a side, first to last, while quantity is left, a line is free and prices cross. What is left: no
    // part of the order, since it falls while the order stays, and the rules speak of both.
    fn meet(&mut self, order: &Order, fills: &mut Lines<Fill>) -> u32
        ensures matched { Meeting S.Quote.kind order.now self.old.items (page fills.old) self.new.items (page fills.new) result }
        ensures longest { Longest S.Quote.kind order.now (full (page fills.new)) self.new.items result }
        ensures kept { Keeps S.Ranked.key S.Ranked.upto self.old self.new }
        ensures same { fills.new.lines.ghost_name ≡ fills.old.lines.ghost_name }
    {
        let mut left = order.quantity;
        while left > 0 && fills.has_room() {
            match self.fill_first(order, left) {
                Some(fill) => {
                    left -= fill.quantity;
                    let _ = fills.write(fill);
                }
                None => return left,
            }
        }
        left
    }

    // What is left of an order joins its side, if no opposite order crosses it and there is room. The quantity that rests.
    fn rest<O: Quote>(
        &mut self,
        opposite: &Quotes<O>,
        order: &Order,
        left: u32,
        arrival: u32,
    ) -> u32
        ensures rested { Rests O.Quote.kind S.Quote.kind order.now arrival left room opposite.now.items self.old.items self.new.items result }
        ensures kept { Keeps S.Ranked.key S.Ranked.upto self.old self.new }
    {
        if left == 0 || opposite.crossed(order.price) {
            return 0;
        }
        match self.add(S::quote(order.at_rest(left, arrival))) {
            Ok(()) => left,
            Err(_) => 0,
        }
    }
}

// Meets the opposite side, and then rests or is dropped.
pub(crate) fn deal<O: Quote + Drop, W: Quote + Drop>(
    opposite: &mut Quotes<O>,
    own: &mut Quotes<W>,
    order: &Order,
    arrival: u32,
    fills: &mut Lines<Fill>,
) -> Booked
    ensures dealt { Deals O.Quote.kind W.Quote.kind order.now arrival room opposite.old.items opposite.new.items own.old.items own.new.items (page fills.old) (page fills.new) result }
    ensures there { Keeps O.Ranked.key O.Ranked.upto opposite.old opposite.new }
    ensures here { Keeps W.Ranked.key W.Ranked.upto own.old own.new }
    ensures same { fills.new.lines.ghost_name ≡ fills.old.lines.ghost_name }
{
    let before = fills.used();
    let left = opposite.meet(order, fills);
    let rested = own.rest(opposite, order, left, arrival);
    Booked {
        filled: order.quantity - left,
        rested,
        dropped: left - rested,
        fills: fills.used() - before,
    }
}
