ghost use Rattle.std.specs.Prelude.{◌≡◌};
ghost use Rattle.lines.specs.Pages.{page};
ghost use Rattle.book.specs.TakeOrder.{Settled};
ghost use Rattle.records.specs.Trade.{order_of, rejected};

use book::{Book, Booked, Fill};
use lines::Lines;
use records::Line;

// A released trade that is still to be booked or rejected. It can't be let go: a program in which one is dropped is
// refused, since places are counted from 1.
pub struct Ticket {
    line: Line,
}

impl Drop for Ticket {
    // No ticket that a release hands out meets this: it must be spent.
    fn drop(self)
        requires { self.line.place ≡ 0 }
    {
        let Ticket { line: _ } = self;
    }
}

impl Ticket {
    // The ticket of a line.
    pub(crate) fn of(line: Line) -> Ticket
        ensures { result.line ≡ line }
    {
        Ticket { line }
    }

    // The line of the tape that it is of.
    pub fn line(&self) -> Line
        ensures { result ≡ self.now.line }
    {
        self.line
    }

    // Hands the order to the book.
    pub fn book(self, book: &mut Book, fills: &mut Lines<Fill>) -> Booked
        ensures booked { Settled book.old (order_of self.line.trade) (page fills.old) book.new (page fills.new) result }
        ensures same { fills.new.lines.ghost_name ≡ fills.old.lines.ghost_name }
    {
        let Ticket { line } = self;
        book.take_order(line.trade.order(), fills)
    }

    // Drops the whole quantity.
    pub fn reject(self) -> Booked
        ensures { result ≡ rejected self.line.trade }
    {
        let Ticket { line } = self;
        line.trade.dropped()
    }
}
