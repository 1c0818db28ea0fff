ghost use Rattle.std.specs.Prelude.{◌≡◌, ◌<◌};
ghost use Rattle.book.specs.Order.{at_rest, less};

use std::fmt;

// What an order is for.
#[derive(Clone, Copy, Debug, Default, PartialEq, Eq)]
pub enum Side {
    #[default]
    Buy,
    Sell,
}

impl fmt::Display for Side {
    ghost use Rattle.std.specs.Prelude.{Some};
    ghost use Rattle.book.specs.Order.{side_name};

    ghost output = { λ side. Some (side_name side) };

    fn fmt<W: fmt::Write>(&self, f: &mut fmt::Formatter<W>) -> fmt::Result {
        f.pad(match *self {
            Side::Buy => "buy",
            Side::Sell => "sell",
        })
    }
}

// Whose order it is, and which of theirs.
#[derive(Clone, Copy, Debug, Default, PartialEq, Eq)]
pub struct Party {
    pub seat: usize,
    pub serial: u32,
}

// An incoming order.
#[derive(Clone, Copy, Debug, PartialEq, Eq)]
pub struct Order {
    pub party: Party,
    pub side: Side,
    pub price: u32,
    pub quantity: u32,
}

// What is left of an order, at rest on its side, with the book's own arrival number.
#[derive(Clone, Copy, Debug, PartialEq, Eq)]
pub struct Resting {
    pub party: Party,
    pub price: u32,
    pub quantity: u32,
    pub arrival: u32,
}

// What became of an order's quantity, and how many fills there were.
#[derive(Clone, Copy, Debug, Default, PartialEq, Eq)]
pub struct Booked {
    pub filled: u32,
    pub rested: u32,
    pub dropped: u32,
    pub fills: usize,
}

impl Booked {
    // All of a quantity is dropped.
    pub fn all_dropped(quantity: u32) -> Booked
        ensures { result ≡ record { filled = 0; rested = 0; dropped = quantity; fills = 0 } }
    {
        Booked {
            dropped: quantity,
            ..Booked::default()
        }
    }
}

impl Order {
    // What is left of the order, at rest.
    pub(crate) fn at_rest(&self, left: u32, arrival: u32) -> Resting
        ensures { result ≡ at_rest self.now left arrival }
    {
        Resting {
            party: self.party,
            price: self.price,
            quantity: left,
            arrival,
        }
    }
}

impl Resting {
    // The same order once some of its quantity is taken.
    pub(crate) fn less(self, taken: u32) -> Resting
        requires { taken < self.quantity }
        ensures { result ≡ less taken self }
    {
        Resting {
            quantity: self.quantity - taken,
            ..self
        }
    }
}
