ghost use Rattle.std.specs.Prelude.{◌≡◌};
ghost use Rattle.records.specs.Trade.{key_upto, order_of, rejected, trade_key};
ghost use Rattle.records.specs.Keys.{keys_lawful};

use crate::tag::Tag;
use book::{Booked, Order, Party, Side};
use heap::Ranked;

// An order on its way to the book. Serials count the trades of a seat from 1; the trigger is the point that it answers.
#[derive(Clone, Copy, Debug, Default, PartialEq, Eq)]
pub struct Trade {
    pub seat: usize,
    pub serial: u32,
    pub tag: Tag,
    pub trigger: u64,
    pub side: Side,
    pub price: u32,
    pub quantity: u32,
}

// What trades rank by: the tag, then the seat, then the serial.
#[derive(Clone, Copy, Debug, PartialEq, Eq, PartialOrd, Ord)]
pub struct DeliveryKey {
    pub tag: Tag,
    pub seat: usize,
    pub serial: u32,
}

impl Ranked for Trade {
    type Key = DeliveryKey;

    ghost key = { trade_key };

    ghost upto = { key_upto };

    ghost lawful = { keys_lawful };

    fn key_of(&self) -> DeliveryKey {
        DeliveryKey {
            tag: self.tag,
            seat: self.seat,
            serial: self.serial,
        }
    }

    fn precedes(&self, other: &Trade) -> bool {
        self.key_of() <= other.key_of()
    }
}

impl Trade {
    // The order that the trade is to the book. A `From` would say less: `trade.order()` names what it gives.
    pub fn order(&self) -> Order
        ensures { result ≡ order_of self.now }
    {
        Order {
            party: Party {
                seat: self.seat,
                serial: self.serial,
            },
            side: self.side,
            price: self.price,
            quantity: self.quantity,
        }
    }

    // What is answered of a trade that isn't booked: all of it is dropped.
    pub fn dropped(&self) -> Booked
        ensures { result ≡ rejected self.now }
    {
        Booked::all_dropped(self.quantity)
    }
}
