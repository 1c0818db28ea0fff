// A quote is a resting order of a known side. A side's quotes name their rank and the incoming prices that they cross;
// what a side does is written once, for both.
ghost use Rattle.std.specs.Prelude.{◌≡◌};
ghost use Rattle.book.specs.Quote.{Kind, Lawful, buy_key, buy_upto, key_of, resting_buys, resting_sells, sell_key, sell_upto};
ghost use Rattle.std.proofs.Common.{rules};

use crate::order::Resting;
use heap::Ranked;
use std::cmp::Reverse;

// By price first, and then by arrival.
#[derive(Clone, Copy, PartialEq, Eq, PartialOrd, Ord)]
pub struct PriceKey {
    pub price: u32,
    pub arrival: u32,
}

// What a resting order ranks by.
impl From<Resting> for PriceKey {
    ghost from_gives = { λ order key. key ≡ key_of order };

    fn from(order: Resting) -> PriceKey {
        PriceKey {
            price: order.price,
            arrival: order.arrival,
        }
    }
}

// A resting order that buys. Buys and sells differ in their order and in the prices that cross them; one type with a marker
// for its side would save three bodies of a line, for a trait, two marker types and a `PhantomData`. What a side does is
// written once, in `Quotes`.
#[derive(Clone, Copy)]
pub struct Buy {
    pub order: Resting,
}

// A resting order that sells.
#[derive(Clone, Copy)]
pub struct Sell {
    pub order: Resting,
}

// A resting order of one side.
pub trait Quote: Ranked {
    // How it ranks, and which prices cross it.
    ghost kind: { Kind Self };

    // The quote of a resting order.
    fn quote(order: Resting) -> Self
        ensures { result ≡ kind.quoted order };

    // The resting order that it is of.
    fn order(&self) -> Resting
        ensures { result ≡ kind.resting self.now };

    // Whether an incoming order at this price may trade with it.
    fn crosses(&self, price: u32) -> bool
        ensures { result ≡ kind.meets price (kind.resting self.now).price };

    // The kind is lawful, which is all that the matching needs to know of it.
    ghost lawful: { Lawful kind };

    // The heap ranks as the kind says.
    ghost ranks: { (x y : Self) → Self.Ranked.upto (Self.Ranked.key x) (Self.Ranked.key y) ≡ kind.before x y };
}

impl Ranked for Buy {
    type Key = PriceKey;

    ghost key = { buy_key };

    ghost upto = { buy_upto };

    ghost lawful = { Prim.search rules };

    fn key_of(&self) -> PriceKey {
        PriceKey::from(self.order)
    }

    fn precedes(&self, other: &Buy) -> bool {
        let (own, next) = (self.key_of(), other.key_of());
        (Reverse(own.price), own.arrival) <= (Reverse(next.price), next.arrival)
    }
}

impl Ranked for Sell {
    type Key = PriceKey;

    ghost key = { sell_key };

    ghost upto = { sell_upto };

    ghost lawful = { Prim.search rules };

    fn key_of(&self) -> PriceKey {
        PriceKey::from(self.order)
    }

    fn precedes(&self, other: &Sell) -> bool {
        self.key_of() <= other.key_of()
    }
}

impl Quote for Buy {
    ghost kind = { resting_buys };

    ghost lawful = { Prim.search rules };

    ghost ranks = { Prim.search rules };

    fn quote(order: Resting) -> Buy {
        Buy { order }
    }

    fn order(&self) -> Resting {
        self.order
    }

    fn crosses(&self, price: u32) -> bool {
        price <= self.order.price
    }
}

impl Quote for Sell {
    ghost kind = { resting_sells };

    ghost lawful = { Prim.search rules };

    ghost ranks = { Prim.search rules };

    fn quote(order: Resting) -> Sell {
        Sell { order }
    }

    fn order(&self) -> Resting {
        self.order
    }

    fn crosses(&self, price: u32) -> bool {
        self.order.price <= price
    }
}
