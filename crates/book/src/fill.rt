ghost use Rattle.std.specs.Prelude.{◌≡◌};
ghost use Rattle.book.specs.Fill.{fill_of};

use crate::order::{Order, Party, Resting, Side};

// A quantity that changed hands, at the resting order's price.
#[derive(Clone, Copy, Debug, Default, PartialEq, Eq)]
pub struct Fill {
    pub price: u32,
    pub quantity: u32,
    pub buyer: Party,
    pub seller: Party,
}

// The fill of what is left of an order with a resting one.
pub(crate) fn fill_of(order: &Order, left: u32, best: &Resting) -> Fill
    ensures { result ≡ fill_of order.now left best.now }
{
    let (buyer, seller) = match order.side {
        Side::Buy => (order.party, best.party),
        Side::Sell => (best.party, order.party),
    };
    Fill {
        price: best.price,
        quantity: left.min(best.quantity),
        buyer,
        seller,
    }
}
