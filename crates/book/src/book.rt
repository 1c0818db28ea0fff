ghost use Rattle.book.specs.Quote.{buy_key, buy_upto, resting_buys, resting_sells, sell_key, sell_upto};
ghost use Rattle.book.specs.Side.{Stood};
ghost use Rattle.book.specs.Book.{Apart, Few, Numbered, Roomy};

use crate::quote::{Buy, Sell};
use crate::side::Quotes;

mod best;
mod new;
mod take_order;
#[cfg(test)]
mod tests;

// Two sides of resting orders, at most 256 each, and how many orders were taken.
#[derive(Drop)]
pub struct Book {
    buys: Quotes<Buy>,
    sells: Quotes<Sell>,
    taken: u32,
    // Each side stands by rank.
    ghost buys_stand: { Stood buy_key buy_upto buys.items },
    ghost sells_stand: { Stood sell_key sell_upto sells.items },
    // Each side has room and memory for as many orders as it may hold.
    ghost buys_room: { Roomy buys },
    ghost sells_room: { Roomy sells },
    // No side passes its room.
    ghost buys_few: { Few buys.items },
    ghost sells_few: { Few sells.items },
    // Every buy stands below every sell.
    ghost apart: { Apart buys.items sells.items },
    // No two orders of a side have one arrival number.
    ghost buys_numbered: { Numbered resting_buys taken buys.items },
    ghost sells_numbered: { Numbered resting_sells taken sells.items },
}
