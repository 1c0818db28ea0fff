// Orders in the book: each is taken with a fill list of its own, and printed with what became of it.
use book::{Book, Fill, Order, Party, Resting, Side};
use lines::Lines;
use std::alloc::Global;
use std::fmt;

// How many fills an order may have.
const FILLS: usize = 2;

fn order(seat: usize, serial: u32, side: Side, price: u32, quantity: u32) -> Order {
    Order {
        party: Party { seat, serial },
        side,
        price,
        quantity,
    }
}

// The price of the best order of a side, or a dash where none rests.
#[derive(Clone, Copy)]
struct Price(Option<Resting>);

impl fmt::Display for Price {
    fn fmt<W: fmt::Write>(&self, f: &mut fmt::Formatter<W>) -> fmt::Result {
        match &self.0 {
            Some(resting) => resting.price.fmt(f),
            None => f.pad("-"),
        }
    }
}

// A line for an order and a line for each of its fills.
fn trade(rt: &impl Print, book: &mut Book, order: Order) -> anyhow::Result<()> {
    let mut fills = [Fill::default(); FILLS];
    let mut list = Lines::new(&mut fills);
    let booked = book.take_order(order, &mut list);
    let Party { seat, serial } = order.party;
    let Order {
        side,
        price,
        quantity,
        ..
    } = order;
    let best_buy = Price(book.best_buy());
    let best_sell = Price(book.best_sell());
    println!(rt;
        "{seat:>4} {serial:>6} {side:>5} {price:>6} {quantity:>8} {:>7} {:>7} {:>8} {best_buy:>9} {best_sell:>10}",
        booked.filled, booked.rested, booked.dropped
    )?;
    for fill in list.written() {
        print_fill(rt, fill)?;
    }
    Ok(())
}

fn print_fill(rt: &impl Print, fill: &Fill) -> anyhow::Result<()> {
    println!(rt;
        "     fill of {} at {}: buyer {}/{}, seller {}/{}",
        fill.quantity,
        fill.price,
        fill.buyer.seat,
        fill.buyer.serial,
        fill.seller.seat,
        fill.seller.serial
    )?;
    Ok(())
}

// Both sides rest, cross, are filled in part and in full; the last buy wants more fills than it may have.
pub fn run(rt: &impl Print, heap: Global) -> anyhow::Result<()> {
    let mut book = Book::new(heap)?;
    let orders = [
        order(0, 1, Side::Sell, 101, 5),
        order(1, 1, Side::Sell, 100, 4),
        order(2, 1, Side::Sell, 100, 6),
        order(3, 1, Side::Buy, 98, 7),
        order(3, 2, Side::Buy, 100, 3),
        order(0, 2, Side::Sell, 98, 2),
        order(1, 2, Side::Buy, 101, 20),
        order(2, 2, Side::Sell, 99, 4),
        order(0, 3, Side::Buy, 99, 9),
    ];
    println!(rt;
        "seat serial  side  price quantity  filled  rested  dropped  best buy  best sell"
    )?;
    for order in orders {
        trade(rt, &mut book, order)?;
    }
    Ok(())
}
