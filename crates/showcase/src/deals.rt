// What the book made of the orders: the fills, and what is left of each order.
ghost use Rattle.std.specs.Prelude.{◌≡◌, ◌-◌};

use book::{Fill, Party};
use order::{Event, Outcome};
use std::io;

// How much of an order changed hands.
fn filled(fills: &[Fill], party: Party) -> u32 {
    fills
        .iter()
        .filter(|fill| fill.buyer == party || fill.seller == party)
        .map(|fill| fill.quantity)
        .fold(0, |total: u32, quantity| total.saturating_add(quantity))
}

// What is left of an order in the book.
fn resting(quantity: u32, filled: u32, dropped: u32) -> u32
    ensures { result ≡ quantity - filled - dropped }
{
    quantity.saturating_sub(filled).saturating_sub(dropped)
}

pub fn print_fills(rt: &impl Print, fills: &[Fill]) -> io::Result<()> {
    println!(rt; "\nThe fills\n\nfill  price  quantity  buyer/serial  seller/serial")?;
    for (number, fill) in (1..).zip(fills) {
        print_fill(rt, number, fill)?;
    }
    Ok(())
}

fn print_fill(rt: &impl Print, number: usize, fill: &Fill) -> io::Result<()> {
    println!(rt;
        "{number:>4}  {:>5}  {:>8}  {:>10}/{}  {:>11}/{}",
        fill.price,
        fill.quantity,
        fill.buyer.seat,
        fill.buyer.serial,
        fill.seller.seat,
        fill.seller.serial
    )
}

pub fn print_orders(rt: &impl Print, events: &[Event], fills: &[Fill]) -> io::Result<()> {
    println!(rt;
        "\nThe orders, at the end\n\nplace  member  serial  side  quantity  price  filled  resting  dropped"
    )?;
    for event in events {
        if let Event::Release {
            answer: Ok(outcome),
        } = event
        {
            print_order(rt, outcome, fills)?;
        }
    }
    Ok(())
}

fn print_order(rt: &impl Print, outcome: &Outcome, fills: &[Fill]) -> io::Result<()> {
    let trade = outcome.line.trade;
    print!(rt;
        "{:>5}  {:>6}  {:>6}  {:<4}  {:>8}  {:>5}",
        outcome.line.place, trade.seat, trade.serial, trade.side, trade.quantity, trade.price
    )?;
    let filled = filled(fills, trade.order().party);
    print_end(rt, trade.quantity, filled, outcome.booked.dropped)
}

fn print_end(rt: &impl Print, quantity: u32, filled: u32, dropped: u32) -> io::Result<()> {
    let resting = resting(quantity, filled, dropped);
    println!(rt; "  {filled:>6}  {resting:>7}  {dropped:>7}")
}
