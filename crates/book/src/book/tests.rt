use super::Book;
use crate::fill::Fill;
use crate::order::{Booked, Order, Party, Side};
use crate::side::Quotes;
use lines::Lines;
use std::alloc::{AllocError, Global};
use std::process::Abort;
use std::test::Fail;

fn buy(seat: usize, price: u32, quantity: u32) -> Order {
    Order {
        party: Party { seat, serial: 1 },
        side: Side::Buy,
        price,
        quantity,
    }
}

fn sell(seat: usize, price: u32, quantity: u32) -> Order {
    Order {
        side: Side::Sell,
        ..buy(seat, price, quantity)
    }
}

// That so much of an order was filled, rested and dropped.
fn became(rt: &impl Abort, booked: Booked, filled: u32, rested: u32, dropped: u32) {
    assert_eq!(rt; booked.filled, filled, "filled");
    assert_eq!(rt; booked.rested, rested, "rested");
    assert_eq!(rt; booked.dropped, dropped, "dropped");
}

// An empty book that has taken so many orders.
fn after(heap: Global, taken: u32) -> Result<Book, AllocError> {
    let buys = Quotes::new(heap)?;
    let sells = Quotes::new(heap)?;
    Ok(Book { buys, sells, taken })
}

#[test]
fn equal_prices_go_by_arrival(rt: HostRuntime) -> Result<(), Fail> {
    let mut book = Book::new(rt.alloc())?;
    let mut lines = [Fill::default(); 2];
    let mut fills = Lines::new(&mut lines);
    became(&rt, book.take_order(sell(1, 100, 5), &mut fills), 0, 5, 0);
    became(&rt, book.take_order(sell(2, 100, 5), &mut fills), 0, 5, 0);
    became(&rt, book.take_order(buy(3, 101, 7), &mut fills), 7, 0, 0);
    let [first, second] = lines;
    assert_eq!(rt; first.seller.seat, 1);
    assert_eq!(rt; second.seller.seat, 2);
    assert_eq!(rt; second.buyer.seat, 3);
    assert_eq!(rt; second.price, 100, "the resting price");
    assert_eq!(rt; second.quantity, 2);
    Ok(())
}

#[test]
fn an_order_clears_three(rt: HostRuntime) -> Result<(), Fail> {
    let mut book = Book::new(rt.alloc())?;
    let mut lines = [Fill::default(); 3];
    let mut fills = Lines::new(&mut lines);
    for price in 100..103u32 {
        became(&rt, book.take_order(buy(1, price, 5), &mut fills), 0, 5, 0);
    }
    became(&rt, book.take_order(sell(2, 100, 20), &mut fills), 15, 5, 0);
    assert!(rt; book.best_buy().is_none());
    assert_eq!(rt; book.best_sell().ok_or("none rests")?.quantity, 5);
    let [first, second, third] = lines;
    assert_eq!(rt; (first.price, second.price, third.price), (102, 101, 100));
    Ok(())
}

#[test]
fn a_full_fill_list_drops_what_crosses(rt: HostRuntime) -> Result<(), Fail> {
    let mut book = Book::new(rt.alloc())?;
    let mut lines = [Fill::default(); 1];
    let mut fills = Lines::new(&mut lines);
    became(&rt, book.take_order(sell(1, 100, 5), &mut fills), 0, 5, 0);
    became(&rt, book.take_order(sell(2, 100, 5), &mut fills), 0, 5, 0);
    // one line
    became(&rt, book.take_order(buy(3, 100, 8), &mut fills), 5, 0, 3);
    // no line
    became(&rt, book.take_order(buy(3, 100, 8), &mut fills), 0, 0, 8);
    // no price crosses
    became(&rt, book.take_order(buy(3, 99, 8), &mut fills), 0, 8, 0);
    Ok(())
}

#[test]
fn a_full_side_drops(rt: HostRuntime) -> Result<(), Fail> {
    let mut book = Book::new(rt.alloc())?;
    let mut fills = Lines::new(&mut []);
    for _ in 0..256u32 {
        became(&rt, book.take_order(buy(1, 10, 1), &mut fills), 0, 1, 0);
    }
    became(&rt, book.take_order(buy(1, 10, 1), &mut fills), 0, 0, 1);
    // the other side
    became(&rt, book.take_order(sell(1, 11, 1), &mut fills), 0, 1, 0);
    Ok(())
}

#[test]
fn a_book_takes_a_million_orders(rt: HostRuntime) -> Result<(), Fail> {
    let mut book = after(rt.alloc(), 999_999)?;
    let mut fills = Lines::new(&mut []);
    // the last
    became(&rt, book.take_order(buy(1, 10, 7), &mut fills), 0, 7, 0);
    // one more
    became(&rt, book.take_order(buy(1, 10, 7), &mut fills), 0, 0, 7);
    Ok(())
}
