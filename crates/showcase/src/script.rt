// The calls of the session, in order. The moments of a member's calls follow from its line: a batch that is sealed at 1,000
// reaches member 2 at 3,010, and an order that leaves there at 3,130 can be collected at 4,640.
use book::Side;
use order::Call;
use records::Offer;
use std::alloc::{AllocError, Global};

fn point(at: u64, value: u64) -> Call {
    Call::Point { at, value }
}

fn seal(at: u64) -> Call {
    Call::Seal { at }
}

fn deliver(at: u64, seat: usize) -> Call {
    Call::Deliver { at, seat }
}

fn beat(at: u64, seat: usize) -> Call {
    Call::Beat { at, seat }
}

fn end(at: u64, seat: usize) -> Call {
    Call::End { at, seat }
}

fn collect(at: u64, seat: usize) -> Call {
    Call::Collect { at, seat }
}

fn buy(at: u64, seat: usize, trigger: u64, quantity: u64, price: u64) -> Call {
    submit(at, seat, trigger, Side::Buy, quantity, price)
}

fn sell(at: u64, seat: usize, trigger: u64, quantity: u64, price: u64) -> Call {
    submit(at, seat, trigger, Side::Sell, quantity, price)
}

fn submit(at: u64, seat: usize, trigger: u64, side: Side, quantity: u64, price: u64) -> Call {
    let offer = Offer {
        trigger,
        side,
        price,
        quantity,
    };
    Call::Submit { at, seat, offer }
}

// The first batch is sealed. It is with member 0 at once, and with nobody else yet.
fn opening(calls: &mut Vec<Call>) -> Result<(), AllocError> {
    calls.extend_from_slice(&[
        Call::Release,
        point(100, 1_000),
        point(400, 1_002),
        buy(500, 0, 1, 8, 99),
        seal(1_000),
        point(900, 1_003),
        deliver(1_015, 0),
        deliver(1_015, 2),
        deliver(1_015, 4),
    ])
}

// Member 0 answers both ticks, and its orders arrive before the others have even seen them.
fn near_orders(calls: &mut Vec<Call>) -> Result<(), AllocError> {
    calls.extend_from_slice(&[
        buy(1_115, 0, 3, 8, 99),
        buy(1_165, 0, 1, 0, 99),
        buy(1_215, 0, 1, 8, 99),
        collect(1_230, 0),
        collect(1_240, 0),
        sell(1_275, 0, 2, 3, 102),
        collect(1_300, 0),
        Call::Release,
    ])
}

// The second batch is sealed, a window after the first. Member 1 looks at its line late, so that the horizon holds its
// second batch back. It answers tick 1 as quickly as member 2, later, and its order arrives earlier.
fn second_batch(calls: &mut Vec<Call>) -> Result<(), AllocError> {
    calls.extend_from_slice(&[
        point(1_500, 1_010),
        point(2_200, 1_011),
        seal(2_500),
        seal(3_000),
        deliver(3_010, 2),
        deliver(3_015, 0),
        sell(3_130, 2, 1, 5, 101),
        deliver(3_200, 1),
        buy(3_225, 2, 2, 2, 99),
        deliver(3_310, 1),
        sell(3_320, 1, 1, 5, 101),
        buy(3_465, 0, 3, 6, 101),
        collect(3_490, 0),
        point(4_000, 990),
        collect(4_030, 1),
        collect(4_640, 2),
        deliver(4_700, 1),
        collect(4_740, 2),
    ])
}

// The third batch is sealed. Member 1 answers tick 3 later than member 2, and its order arrives earlier.
fn third_batch(calls: &mut Vec<Call>) -> Result<(), AllocError> {
    calls.extend_from_slice(&[
        seal(5_000),
        deliver(5_010, 2),
        deliver(5_015, 0),
        sell(5_110, 0, 5, 6, 100),
        collect(5_130, 0),
        buy(5_310, 2, 3, 12, 101),
        buy(5_450, 1, 3, 6, 101),
        collect(6_160, 1),
        deliver(6_200, 1),
        sell(6_300, 1, 5, 3, 99),
        collect(6_820, 2),
        deliver(7_010, 2),
        collect(7_010, 1),
        sell(7_090, 2, 5, 6, 100),
        collect(8_600, 2),
        Call::Release,
        end(20_000, 0),
        buy(20_005, 0, 5, 1, 100),
        collect(20_020, 0),
    ])
}

// The batches reach member 3, whose orders are under way for long. A beat goes right behind the second.
fn far_orders(calls: &mut Vec<Call>) -> Result<(), AllocError> {
    calls.extend_from_slice(&[
        deliver(41_010, 3),
        sell(41_060, 3, 1, 10, 101),
        beat(41_300, 3),
        deliver(43_010, 3),
        buy(43_460, 3, 3, 6, 101),
        beat(43_461, 3),
        deliver(45_010, 3),
        sell(45_170, 3, 5, 20, 98),
        collect(50_000, 3),
    ])
}

// What member 3 sent arrives, and lets the trades that wait for it go, one message after the other.
fn releases(calls: &mut Vec<Call>) -> Result<(), AllocError> {
    calls.extend_from_slice(&[
        collect(76_070, 3),
        Call::Release,
        Call::Release,
        collect(76_310, 3),
        Call::Release,
        Call::Release,
        Call::Release,
        Call::Release,
        Call::Release,
        Call::Release,
        collect(78_470, 3),
        Call::Release,
        Call::Release,
        collect(78_480, 3),
        Call::Release,
        Call::Release,
        Call::Release,
        collect(80_180, 3),
        Call::Release,
        Call::Release,
        Call::Release,
    ])
}

// The others end too. The last trades go once the ends of members 1 and 2 are collected; the session is settled only
// once that of member 3 is.
fn close(calls: &mut Vec<Call>) -> Result<(), AllocError> {
    calls.extend_from_slice(&[
        end(90_000, 1),
        end(90_000, 2),
        end(90_000, 3),
        collect(90_710, 1),
        collect(91_510, 2),
        Call::Release,
        Call::Release,
        Call::Release,
        Call::Release,
        collect(125_010, 3),
    ])
}

pub fn calls(heap: Global) -> Result<Vec<Call>, AllocError> {
    let mut calls = Vec::new(heap);
    opening(&mut calls)?;
    near_orders(&mut calls)?;
    second_batch(&mut calls)?;
    third_batch(&mut calls)?;
    far_orders(&mut calls)?;
    releases(&mut calls)?;
    close(&mut calls)?;
    Ok(calls)
}
