// The races: for each tick, the orders that answered it, by their place on the tape. All of it is read off the events.
ghost use Rattle.std.specs.Prelude.{◌≡◌, ℕ, ◌-◌, ◌↔◌, IfSome, IsTrue, map};
ghost use Rattle.std.specs.List.Sorted.{IsNonDecreasing};
ghost use Rattle.order.specs.History.{holds as holds_point};
ghost use Rattle.showcase.specs.Race.{Reads, answering, first_answer, handed_out, nth_answer, sent_off, taken_off};

use order::Event;
use records::{Batch, Kind, Line};
use std::alloc::{AllocError, Global};
use std::io;

// An order of a race: the tick that it answers, when the tick reached its member, when it left, how long that took, and
// when it was collected.
#[derive(Clone, Copy)]
pub struct Entry {
    tick: u64,
    place: u64,
    seat: usize,
    serial: u32,
    reached: u64,
    left: u64,
    response: u64,
    collected: u64,
}

// What the orders of a race are compared by.
impl Entry {
    fn response(&self) -> u64
        ensures { result ≡ self.now.response }
    {
        self.response
    }

    fn collected(&self) -> u64
        ensures { result ≡ self.now.collected }
    {
        self.collected
    }
}

// Whether a batch holds a point.
fn holds(batch: &Batch, point: u64) -> bool
    ensures { result ≡ holds_point batch.now point }
{
    let first = u64::from(batch.first);
    first <= point && point < first + u64::from(batch.count)
}

// The moment at which an event handed the seat a batch that holds the point, if it did.
fn handed_out(event: &Event, seat: usize, point: u64) -> Option<u64>
    ensures { result ≡ handed_out seat point event.now }
{
    match *event {
        Event::Deliver {
            at,
            seat: to,
            answer: Ok(batch),
        } if to == seat && holds(&batch, point) => Some(at),
        _ => None,
    }
}

// The moment at which an event sent the seat's trade with this serial, if it did.
fn sent(event: &Event, seat: usize, serial: u32) -> Option<u64>
    ensures { result ≡ sent_off seat serial event.now }
{
    match *event {
        Event::Submit {
            at,
            seat: from,
            answer: Ok(given),
            ..
        } if from == seat && given == serial => Some(at),
        _ => None,
    }
}

// The moment at which an event collected a trade of the seat, if it did.
fn taken(event: &Event, seat: usize) -> Option<u64>
    ensures { result ≡ taken_off seat event.now }
{
    match *event {
        Event::Collect {
            at,
            seat: from,
            answer: Ok(Kind::Trade),
        } if from == seat => Some(at),
        _ => None,
    }
}

// The line of the tape that an event wrote, if it did.
fn written(event: &Event) -> Option<Line> {
    match *event {
        Event::Release {
            answer: Ok(outcome),
        } => Some(outcome.line),
        _ => None,
    }
}

// When a point reached a seat.
fn reached(events: &[Event], seat: usize, point: u64) -> Option<u64>
    ensures { result ≡ first_answer (handed_out seat point) events.now }
{
    events
        .iter()
        .find_map(|event| handed_out(event, seat, point))
}

// When a trade left its seat.
fn left(events: &[Event], seat: usize, serial: u32) -> Option<u64>
    ensures { result ≡ first_answer (sent_off seat serial) events.now }
{
    events.iter().find_map(|event| sent(event, seat, serial))
}

// When a trade was collected. A seat's trades are collected in the order of their serials, which count from 1.
fn collected(events: &[Event], seat: usize, serial: u32) -> Option<u64>
    ensures { result ≡ nth_answer (taken_off seat) (serial - 1) events.now }
{
    let ahead = serial.saturating_sub(1) as usize;
    events
        .iter()
        .filter_map(|event| taken(event, seat))
        .nth(ahead)
}

// The entry of a line of the tape.
fn entered(events: &[Event], line: &Line) -> Option<Entry>
    ensures { IfSome result (λ e. (e.place ≡ line.now.place) × (e.tick ≡ line.now.trade.trigger) × (e.response ≡ e.left - e.reached)) }
{
    let trade = line.trade;
    let reached = reached(events, trade.seat, trade.trigger)?;
    let left = left(events, trade.seat, trade.serial)?;
    let collected = collected(events, trade.seat, trade.serial)?;
    Some(Entry {
        tick: trade.trigger,
        place: line.place,
        seat: trade.seat,
        serial: trade.serial,
        reached,
        left,
        response: left.saturating_sub(reached),
        collected,
    })
}

// Every order on the tape, in the order of the places.
pub fn entries(heap: Global, events: &[Event]) -> Result<Vec<Entry>, AllocError> {
    events
        .iter()
        .filter_map(written)
        .filter_map(|line| entered(events, &line))
        .collect(heap)
}

// Whether any of the orders answered a tick.
fn is_answered(entries: &[Entry], tick: u64) -> bool {
    entries.iter().any(|entry| entry.tick == tick)
}

// Whether a value never falls from one order that answered a tick to the next.
fn rises<F: Fn(&Entry) -> u64>(entries: &[Entry], tick: u64, value: F) -> bool
    requires { F.IsAlwaysCallable value }
    ensures { (v : Entry → ℕ) → Reads F.Fn value v → (IsTrue result ↔ IsNonDecreasing (map v (answering tick entries.now))) }
{
    entries
        .iter()
        .filter(|entry| entry.tick == tick)
        .is_sorted_by_key(value)
}

// Whether the responses never fall.
fn responses_rise(entries: &[Entry], tick: u64) -> bool
    ensures { IsTrue result ↔ IsNonDecreasing (map (λ e. e.response) (answering tick entries.now)) }
{
    rises(entries, tick, Entry::response)
}

// Whether the moments at which the orders were collected never fall.
fn arrivals_rise(entries: &[Entry], tick: u64) -> bool
    ensures { IsTrue result ↔ IsNonDecreasing (map (λ e. e.collected) (answering tick entries.now)) }
{
    rises(entries, tick, Entry::collected)
}

// The number of the tick that an event brought, if it did.
fn numbered(event: &Event) -> Option<u64> {
    match *event {
        Event::Point {
            answer: Ok(number),
            ..
        } => Some(u64::from(number)),
        _ => None,
    }
}

// How many ticks there were.
fn ticks(events: &[Event]) -> u64 {
    events.iter().filter_map(numbered).last().unwrap_or(0)
}

// A `bool` prints as true or false.
pub fn yes_or_no(test: bool) -> &'static str {
    if test { "yes" } else { "no" }
}

pub fn print(rt: &impl Print, events: &[Event], entries: &[Entry]) -> io::Result<()> {
    println!(rt; "\nThe races: the orders that answered each tick, by their place on the tape")?;
    for tick in 1..=ticks(events) {
        if is_answered(entries, tick) {
            print_race(rt, entries, tick)?;
        } else {
            println!(rt; "\ntick {tick}: no order answered it")?;
        }
    }
    Ok(())
}

fn print_race(rt: &impl Print, entries: &[Entry], tick: u64) -> io::Result<()> {
    println!(rt;
        "\ntick {tick}:\nplace  member  serial  tick reached  order left  response  order collected"
    )?;
    for entry in entries.iter().filter(|entry| entry.tick == tick) {
        print_entry(rt, entry)?;
    }
    println!(rt;
        "in the order of the places: responses {}, arrivals {}",
        yes_or_no(responses_rise(entries, tick)),
        yes_or_no(arrivals_rise(entries, tick))
    )
}

fn print_entry(rt: &impl Print, entry: &Entry) -> io::Result<()> {
    println!(rt;
        "{:>5}  {:>6}  {:>6}  {:>12}  {:>10}  {:>8}  {:>15}",
        entry.place,
        entry.seat,
        entry.serial,
        entry.reached,
        entry.left,
        entry.response,
        entry.collected
    )
}
