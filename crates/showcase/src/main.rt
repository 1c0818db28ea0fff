// One trading session of four members on lines of very different length, from its opening until it is settled:
//   members  the layout: the times, and each member's line and clock
//   script   the calls, in order
//   stage    the networks, the clock, the lists and the book that the calls are played over
//   record   each call with its answer
//   race     for each tick, the orders that answered it, by their place on the tape
//   deals    the fills, and what became of each order

#![tactic(auto)]

mod deals;
mod members;
mod race;
mod record;
mod script;
mod stage;

use book::Fill;
use lines::Lines;
use order::Played;
use race::{Entry, yes_or_no};
use stage::FILLS;
use std::alloc::Global;
use std::io;

fn main(rt: HostRuntime) -> anyhow::Result<()> {
    run(&rt, rt.alloc())
}

// Plays the session, and prints what is to be seen of it.
fn run(rt: &impl Print, heap: Global) -> anyhow::Result<()> {
    members::print(rt)?;
    let layout = members::lay_out(heap)?;
    let calls = script::calls(heap)?;
    let mut lines = [Fill::default(); FILLS];
    let mut list = Lines::new(&mut lines);
    let played = stage::play(heap, layout, &mut list, &calls)?;
    let entries = race::entries(heap, &played.events)?;
    report(rt, &played, &entries, list.written())?;
    Ok(())
}

// Prints what became of the session.
fn report(rt: &impl Print, played: &Played, entries: &[Entry], fills: &[Fill]) -> io::Result<()> {
    record::print(rt, &played.events)?;
    race::print(rt, &played.events, entries)?;
    println!(rt; "\nsettled: {}", yes_or_no(played.session.settled()))?;
    deals::print_fills(rt, fills)?;
    deals::print_orders(rt, &played.events, fills)
}
