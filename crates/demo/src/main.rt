// A run through the lower layers, in two parts: market data on its way to the members, and orders in the book.

#![tactic(auto)]

mod batch;
mod line;
mod market;
mod trading;

fn main(rt: HostRuntime) -> anyhow::Result<()> {
    market::run(&rt)?;
    println!(rt; "")?;
    trading::run(&rt, rt.alloc())
}
