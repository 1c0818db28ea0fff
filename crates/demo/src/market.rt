// Market data on its way to four members: ticks are cut into batches, each batch is carried over every member's line,
// and is handed out no sooner than the pace after the one before, by the member's own clock.
use crate::batch::{Batch, cut};
use crate::line::{HandOut, hand_out};
use clock::{OffsetClock, SEATS, SplitClock, StopClock};
use network::{Fixed, Hop, LINKS, Network, Poll, Slot, Trace};
use std::io;

// The moments of the ticks.
const TICKS: [u64; 12] = [3, 4, 9, 31, 33, 58, 61, 62, 64, 95, 120, 121];

// Batches leave at the multiples of the window, and a member is handed one at most every pace.
const WINDOW: u64 = 30;

const PACE: u64 = 25;

// How long the run goes on.
const UNTIL: u64 = 600;

// The lines of members 0 to 2, and what was recorded on member 3's.
const LENGTHS: [u32; LINKS] = [5, 40, 150, 0, 0, 0, 0, 0, 0, 0, 0, 0, 0, 0, 0, 0];

const RECORDED: [u32; 3] = [30, 210, 10];

// Clocks that turn over in the run: the first after a nanosecond, the second after a hundred.
const OFFSET_START: u64 = u64::MAX;

const SPLIT_START: u64 = 4_294_967_295_999_999_900;

// Sends a batch to a member.
fn carry<N: Network<Batch>>(
    rt: &impl Print,
    net: &mut N,
    member: usize,
    at: u64,
    batch: Batch,
) -> io::Result<()> {
    match net.send(member, at, batch) {
        Ok(()) => Ok(()),
        Err(back) => println!(rt; "{member:>6} {:>6} no room", back.number),
    }
}

// A line of the table, if the member is handed a batch at this moment.
fn serve<N: Network<Batch>, C: StopClock>(
    rt: &impl Print,
    net: &mut N,
    clock: &mut C,
    member: usize,
    at: u64,
) -> io::Result<()> {
    match hand_out(net, clock, member, PACE, at) {
        Some(
            HandOut {
                item,
                arrived,
                since,
            },
        ) => {
            let Batch {
                number,
                first,
                count,
                sent,
            } = item;
            println!(rt;
                "{member:>6} {number:>6} {first:>6} {count:>6} {sent:>6} {arrived:>8} {at:>11} {since:>6}"
            )
        }
        None => Ok(()),
    }
}

// The run: batches are cut and sent, and handed out as they arrive.
pub fn run(rt: &impl Print) -> io::Result<()> {
    let mut slots = [Slot::default(); 128];
    let mut lines = Poll::new(Hop::new(Fixed::new(&mut slots, LENGTHS), 4), 8);
    let mut traced = [Slot::default(); 128];
    let mut recorded = Trace::new(&mut traced, &RECORDED);
    let mut offset = OffsetClock::new([OFFSET_START; SEATS]);
    let mut split = SplitClock::new([SPLIT_START; SEATS]);
    println!(rt; "member  batch  first  ticks   sent  arrived  handed out  since")?;
    let mut done = 0;
    let mut number = 1;
    for at in 0..UNTIL {
        if at % WINDOW == 0 {
            if let Some(batch) = cut(&TICKS, done, number, at) {
                for member in 0..3 {
                    carry(rt, &mut lines, member, at, batch)?;
                }
                carry(rt, &mut recorded, 3, at, batch)?;
                done = done.saturating_add(batch.count);
                number = number.saturating_add(1);
            }
        }
        serve(rt, &mut lines, &mut offset, 0, at)?;
        serve(rt, &mut lines, &mut split, 1, at)?;
        serve(rt, &mut lines, &mut offset, 2, at)?;
        serve(rt, &mut recorded, &mut split, 3, at)?;
    }
    Ok(())
}
