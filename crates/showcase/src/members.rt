// The layout of the session: its times, and its members with their lines and their clocks.
use clock::SEATS;
use session::Layout;
use std::alloc::Global;
use std::{array, io};

// A member is handed a batch at most every horizon, and a batch is sealed at most every window.
const HORIZON: u64 = 1_500;

const WINDOW: u64 = 2_000;

// A switch on every line, in both directions, takes so long.
pub const HOP: u32 = 10;

// The exchange looks for messages at the multiples of this.
pub const GAP: u32 = 10;

// A member: what its lines take, from the exchange and to it, and where its clock starts.
pub struct Member {
    pub forward: u32,
    pub reverse: u32,
    pub start: u64,
}

const MEMBERS: [Member; 4] = [
    Member {
        forward: 5,
        reverse: 8,
        start: 0,
    },
    Member {
        forward: 300,
        reverse: 700,
        start: 777_999_999_999,
    },
    // Its clock turns over in the session.
    Member {
        forward: 2_000,
        reverse: 1_500,
        start: 4_294_967_295_999_995_000,
    },
    Member {
        forward: 40_000,
        reverse: 35_000,
        start: 123_456_789_012_345,
    },
];

// What a closure reads of each member, by its seat, and 0 for the seats and links that are not used.
pub fn each<T: From<u32>, F: Fn(&Member) -> T>(read: F) -> [T; SEATS]
    requires { F.IsAlwaysCallable read }
{
    array::from_fn(|seat| match MEMBERS.get(seat) {
        Some(member) => read(member),
        None => T::from(0),
    })
}

// The layout, with a seat for each member.
pub fn lay_out(heap: Global) -> anyhow::Result<Layout> {
    let mut layout = Layout::new(heap)?;
    layout.set_times(HORIZON, WINDOW)?;
    for _member in &MEMBERS {
        layout.add_seat()?;
    }
    Ok(layout)
}

pub fn print(rt: &impl Print) -> io::Result<()> {
    println!(rt;
        "The layout (all times in nanoseconds)\n\nhorizon: {HORIZON}, the least time between two deliveries to one member\nwindow:  {WINDOW}, the least time between two batches\nhop:     {HOP}, added to every line in both directions\ngap:     {GAP}, the exchange looks for messages at its multiples\n\nmember  line from exchange  line to exchange      clock starts at"
    )?;
    for (number, member) in MEMBERS.iter().enumerate() {
        println!(rt;
            "{number:>6}  {:>18}  {:>16}  {:>19}",
            member.forward, member.reverse, member.start
        )?;
    }
    Ok(())
}
