ghost use Rattle.std.specs.Prelude.{◌≡◌, ℕ, IfOk};
ghost use Rattle.network.specs.Network.{Net};
ghost use Rattle.lines.specs.Pages.{Page};
ghost use Rattle.session.specs.Layout.{first_plan, plan, seat_answer, with_seat_more, with_times};
ghost use Rattle.session.specs.Opening.{Laid, opened};
ghost use Rattle.session.specs.Times.{times_answer};
ghost use Rattle.session.specs.World.{world};

use super::Layout;
use crate::buffer::Buffer;
use crate::session::Session;
use crate::state::State;
use crate::times::Times;
use records::{Batch, Flaw, Line, Market, Message, Seat};
use std::alloc::{AllocError, Global};

// A layout has so many seats at most.
const MOST_SEATS: usize = 16;

impl Layout {
    // A layout with horizon 1, window 2 and no seats.
    pub fn new(heap: Global) -> Result<Layout, AllocError>
        ensures { IfOk result (λ l. plan l ≡ first_plan) }
    {
        let seats = Vec::with_capacity(heap, MOST_SEATS)?;
        let buffer = Buffer::new(heap)?;
        Ok(Layout {
            times: Times::shortest(),
            seats,
            buffer,
        })
    }

    // Sets the least time between two deliveries to one seat, and between two seals.
    pub fn set_times(&mut self, horizon: u64, window: u64) -> Result<(), Flaw>
        ensures answer { result ≡ times_answer horizon window }
        ensures after { plan self.new ≡ with_times (plan self.old) horizon window result }
    {
        self.times = Times::new(horizon, window)?;
        Ok(())
    }

    // Adds a seat, and answers its number.
    pub fn add_seat(&mut self) -> Result<usize, Flaw>
        ensures answer { result ≡ seat_answer (plan self.old) }
        ensures after { plan self.new ≡ with_seat_more (plan self.old) result }
    {
        let seat = self.seats.len();
        if seat >= MOST_SEATS {
            return Err(Flaw::Seats);
        }
        self.seats.push_reserved(Seat::new());
        Ok(seat)
    }

    // Opens the session. The layout is used up, so no seat can be added afterwards.
    pub fn open(self) -> Session
        ensures world { (f : Net Batch) (b : Net Message) (c : ℕ → ℕ) (p : Page ℕ) (t : Page Line) → world result.state f b c p t ≡ opened (plan self) f b c p t }
        ensures laid { Laid (plan self) }
    {
        let Layout {
            times,
            seats,
            buffer,
        } = self;
        let state = State {
            times,
            last: 0,
            market: Market {
                points: 0,
                unsealed: 0,
                batches: 0,
                last_seal: None,
            },
            seats,
            buffer,
        };
        Session::over(state)
    }
}
