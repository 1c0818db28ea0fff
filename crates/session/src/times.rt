ghost use Rattle.std.specs.Prelude.{◌≡◌, ◌^◌, ◌<◌, ◌≤◌, MatchResult, Err};

use records::Flaw;

// The longest horizon and the longest window.
const MOST_HORIZON: u64 = 1 << 32;

const MOST_WINDOW: u64 = 1 << 33;

// The least time between two deliveries to one seat, and between two seals.
#[derive(Clone, Copy)]
pub struct Times {
    pub horizon: u64,
    pub window: u64,
    ghost some: { 1 ≤ horizon },
    ghost apart: { horizon < window },
    ghost near: { horizon ≤ 2 ^ 32 },
    ghost far: { window ≤ 2 ^ 33 },
}

impl Times {
    ghost use Rattle.session.specs.Times.{Timed, times_answer};

    // These times, or why they can't be.
    pub fn new(horizon: u64, window: u64) -> Result<Times, Flaw>
        ensures { Timed horizon window result }
    {
        if horizon == 0 || horizon > MOST_HORIZON {
            return Err(Flaw::Horizon);
        }
        if window <= horizon || window > MOST_WINDOW {
            return Err(Flaw::Window);
        }
        Ok(Times { horizon, window })
    }

    // Horizon 1 and window 2.
    pub fn shortest() -> Times
        ensures horizon { result.horizon ≡ 1 }
        ensures window { result.window ≡ 2 }
    {
        Times {
            horizon: 1,
            window: 2,
        }
    }
}
