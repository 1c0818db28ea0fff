ghost use Rattle.std.specs.Prelude.{◌≡◌};
ghost use Rattle.records.specs.Flaw.{flaw_number};

use std::error::Error;
use std::fmt;

// Why a layout could not be changed.
#[derive(Clone, Copy, Debug, PartialEq, Eq)]
pub enum Flaw {
    // The horizon is 0 or too long.
    Horizon,
    // The window is not longer than the horizon, or is too long.
    Window,
    // There are as many seats as there may be.
    Seats,
}

impl Flaw {
    // The flaw's number, which the rules give each.
    pub fn number(&self) -> u32
        ensures { result ≡ flaw_number self.now }
    {
        match *self {
            Flaw::Horizon => 1,
            Flaw::Window => 2,
            Flaw::Seats => 3,
        }
    }
}

impl fmt::Display for Flaw {
    ghost use Rattle.std.specs.Prelude.{Some};
    ghost use Rattle.records.specs.Flaw.{flaw_reason};

    ghost output = { λ flaw. Some (flaw_reason flaw) };

    fn fmt<W: fmt::Write>(&self, f: &mut fmt::Formatter<W>) -> fmt::Result {
        f.pad(match *self {
            Flaw::Horizon => "the horizon is 0 or too long",
            Flaw::Window => "the window is not longer than the horizon, or is too long",
            Flaw::Seats => "there are as many seats as there may be",
        })
    }
}

impl Error for Flaw {}
