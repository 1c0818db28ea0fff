use crate::trade::Trade;

// One line of the tape: a released trade, and its place there, counted from 1.
#[derive(Clone, Copy, Debug, Default, PartialEq, Eq)]
pub struct Line {
    pub place: u64,
    pub trade: Trade,
}
