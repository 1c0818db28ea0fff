use records::Offer;

// One call of a session, with its moment and its arguments. It is a value and no closure, since the law speaks of lists of
// calls.
#[derive(Clone, Copy, Debug, PartialEq, Eq)]
pub enum Call {
    Point { at: u64, value: u64 },
    Seal { at: u64 },
    Deliver { at: u64, seat: usize },
    Submit { at: u64, seat: usize, offer: Offer },
    Beat { at: u64, seat: usize },
    End { at: u64, seat: usize },
    Collect { at: u64, seat: usize },
    Release,
}
