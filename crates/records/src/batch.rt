ghost use Rattle.std.specs.Prelude.{◌≡◌, ◌+◌, ◌-◌};

// Consecutive points of market data, as they are sent to a seat. Points and batches are numbered from 1.
#[derive(Clone, Copy, Debug, Default, PartialEq, Eq)]
pub struct Batch {
    pub number: u32,
    pub first: u32,
    pub count: u32,
}

impl Batch {
    // The number of its last point.
    pub fn last_point(&self) -> u64
        ensures { result ≡ self.now.first + self.now.count - 1 }
    {
        (u64::from(self.first) + u64::from(self.count)).saturating_sub(1)
    }
}
