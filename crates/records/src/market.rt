ghost use Rattle.std.specs.Prelude.{◌≡◌, ◌<◌};
ghost use Rattle.records.specs.Market.{open_batch, sealed_lately, sealed_once};

use crate::batch::Batch;

// How far the market data has come: the points so far, those of them in the open batch, the batches sealed, and the moment
// of the last seal.
#[derive(Clone, Copy, Debug, PartialEq, Eq)]
pub struct Market {
    pub points: u32,
    pub unsealed: u32,
    pub batches: u32,
    pub last_seal: Option<u64>,
}

impl Market {
    // Whether less than the window has passed since the last seal.
    pub fn sealed_lately(&self, window: u64, at: u64) -> bool
        ensures { result ≡ sealed_lately self.now window at }
    {
        self.last_seal
            .is_some_and(|sealed| at.saturating_sub(sealed) < window)
    }

    // The open batch, with the number that it will have.
    pub fn open_batch(&self) -> Batch
        requires { (self.now.points < 1000000) × (self.now.batches < 1000000) }
        ensures { result ≡ open_batch self.now }
    {
        Batch {
            number: self.batches + 1,
            first: self.points.saturating_sub(self.unsealed) + 1,
            count: self.unsealed,
        }
    }

    // The market once the open batch is sealed.
    pub fn sealed(&self, at: u64) -> Market
        requires { self.now.batches < 1000000 }
        ensures { result ≡ sealed_once self.now at }
    {
        Market {
            points: self.points,
            unsealed: 0,
            batches: self.batches + 1,
            last_seal: Some(at),
        }
    }
}
