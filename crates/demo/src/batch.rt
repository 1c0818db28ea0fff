ghost use Rattle.std.specs.Prelude.{◌≡◌};
ghost use Rattle.demo.specs.Batch.{come, cut_of};

// A stretch of consecutive ticks: its number, the number of its first tick, both from 1, how many there are, and when it
// was sent.
#[derive(Clone, Copy, Default)]
pub struct Batch {
    pub number: u64,
    pub first: usize,
    pub count: usize,
    pub sent: u64,
}

// How many of some ticks, in the order of their moments, have come by a moment.
fn come_by(ticks: &[u64], at: u64) -> usize
    ensures { result ≡ come ticks.now at }
{
    ticks.iter().take_while(|tick| **tick <= at).count()
}

// The batch that leaves at a moment: the ticks that have come by then, after the first `done`, if there are any.
pub fn cut(ticks: &[u64], done: usize, number: u64, at: u64) -> Option<Batch>
    ensures { result ≡ cut_of ticks.now done number at }
{
    let come = come_by(ticks, at);
    if come <= done {
        return None;
    }
    Some(Batch {
        number,
        first: done + 1,
        count: come - done,
        sent: at,
    })
}
