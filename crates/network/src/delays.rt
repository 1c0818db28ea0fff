ghost use Rattle.std.specs.Prelude.{◌≡◌, ℕ, ◌+◌, ◌%◌, ◌<◌, ◌≤◌, length, if◌then◌else◌, nat_eq, slice_index};
ghost use Rattle.network.specs.Delays.{Next, entry, fixed_delay, greatest, recorded_delay, recorded_longest};

use crate::network::LINKS;

// Where a network takes the delays of its records from.
pub trait Delays {
    // The delay of the nth record that a link accepts from now on.
    ghost delay: { Self → ℕ → ℕ → ℕ };

    ghost longest: { Self → ℕ };

    // The greatest delay.
    fn longest(&self) -> u32
        ensures { result ≡ longest self.now };

    // The delay of the record that a link accepts now, 0 where there is no such link. No `Option`: a network asks only for
    // a link that it has, and would take it apart for nothing.
    fn next(&mut self, link: usize) -> u32
        ensures link { link < 16 → Next (delay self.old) (delay self.new) link result }
        ensures none { 16 ≤ link → (result ≡ 0) × (self.new ≡ self.old) }
        ensures within { result ≤ longest self.old }
        ensures same { longest self.new ≡ longest self.old };
}

// One delay for each link.
impl Delays for [u32; LINKS] {
    ghost delay = { fixed_delay };

    ghost longest = { greatest };

    fn longest(&self) -> u32 {
        greatest_of(self)
    }

    #[tactic(auto, using(crate::proofs::Entries::within_greatest))]
    fn next(&mut self, link: usize) -> u32 {
        self.get(link).copied().unwrap_or(0)
    }
}

// A recorded list of delays, which each link goes through from its start, again and again.
#[derive(Clone, Copy)]
pub struct Recording<'a> {
    delays: &'a [u32],
    at: [usize; LINKS],
}

impl<'a> Recording<'a> {
    pub(crate) fn new(delays: &'a [u32]) -> Recording<'a>
        ensures delays { result.delays.now ≡ delays.now }
        ensures start { recorded_delay result ≡ (λ _ nth. entry delays.now nth) }
    {
        Recording {
            delays,
            at: [0; LINKS],
        }
    }
}

impl<'a> Delays for Recording<'a> {
    ghost delay = { recorded_delay };

    ghost longest = { recorded_longest };

    fn longest(&self) -> u32 {
        greatest_of(self.delays)
    }

    fn next(&mut self, link: usize) -> u32 {
        if link >= LINKS {
            return 0;
        }
        let at = self.at[link];
        self.at[link] = following(at, self.delays.len());
        entry_at(self.delays, at)
    }
}

// The delay at a place of a list that starts anew at its end, 0 of an empty one.
#[tactic(auto, using(crate::proofs::Entries::entry_none, crate::proofs::Entries::within_greatest))]
fn entry_at(delays: &[u32], at: usize) -> u32
    ensures value { result ≡ entry delays.now at }
    ensures within { result ≤ greatest delays.now }
{
    if delays.is_empty() {
        0
    } else {
        delays[at % delays.len()]
    }
}

// The place after `at` in a list of this length, which starts anew at its end.
fn following(at: usize, len: usize) -> usize
    ensures { result ≡ (if nat_eq len 0 then 0 else at % len + 1) }
{
    if len == 0 { 0 } else { at % len + 1 }
}

// The greatest of some delays, 0 of none.
fn greatest_of(delays: &[u32]) -> u32
    ensures { result ≡ greatest delays.now }
{
    delays.iter().copied().max().unwrap_or(0)
}
