ghost use Rattle.std.specs.Prelude.{◌≡◌, ◌+◌, ◌*◌, ◌%◌, ◌<◌, ◌≤◌, MatchOption};
ghost use Rattle.network.specs.Ring.{ring_size};

use crate::network::LINKS;

// A ring has a sixteenth of the slots, and 64 at most.
pub(crate) fn ring_size(slots: usize) -> usize
    ensures value { result ≡ ring_size slots }
    ensures bound { result ≤ 64 }
    ensures fit { 16 * result ≤ slots }
{
    (slots / LINKS).min(64)
}

// One link's part of the slots: so many, after those of the links before it.
#[derive(Clone, Copy)]
pub(crate) struct Part {
    pub(crate) link: usize,
    pub(crate) size: usize,
    // There is such a link, and it has a slot, and 64 at most.
    ghost known: { link < 16 },
    ghost some: { 0 < size },
    ghost few: { size ≤ 64 },
}

impl Part {
    // The part that a link has of so many slots, if there is such a link and a slot for it.
    pub(crate) fn of(slots: usize, link: usize) -> Option<Part>
        ensures { MatchOption result (link < 16 → ring_size slots ≡ 0) (λ p. (p.link ≡ link) × (p.size ≡ ring_size slots)) }
    {
        let size = ring_size(slots);
        if link >= LINKS || size == 0 {
            return None;
        }
        Some(Part { link, size })
    }

    // The slot that the link's ring comes to after so many steps.
    #[tactic(auto, using(crate::proofs::Places::place_below))]
    pub(crate) fn slot(self, steps: usize) -> usize
        ensures value { result ≡ self.link * self.size + steps % self.size }
        ensures bound { result < 16 * self.size }
    {
        self.link * self.size + steps % self.size
    }
}
