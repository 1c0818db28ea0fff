ghost use Rattle.std.specs.Prelude.{◌≡◌, ◌<◌, length, nat_le, slice_index_or};
ghost use Rattle.network.specs.Network.{Unused};
ghost use Rattle.network.specs.Ring.{Counted, Early, blank, ring_size};

use crate::delays::Delays;
use crate::network::{END, LINKS, Network};
use crate::part::{Part, ring_size};
use crate::ring::Ring;

// A place for a record on its way, with its arrival.
#[derive(Clone, Copy, Debug, Default, PartialEq, Eq)]
pub struct Slot<R> {
    pub arrival: u64,
    pub item: R,
}

impl<R> Slot<R> {
    fn has_arrived(&self, moment: u64) -> bool
        ensures { result ≡ nat_le self.now.arrival moment }
    {
        self.arrival <= moment
    }
}

// A network that keeps its records in a list of the caller's, in a ring for each link. The rings are no `VecDeque`s: they
// share the fixed memory that the caller lends.
#[derive(Drop)]
pub struct Rings<'a, R, D> {
    slots: &'a mut [Slot<R>],
    rings: [Ring; LINKS],
    delays: D,
    // No ring counts more records than it has slots, and no last arrival is past `END`.
    ghost counted: { Counted rings (ring_size (length slots.now)) },
    ghost early: { Early rings },
}

impl<'a, R, D: Delays> Rings<'a, R, D> {
    ghost use Rattle.network.specs.Rings.{rings_net, unused};

    // An unused network. Its links share the slots evenly.
    #[tactic(auto, using(crate::proofs::Places::ringed_fresh))]
    pub(crate) fn with_delays(slots: &'a mut [Slot<R>], delays: D) -> Rings<'a, R, D>
        ensures net { rings_net D.Delays.delay D.Delays.longest result ≡ unused (length slots.old) (D.Delays.delay delays) (D.Delays.longest delays) }
        ensures idle { Unused (rings_net D.Delays.delay D.Delays.longest result) }
    {
        Rings {
            slots,
            rings: [Ring::default(); LINKS],
            delays,
        }
    }
}

impl<'a, R: Copy, D> Rings<'a, R, D> {
    ghost use Rattle.network.specs.Rings.{First};

    // The slot of a link's first record, if it has one.
    #[tactic(auto, using(crate::proofs::Places::ring_ahead, crate::proofs::Places::ring_empty))]
    fn first(&self, link: usize) -> Option<Slot<R>>
        ensures { First self.now.slots.now (ring_size (length self.now.slots.now)) link (slice_index_or self.now.rings link blank) result }
    {
        let part = Part::of(self.slots.len(), link)?;
        let ring = self.rings[link];
        if ring.is_empty() {
            return None;
        }
        Some(self.slots[ring.oldest(part)])
    }
}

impl<'a, R: Copy, D: Delays> Network<R> for Rings<'a, R, D> {
    ghost use Rattle.network.specs.Rings.{rings_net};

    ghost meaning = { rings_net D.Delays.delay D.Delays.longest };

    fn capacity(&self) -> usize {
        ring_size(self.slots.len())
    }

    fn longest_delay(&self) -> u64 {
        u64::from(self.delays.longest())
    }

    #[tactic(auto, using(crate::proofs::Places::ring_holds))]
    fn room(&self, link: usize) -> bool {
        match Part::of(self.slots.len(), link) {
            Some(part) => self.rings[link].has_room(part),
            None => false,
        }
    }

    #[tactic(auto, using(crate::proofs::Places::ring_holds))]
    fn send(&mut self, link: usize, moment: u64, item: R) -> Result<(), R> {
        let Some(part) = Part::of(self.slots.len(), link) else {
            return Err(item);
        };
        let ring = self.rings[link];
        if moment >= END || !ring.has_room(part) {
            return Err(item);
        }
        let ready = moment + u64::from(self.delays.next(link));
        let (arrival, longer) = ring.send(ready);
        self.slots[ring.free(part)] = Slot { arrival, item };
        self.rings[link] = longer;
        Ok(())
    }

    fn waiting(&self, link: usize, moment: u64) -> bool {
        moment < END
            && self
                .first(link)
                .is_some_and(|first| first.has_arrived(moment))
    }

    #[tactic(auto, using(crate::proofs::Places::ringed_taken))]
    fn take(&mut self, link: usize, moment: u64) -> Option<R> {
        let first = self.first(link)?;
        let part = Part::of(self.slots.len(), link)?;
        if moment >= END || !first.has_arrived(moment) {
            return None;
        }
        self.rings[link] = self.rings[link].take(part);
        Some(first.item)
    }
}
