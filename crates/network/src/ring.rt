ghost use Rattle.std.specs.Prelude.{◌≡◌, ◌*◌, ◌<◌, nat_eq, nat_lt};
ghost use Rattle.network.specs.Network.{capped, earliest};
ghost use Rattle.network.specs.Ring.{place, ring_sent, ring_taken};

use crate::network::END;
use crate::part::Part;

// One link's ring: where its oldest record lies, how many it holds, and the last arrival that it gave.
#[derive(Clone, Copy, Default)]
pub(crate) struct Ring {
    head: u8,
    count: u8,
    last: Option<u64>,
}

impl Ring {
    pub(crate) fn has_room(self, part: Part) -> bool
        ensures { result ≡ nat_lt self.count part.size }
    {
        usize::from(self.count) < part.size
    }

    pub(crate) fn is_empty(self) -> bool
        ensures { result ≡ nat_eq self.count 0 }
    {
        self.count == 0
    }

    // The slot of the oldest record.
    pub(crate) fn oldest(self, part: Part) -> usize
        ensures value { result ≡ place part.size part.link self.head 0 }
        ensures bound { result < 16 * part.size }
    {
        part.slot(usize::from(self.head))
    }

    // The slot for the next record.
    pub(crate) fn free(self, part: Part) -> usize
        ensures value { result ≡ place part.size part.link self.head self.count }
        ensures bound { result < 16 * part.size }
    {
        part.slot(usize::from(self.head) + usize::from(self.count))
    }

    // The arrival of one record more, which is ready at a moment and does not overtake, and the ring with it.
    pub(crate) fn send(self, ready: u64) -> (u64, Ring)
        requires { self.count < 64 }
        ensures arrival { result.0 ≡ capped (earliest ready self.last) }
        ensures ring { result.1 ≡ ring_sent self result.0 }
    {
        let arrival = ready.max(self.last.unwrap_or(0)).min(END);
        (
            arrival,
            Ring {
                head: self.head,
                count: self.count + 1,
                last: Some(arrival),
            },
        )
    }

    // The ring without its oldest record.
    pub(crate) fn take(self, part: Part) -> Ring
        requires { 0 < self.count }
        ensures { result ≡ ring_taken self part.size }
    {
        let head = (usize::from(self.head) + 1) % part.size;
        Ring {
            head: head as u8,
            count: self.count - 1,
            last: self.last,
        }
    }
}
