ghost use Rattle.std.specs.Prelude.{◌≡◌, ◌≤◌};
ghost use Rattle.network.specs.Network.{Net, Sends, Takes, has_room, is_waiting, limit};

// A network has so many links, numbered from 0.
pub const LINKS: usize = 16;

// Moments are below this. An arrival of this or more counts as this.
pub const END: u64 = 1 << 48;

// Sixteen links, each of which hands its records on in the order in which they were sent.
pub trait Network<R> {
    // What the network holds.
    ghost meaning: { Self → Net R };

    // How many records a link holds at most.
    fn capacity(&self) -> usize
        ensures value { result ≡ (meaning self.now).capacity }
        ensures bound { result ≤ 64 };

    // How long after the later of its sending and the last arrival a record arrives at most.
    fn longest_delay(&self) -> u64
        ensures value { result ≡ (meaning self.now).longest }
        ensures bound { result ≤ limit };

    // Whether a link takes one more record.
    fn room(&self, link: usize) -> bool
        ensures { result ≡ has_room (meaning self.now) link };

    // Sends a record at a moment, or hands it back.
    fn send(&mut self, link: usize, moment: u64, item: R) -> Result<(), R>
        ensures { Sends (meaning self.old) link moment item result (meaning self.new) };

    // Whether the first record of a link has arrived.
    fn waiting(&self, link: usize, moment: u64) -> bool
        ensures { result ≡ is_waiting (meaning self.now) link moment };

    // Takes the first record of a link, if it has arrived.
    fn take(&mut self, link: usize, moment: u64) -> Option<R>
        ensures { Takes (meaning self.old) link moment result (meaning self.new) };
}
