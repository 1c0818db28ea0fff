// Sending a batch to the seats.
ghost use Rattle.std.specs.Prelude.{◌≡◌, ℕ, ◌<◌, true, false, not, ◌&&◌, length};
ghost use Rattle.network.specs.Network.{accepts, has_room, limit};
ghost use Rattle.records.specs.Seat.{is_ended};
ghost use Rattle.session.specs.Seal.{Dealt, SentIf, crowded, due, lowest};

use super::State;
use crate::post::post;
use network::Network;
use records::{Batch, Seat};

// Sends a batch to one seat, unless it has ended.
fn deal_one<F: Network<Batch>>(forward: &mut F, link: usize, seat: &Seat, at: u64, batch: Batch)
    requires { not (is_ended seat.now.condition) ≡ true → accepts (F.Network.meaning forward.old) link at ≡ true }
    ensures { SentIf (not (is_ended seat.now.condition)) (F.Network.meaning forward.old) (F.Network.meaning forward.new) link at batch }
{
    if !seat.ended() {
        post(forward, link, at, batch);
    }
}

// Whether a batch is due to a seat whose link has no room.
fn is_crowded<F: Network<Batch>>(forward: &F, link: usize, seat: &Seat) -> bool
    ensures { result ≡ (not (is_ended seat.now.condition) && not (has_room (F.Network.meaning forward.now) link)) }
{
    !seat.ended() && !forward.room(link)
}

impl State {
    // The lowest seat that a batch is due to and whose link has no room.
    pub fn lowest_crowded<F: Network<Batch>>(&self, forward: &F) -> Option<usize>
        ensures { result ≡ lowest (crowded self.now.seats.items (F.Network.meaning forward.now)) (length self.now.seats.items) }
    {
        // `find` over the places was tried, and got no proof.
        for (k, seat) in self.seats.iter().enumerate() {
            if is_crowded(forward, k, seat) {
                return Some(k);
            }
        }
        None
    }

    // Sends a batch to every seat that has not ended.
    pub fn deal<F: Network<Batch>>(&self, forward: &mut F, at: u64, batch: Batch)
        requires timely { at < limit }
        requires room { (k : ℕ) → crowded self.now.seats.items (F.Network.meaning forward.old) k ≡ false }
        ensures { Dealt (due self.now.seats.items) (F.Network.meaning forward.old) (F.Network.meaning forward.new) at batch }
    {
        for (k, seat) in self.seats.iter().enumerate() {
            deal_one(forward, k, seat, at, batch);
        }
    }
}
