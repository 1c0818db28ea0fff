ghost use Rattle.std.specs.Prelude.{◌≡◌, ℕ, ◌<◌, true, false, MatchOption};
ghost use Rattle.network.specs.Network.{is_waiting};
ghost use Rattle.demo.specs.Line.{HandedOut, Held};

use clock::StopClock;
use network::Network;

// A record that was handed out: when it arrived, and the time since the last hand-out by the member's own clock.
#[derive(Clone, Copy)]
pub struct HandOut<R> {
    pub item: R,
    pub arrived: u64,
    pub since: u64,
}

// When the first record of a link arrived, if it has by `at`.
pub fn arrival<R, N: Network<R>>(net: &N, link: usize, at: u64) -> Option<u64>
    ensures { MatchOption result (is_waiting (N.Network.meaning net.now) link at ≡ false) (λ a. (is_waiting (N.Network.meaning net.now) link a ≡ true) × ((m : ℕ) → m < a → is_waiting (N.Network.meaning net.now) link m ≡ false)) }
{
    if !net.waiting(link, at) {
        return None;
    }
    for moment in (0..at).rev() {
        if !net.waiting(link, moment) {
            return Some(moment + 1);
        }
    }
    Some(0)
}

// Hands the first record of a member's line out and marks the member's clock, if the record has arrived and the member
// has had the last one for at least `pace`.
pub fn hand_out<R, N: Network<R>, C: StopClock>(
    net: &mut N,
    clock: &mut C,
    member: usize,
    pace: u64,
    at: u64,
) -> Option<HandOut<R>>
    ensures { MatchOption result (Held (N.Network.meaning net.old) (N.Network.meaning net.new) (C.StopClock.meaning clock.old) (C.StopClock.meaning clock.new) member pace at) (λ h. HandedOut (N.Network.meaning net.old) (N.Network.meaning net.new) (C.StopClock.meaning clock.old) (C.StopClock.meaning clock.new) member pace at h.item h.arrived h.since) }
{
    let since = clock.since(member, at);
    if since < pace {
        return None;
    }
    let arrived = arrival(net, member, at)?;
    let item = net.take(member, at)?;
    clock.mark(member, at);
    Some(HandOut {
        item,
        arrived,
        since,
    })
}
