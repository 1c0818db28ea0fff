ghost use Rattle.std.specs.Prelude.{◌≡◌, ◌+◌, ◌≤◌, length};
ghost use Rattle.heap.specs.Heaps.{Heaped};
ghost use Rattle.records.specs.Trade.{TradeUpto};
ghost use Rattle.session.specs.Balance.{FewPending, FewTrades, SentFirst, Tallied, buffer_room};
ghost use Rattle.session.specs.Opening.{most_seats};
ghost use Rattle.session.specs.Point.{points_room};

use crate::state::State;

mod beat;
mod collect;
mod deliver;
mod end;
mod over;
mod point;
mod release;
mod seal;
mod settled;
mod submit;

// An open session. Its calls are over any networks and any stop-clock; the point list and the tape are the caller's.
#[derive(Drop)]
pub struct Session {
    state: State,
    // The seats' counts agree with the buffer, so that its room suffices.
    ghost few: { length state.seats.items ≤ most_seats },
    ghost tallied: { Tallied state.seats.items state.buffer },
    ghost sent: { SentFirst state.seats.items },
    ghost pending: { FewPending state.seats.items },
    ghost trades: { FewTrades state.seats.items },
    // The buffer never holds more than it has room for.
    ghost room: { length state.buffer ≤ buffer_room },
    // The buffer stands by rank.
    ghost ranked: { Heaped TradeUpto state.buffer },
    // Each batch has a point at least.
    ghost points: { state.market.points ≤ points_room },
    ghost counted: { state.market.batches + state.market.unsealed ≤ state.market.points },
}
