ghost use Rattle.std.specs.Prelude.{ℕ};
ghost use Rattle.network.specs.Network.{Net};
ghost use Rattle.lines.specs.Pages.{Page};
ghost use Rattle.session.specs.Submit.{Submits};
ghost use Rattle.session.specs.World.{world};

use super::Session;
use clock::StopClock;
use network::Network;
use records::{Batch, Line, Message, Offer, Refusal, SeatCall, Trade};

impl Session {
    // Sends a trade with the seat's tag to the exchange, and answers its serial.
    pub fn submit<R: Network<Message>, C: StopClock>(
        &mut self,
        reverse: &mut R,
        clock: &C,
        at: u64,
        seat: usize,
        offer: Offer,
    ) -> Result<u32, Refusal>
        ensures { (f : Net Batch) (p : Page ℕ) (t : Page Line) → Submits (world self.old.state f (R.Network.meaning reverse.old) (C.StopClock.meaning clock.now) p t) at seat offer result (world self.new.state f (R.Network.meaning reverse.new) (C.StopClock.meaning clock.now) p t) }
    {
        self.state.timely(Some(seat), at)?;
        let record = self.state.seat(seat)?;
        record.turn(seat, SeatCall::Submit)?;
        record.check(seat, &offer)?;
        let serial = record.submitted + 1;
        let tag = record.tag(clock.since(seat, at));
        let trade = Trade {
            seat,
            serial,
            tag,
            trigger: offer.trigger,
            side: offer.side,
            price: offer.price as u32,
            quantity: offer.quantity as u32,
        };
        reverse
            .send(seat, at, Message::Trade(trade))
            .map_err(|_| Refusal::ReverseFull { seat })?;
        self.state.last = at;
        Ok(self.state.seat_mut(seat).count_submitted())
    }
}
