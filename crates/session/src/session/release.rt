ghost use Rattle.std.specs.Prelude.{◌≡◌, ℕ};
ghost use Rattle.network.specs.Network.{Net};
ghost use Rattle.lines.specs.Pages.{Page, page};
ghost use Rattle.session.specs.Release.{Releases};
ghost use Rattle.session.specs.Ticket.{lined};
ghost use Rattle.session.specs.World.{world};

use super::Session;
use crate::ticket::Ticket;
use lines::Lines;
use records::{Batch, Line, Message, Refusal};

impl Session {
    // Writes the buffer's first trade on the tape and hands out its ticket, once every other seat's watermark is above its
    // tag.
    pub fn release(&mut self, tape: &mut Lines<Line>) -> Result<Ticket, Refusal>
        ensures released { (f : Net Batch) (b : Net Message) (c : ℕ → ℕ) (p : Page ℕ) → Releases (world self.old.state f b c p (page tape.old)) (lined result) (world self.new.state f b c p (page tape.new)) }
        ensures same { tape.new.lines.ghost_name ≡ tape.old.lines.ghost_name }
    {
        let Some(head) = self.state.buffer.head() else {
            return Err(Refusal::BufferEmpty);
        };
        if let Some(seat) = self.state.holder(&head) {
            return Err(Refusal::HeldUp {
                seat,
                batch: head.tag.batch,
            });
        }
        let Some(place) = tape.next_place() else {
            return Err(Refusal::TapeFull);
        };
        let line = Line {
            place: place as u64,
            trade: head,
        };
        self.state.buffer.take(head);
        let _ = tape.write(line);
        self.state.seat_mut(head.seat).count_released();
        Ok(Ticket::of(line))
    }
}
