ghost use Rattle.std.specs.Prelude.{◌≡◌, MatchResult};
ghost use Rattle.lines.specs.Pages.{page};
ghost use Rattle.session.specs.World.{world};
ghost use Rattle.order.specs.Booking.{desk};
ghost use Rattle.order.specs.Play.{Plays};
ghost use Rattle.order.specs.Venue.{SameVenue};

use crate::acting::act;
use crate::call::Call;
use crate::event::Event;
use crate::venue::Venue;
use book::Fill;
use clock::StopClock;
use lines::Lines;
use network::Network;
use records::{Batch, Line, Message};
use session::Session;
use std::alloc::{AllocError, Global};

// Makes the calls in turn, booking each ticket, and answers each call with its answer. Where there is no memory for the
// events, no call is made.
// `act` says why the worlds are spelled out.
pub fn perform<F: Network<Batch>, R: Network<Message>, C: StopClock>(
    heap: Global,
    session: &mut Session,
    venue: &mut Venue<F, R, C>,
    points: &mut Lines<u64>,
    tape: &mut Lines<Line>,
    fills: &mut Lines<Fill>,
    calls: &[Call],
) -> Result<Vec<Event>, AllocError>
    ensures performed { MatchResult result
        (λ events. Plays calls.now
        (world session.old.state (F.Network.meaning venue.old.forward.now) (R.Network.meaning venue.old.reverse.now) (C.StopClock.meaning venue.old.clock.now) (page points.old) (page tape.old))
        (desk venue.old.book.now (page fills.old))
        events.items
        (world session.new.state (F.Network.meaning venue.new.forward.now) (R.Network.meaning venue.new.reverse.now) (C.StopClock.meaning venue.new.clock.now) (page points.new) (page tape.new))
        (desk venue.new.book.now (page fills.new)))
        (λ _. (world session.new.state (F.Network.meaning venue.new.forward.now) (R.Network.meaning venue.new.reverse.now) (C.StopClock.meaning venue.new.clock.now) (page points.new) (page tape.new)
        ≡ world session.old.state (F.Network.meaning venue.old.forward.now) (R.Network.meaning venue.old.reverse.now) (C.StopClock.meaning venue.old.clock.now) (page points.old) (page tape.old))
        × (desk venue.new.book.now (page fills.new) ≡ desk venue.old.book.now (page fills.old))) }
    ensures venue { SameVenue venue.old venue.new }
    ensures points { points.new.lines.ghost_name ≡ points.old.lines.ghost_name }
    ensures tape { tape.new.lines.ghost_name ≡ tape.old.lines.ghost_name }
    ensures fills { fills.new.lines.ghost_name ≡ fills.old.lines.ghost_name }
{
    let mut events = Vec::with_capacity(heap, calls.len())?;
    for call in calls {
        events.push_reserved(act(session, venue, points, tape, fills, *call));
    }
    Ok(events)
}
