ghost use Rattle.std.specs.Prelude.{◌≡◌, MatchResult};
ghost use Rattle.lines.specs.Pages.{page};
ghost use Rattle.session.specs.Layout.{plan};
ghost use Rattle.session.specs.Opening.{opened};
ghost use Rattle.session.specs.World.{world};
ghost use Rattle.order.specs.Booking.{desk};
ghost use Rattle.order.specs.Law.{Law, SomeSettles};
ghost use Rattle.order.specs.Play.{Plays, StartsFresh};
ghost use Rattle.order.specs.Venue.{SameVenue};

use crate::call::Call;
use crate::event::Event;
use crate::performing::perform;
use crate::venue::Venue;
use book::Fill;
use clock::StopClock;
use lines::Lines;
use network::Network;
use records::{Batch, Line, Message};
use session::{Layout, Session};
use std::alloc::{AllocError, Global};

// A session that was played, and each call with its answer.
#[derive(Drop)]
pub struct Played {
    pub session: Session,
    pub events: Vec<Event>,
}

// Opens the layout and makes the calls in turn, booking each ticket. Where there is no memory for the events, no call is
// made.
// `act` says why the worlds are spelled out.
pub fn play<F: Network<Batch>, R: Network<Message>, C: StopClock>(
    heap: Global,
    layout: Layout,
    venue: &mut Venue<F, R, C>,
    points: &mut Lines<u64>,
    tape: &mut Lines<Line>,
    fills: &mut Lines<Fill>,
    calls: &[Call],
) -> Result<Played, AllocError>
    ensures played { MatchResult result
        (λ x. Plays calls.now
        (opened (plan layout) (F.Network.meaning venue.old.forward.now) (R.Network.meaning venue.old.reverse.now) (C.StopClock.meaning venue.old.clock.now) (page points.old) (page tape.old))
        (desk venue.old.book.now (page fills.old))
        x.events.items
        (world x.session.state (F.Network.meaning venue.new.forward.now) (R.Network.meaning venue.new.reverse.now) (C.StopClock.meaning venue.new.clock.now) (page points.new) (page tape.new))
        (desk venue.new.book.now (page fills.new)))
        (λ _. (opened (plan layout) (F.Network.meaning venue.new.forward.now) (R.Network.meaning venue.new.reverse.now) (C.StopClock.meaning venue.new.clock.now) (page points.new) (page tape.new)
        ≡ opened (plan layout) (F.Network.meaning venue.old.forward.now) (R.Network.meaning venue.old.reverse.now) (C.StopClock.meaning venue.old.clock.now) (page points.old) (page tape.old))
        × (desk venue.new.book.now (page fills.new) ≡ desk venue.old.book.now (page fills.old))) }
    ensures fresh { StartsFresh (opened (plan layout) (F.Network.meaning venue.old.forward.now) (R.Network.meaning venue.old.reverse.now) (C.StopClock.meaning venue.old.clock.now) (page points.old) (page tape.old)) }
    ensures law { Law }
    ensures settles { SomeSettles }
    ensures venue { SameVenue venue.old venue.new }
    ensures points { points.new.lines.ghost_name ≡ points.old.lines.ghost_name }
    ensures tape { tape.new.lines.ghost_name ≡ tape.old.lines.ghost_name }
    ensures fills { fills.new.lines.ghost_name ≡ fills.old.lines.ghost_name }
{
    let mut session = layout.open();
    let events = perform(heap, &mut session, venue, points, tape, fills, calls)?;
    Ok(Played { session, events })
}
