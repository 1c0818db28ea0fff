ghost use Rattle.std.specs.Prelude.{◌≡◌};
ghost use Rattle.lines.specs.Pages.{page};
ghost use Rattle.session.specs.Ticket.{lined};
ghost use Rattle.session.specs.World.{world};
ghost use Rattle.order.specs.declared.event.Event.TheVariants.{Release};
ghost use Rattle.order.specs.Booking.{Books, desk};
ghost use Rattle.order.specs.Venue.{SameVenue};
ghost use Rattle.order.specs.Run.{Step, call_of, released};

use crate::call::Call;
use crate::event::{Event, Outcome};
use crate::venue::Venue;
use book::{Book, Fill};
use clock::StopClock;
use lines::Lines;
use network::Network;
use records::{Batch, Line, Message, Refusal};
use session::{Session, Ticket};

// Books the ticket of a release, if there is one.
fn booked(
    release: Result<Ticket, Refusal>,
    book: &mut Book,
    fills: &mut Lines<Fill>,
) -> Result<Outcome, Refusal>
    ensures line { released result ≡ lined release }
    ensures booked { Books (desk book.old (page fills.old)) (Release result) (desk book.new (page fills.new)) }
    ensures same { fills.new.lines.ghost_name ≡ fills.old.lines.ghost_name }
{
    let ticket = release?;
    let line = ticket.line();
    let booked = ticket.book(book, fills);
    Ok(Outcome { line, booked })
}

// Makes one call, and books the ticket that it may answer. The contract spells out the worlds before and after: a definition
// over a venue would have to be given what its networks and its stop-clock mean, and be no shorter.
pub fn act<F: Network<Batch>, R: Network<Message>, C: StopClock>(
    session: &mut Session,
    venue: &mut Venue<F, R, C>,
    points: &mut Lines<u64>,
    tape: &mut Lines<Line>,
    fills: &mut Lines<Fill>,
    call: Call,
) -> Event
    ensures made { call_of result ≡ call }
    ensures step { Step (world session.old.state (F.Network.meaning venue.old.forward.now) (R.Network.meaning venue.old.reverse.now) (C.StopClock.meaning venue.old.clock.now) (page points.old) (page tape.old)) result (world session.new.state (F.Network.meaning venue.new.forward.now) (R.Network.meaning venue.new.reverse.now) (C.StopClock.meaning venue.new.clock.now) (page points.new) (page tape.new)) }
    ensures booked { Books (desk venue.old.book.now (page fills.old)) result (desk venue.new.book.now (page fills.new)) }
    ensures venue { SameVenue venue.old venue.new }
    ensures points { points.new.lines.ghost_name ≡ points.old.lines.ghost_name }
    ensures tape { tape.new.lines.ghost_name ≡ tape.old.lines.ghost_name }
    ensures fills { fills.new.lines.ghost_name ≡ fills.old.lines.ghost_name }
{
    match call {
        Call::Point { at, value } => Event::Point {
            at,
            value,
            answer: session.point(points, at, value),
        },
        Call::Seal { at } => Event::Seal {
            at,
            answer: session.seal(venue.forward, at),
        },
        Call::Deliver { at, seat } => Event::Deliver {
            at,
            seat,
            answer: session.deliver(venue.forward, venue.clock, at, seat),
        },
        Call::Submit { at, seat, offer } => Event::Submit {
            at,
            seat,
            offer,
            answer: session.submit(venue.reverse, venue.clock, at, seat, offer),
        },
        Call::Beat { at, seat } => Event::Beat {
            at,
            seat,
            answer: session.beat(venue.reverse, venue.clock, at, seat),
        },
        Call::End { at, seat } => Event::End {
            at,
            seat,
            answer: session.end(venue.reverse, at, seat),
        },
        Call::Collect { at, seat } => Event::Collect {
            at,
            seat,
            answer: session.collect(venue.reverse, at, seat),
        },
        Call::Release => Event::Release {
            answer: booked(session.release(tape), venue.book, fills),
        },
    }
}
