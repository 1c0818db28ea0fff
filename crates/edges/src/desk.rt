// A session with all that it stands over, which makes calls in turn and looks at each answer.
use crate::answer::{Answer, answer_of, rejected};
use crate::step::{Step, buy, stray_beat, stray_trade};
use book::{Book, Fill};
use clock::{OffsetClock, SEATS};
use lines::Lines;
use network::{Fixed, LINKS, Network, Slot};
use order::{Call, Outcome, Venue, act};
use records::{Batch, Line, Message, Refusal};
use session::{Layout, Session};
use std::alloc::Global;
use std::process::Abort;
use std::test::Fail;

#[derive(Drop)]
pub struct Desk<'a> {
    pub session: Session,
    pub forward: Fixed<'a, Batch>,
    pub reverse: Fixed<'a, Message>,
    pub clock: OffsetClock,
    pub points: Lines<'a, u64>,
    pub tape: Lines<'a, Line>,
    pub book: Book,
    pub fills: Lines<'a, Fill>,
}

// A session with horizon 20, window 50 and so many seats.
fn opened(rt: &impl Abort, heap: Global, seats: usize) -> Result<Session, Fail> {
    let mut layout = Layout::new(heap)?;
    assert!(rt; layout.set_times(20, 50).is_ok());
    for _ in 0..seats {
        assert!(rt; layout.add_seat().is_ok());
    }
    Ok(layout.open())
}

impl<'a> Desk<'a> {
    // Over links that take 5, and lists without lines. Each list is lent on its own, so that a test can look at it later.
    pub fn new(
        rt: &impl Abort,
        heap: Global,
        seats: usize,
        forward: &'a mut [Slot<Batch>],
        reverse: &'a mut [Slot<Message>],
        points: &'a mut [u64],
        tape: &'a mut [Line],
    ) -> Result<Desk<'a>, Fail> {
        Ok(Desk {
            session: opened(rt, heap, seats)?,
            forward: Fixed::new(forward, [5; LINKS]),
            reverse: Fixed::new(reverse, [5; LINKS]),
            clock: OffsetClock::new([7; SEATS]),
            points: Lines::new(points),
            tape: Lines::new(tape),
            book: Book::new(heap)?,
            fills: Lines::new(&mut []),
        })
    }

    fn act(&mut self, call: Call) -> Answer {
        let mut venue = Venue {
            forward: &mut self.forward,
            reverse: &mut self.reverse,
            clock: &mut self.clock,
            book: &mut self.book,
        };
        answer_of(act(
            &mut self.session,
            &mut venue,
            &mut self.points,
            &mut self.tape,
            &mut self.fills,
            call,
        ))
    }

    // Makes a call so many times, and gives the last answer.
    fn repeat(&mut self, count: u32, call: Call) -> Answer {
        for _ in 1..count {
            let _ = self.act(call);
        }
        self.act(call)
    }

    fn reject(&mut self) -> Answer {
        rejected(reject(&mut self.session, &mut self.tape))
    }

    // Sends a message past the session.
    fn smuggle(&mut self, at: u64, link: usize, message: Message) -> Answer {
        match self.reverse.send(link, at, message) {
            Ok(()) => Answer::Sent,
            Err(_) => Answer::Lost,
        }
    }

    // Takes one step.
    pub fn make(&mut self, step: Step) -> Answer {
        match step {
            Step::Point(at) => self.act(Call::Point { at, value: at }),
            Step::Seal(at) => self.act(Call::Seal { at }),
            Step::Deliver(at, seat) => self.act(Call::Deliver { at, seat }),
            Step::Submit(at, seat) => {
                let offer = buy(1, 10, 1);
                self.act(Call::Submit { at, seat, offer })
            }
            Step::Offer(at, seat, trigger, price, quantity) => {
                let offer = buy(trigger, price, quantity);
                self.act(Call::Submit { at, seat, offer })
            }
            Step::Beat(at, seat) => self.act(Call::Beat { at, seat }),
            Step::End(at, seat) => self.act(Call::End { at, seat }),
            Step::Collect(at, seat) => self.act(Call::Collect { at, seat }),
            Step::Release => self.act(Call::Release),
            Step::Reject => self.reject(),
            Step::Points(at, count) => self.repeat(count, Call::Point { at, value: at }),
            Step::Submits(at, seat, count) => {
                let offer = buy(1, 10, 1);
                self.repeat(count, Call::Submit { at, seat, offer })
            }
            Step::Beats(at, seat, count) => self.repeat(count, Call::Beat { at, seat }),
            Step::Collects(at, seat, count) => self.repeat(count, Call::Collect { at, seat }),
            Step::Releases(count) => self.repeat(count, Call::Release),
            Step::Settled => Answer::Is(self.session.settled()),
            Step::StrayTrade(at, link, seat, serial) => self.smuggle(
                at,
                link,
                stray_trade(at, seat, serial),
            ),
            Step::StrayBeat(at, link) => self.smuggle(at, link, stray_beat(at)),
            Step::StrayEnd(at, link) => self.smuggle(at, link, Message::End),
        }
    }

    // Takes steps in turn: each is to be answered so.
    pub fn expect(&mut self, rt: &impl Abort, rows: &[(Step, Answer)]) {
        for (i, row) in rows.iter().enumerate() {
            let (step, wanted) = *row;
            assert_eq!(rt; self.make(step), wanted, "row {i}");
        }
    }
}

// Takes steps in turn at a new desk, over links that hold two batches and 16 messages.
pub fn run(
    rt: &impl Abort,
    heap: Global,
    seats: usize,
    rows: &[(Step, Answer)],
) -> Result<(), Fail> {
    let mut forward = [Slot::default(); 32];
    let mut reverse = [Slot::default(); 256];
    let mut points = [0; 128];
    let mut tape = [Line::default(); 32];
    let mut desk = Desk::new(
        rt,
        heap,
        seats,
        &mut forward,
        &mut reverse,
        &mut points,
        &mut tape,
    )?;
    desk.expect(rt, rows);
    Ok(())
}

// Releases a trade onto a tape, and rejects it.
pub fn reject(session: &mut Session, tape: &mut Lines<Line>) -> Result<Outcome, Refusal> {
    let ticket = session.release(tape)?;
    let line = ticket.line();
    let booked = ticket.reject();
    Ok(Outcome { line, booked })
}
