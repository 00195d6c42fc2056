//! One link and one answerer, which nobody else asks.
ghost use Rattle.std.specs.Prelude.{◌≡◌, ◌≤◌, IfOk, OnErr, option_copied};
ghost use Rattle.ob_io.specs.Links.{inlet};
ghost use Rattle.ob_http.specs.Request.{Request as Framed};
ghost use Rattle.ob_machine.specs.declared.call.Answer.TheVariants.{Done, NoMemory};
ghost use Rattle.ob_machine.specs.History.{entry};
ghost use Rattle.ob_server.specs.Exchange.{Call, SortsTo};
ghost use Rattle.ob_server.specs.Answered.{HasBreakCause, HasStopCause, HasEndCause};
ghost use Rattle.ob_server.specs.Answering.{AnswersOneBy, AnswersHeldBy, ServesBy};
ghost use Rattle.ob_server.specs.Complete.{ServesWhole};

use crate::end::{Break, LinkEnd, Stop};
use crate::link::{BUDGET, PIECE, end_at, end_of, read_piece, refuse, write_out};
use crate::next::{Next, take_next};
use crate::service::TimedLink;
use crate::sort::Sorted;
use ob_encoding::encode;
use ob_http::laws::{end_stays, framing_is_one};
use ob_http::{FrameFault, Framer, StatusLine};
use ob_io::{Clock, Link};
use ob_object::Obj;
use ob_site_rules::Request;
use ob_times::Moment;
use ob_values::Text;
use std::alloc::{AllocError, Global};

/// What answers the requests of a link that nobody else asks. Its state is what contracts see of it.
///
/// It is no machine: where memory is wanting it may have changed, an answer need not be a function of its state, and a
/// part of the outside may be lent to it for each answer.
pub trait Answerer<O> {
    /// Whether this call may make of the one state, with what is lent beside it, the other.
    ghost asks: { Self × O → Self × O → Call → Type 0 };

    /// Answers a request at a moment. An error only for want of memory; what was done before memory was wanting stays
    /// done.
    fn answer(
        &mut self,
        outside: &mut O,
        request: &Request,
        moment: Moment,
    ) -> Result<Obj, AllocError>
        ensures replied { IfOk result (λ reply. asks (self.old, outside.old) (self.new, outside.new)
            (entry 0 request.now moment (Done reply))) }
        ensures wanting { OnErr result (asks (self.old, outside.old) (self.new, outside.new)
            (entry 0 request.now moment NoMemory)) };
}

/// What answers the requests of one link, and what the link has to itself while it is served.
#[derive(Drop)]
struct Connection<'a, 'o, 'l, 'c, O, A: Answerer<O>, L, C> {
    answerer: &'a mut A,
    /// What is lent to the answerer for each answer.
    outside: &'o mut O,
    link: &'l mut L,
    /// The clock of the requests' moments.
    clock: &'c mut C,
}

impl<O, A: Answerer<O>, L: Link, C: Clock> Connection<'_, '_, '_, '_, O, A, L, C> {
    /// Answers one request.
    fn answer_one(
        &mut self,
        alloc: Global,
        ns: Option<&Text>,
        next: Next,
        text: &mut Vec<u8>,
    ) -> Result<(), Break>
        ensures answers { (request : Framed) → SortsTo request next.sorted → request.close ≡ next.close
            → AnswersOneBy A.asks (self.old.answerer.now, self.old.outside.now)
            (self.new.answerer.now, self.new.outside.now) (option_copied ns.entry) request
            (L.held self.old.link.now) (L.held self.new.link.now)
            (C.given self.old.clock.now) (C.given self.new.clock.now) result }
        ensures pace { C.pace self.new.clock.now ≡ C.pace self.old.clock.now }
        ensures apart { (L.left self.new.link.now ≡ L.left self.old.link.now)
            × (L.taken self.new.link.now ≡ L.taken self.old.link.now)
            × (L.read_faults self.new.link.now ≡ L.read_faults self.old.link.now) }
        ensures cause { HasBreakCause (L.write_faults self.old.link.now) (L.write_faults self.new.link.now)
            (C.faults self.old.clock.now) (C.faults self.new.clock.now) result }
        ensures same { (self.new.answerer.ghost_name ≡ self.old.answerer.ghost_name)
            × (self.new.outside.ghost_name ≡ self.old.outside.ghost_name)
            × (self.new.link.ghost_name ≡ self.old.link.ghost_name)
            × (self.new.clock.ghost_name ≡ self.old.clock.ghost_name) }
    {
        let Ok(moment) = self.clock.now() else {
            return Err(Break::ClockFault);
        };
        let Next { sorted, close } = next;
        match sorted {
            Sorted::Fixed { line, body } => {
                write_out(text, self.link, line, close, body.as_slice())
            }
            Sorted::Step(request) => {
                let Ok(reply) = self.answerer.answer(self.outside, &request, moment) else {
                    return Err(Break::Memory);
                };
                let Ok(document) = encode(alloc, ns, &reply) else {
                    return Err(Break::Memory);
                };
                write_out(text, self.link, StatusLine::Done, close, &document)
            }
        }
    }

    /// Answers the whole requests that are held.
    fn answer_held(
        &mut self,
        alloc: Global,
        ns: Option<&Text>,
        framer: &mut Framer,
        text: &mut Vec<u8>,
    ) -> Result<(), Stop>
        ensures answers { AnswersHeldBy A.asks (self.old.answerer.now, self.old.outside.now)
            (self.new.answerer.now, self.new.outside.now) (option_copied ns.entry) framer.old framer.new
            (L.held self.old.link.now) (L.held self.new.link.now)
            (C.given self.old.clock.now) (C.given self.new.clock.now) result }
        ensures pace { C.pace self.new.clock.now ≡ C.pace self.old.clock.now }
        ensures apart { (L.left self.new.link.now ≡ L.left self.old.link.now)
            × (L.taken self.new.link.now ≡ L.taken self.old.link.now)
            × (L.read_faults self.new.link.now ≡ L.read_faults self.old.link.now) }
        ensures cause { HasStopCause (L.write_faults self.old.link.now) (L.write_faults self.new.link.now)
            (C.faults self.old.clock.now) (C.faults self.new.clock.now) result }
        ensures same { (self.new.answerer.ghost_name ≡ self.old.answerer.ghost_name)
            × (self.new.outside.ghost_name ≡ self.old.outside.ghost_name)
            × (self.new.link.ghost_name ≡ self.old.link.ghost_name)
            × (self.new.clock.ghost_name ≡ self.old.clock.ghost_name) }
    {
        'next: loop {
            match take_next(alloc, framer) {
                Ok(None) => return Ok(()),
                Ok(Some(next)) => {
                    let close = next.close;
                    if let Err(broken) = self.answer_one(alloc, ns, next, text) {
                        return Err(Stop::Broke(broken));
                    }
                    if close {
                        return Err(Stop::Asked);
                    }
                }
                Err(FrameFault::Memory) => return Err(Stop::Broke(Break::Memory)),
                Err(fault) => {
                    if let Err(broken) = refuse(self.link, fault) {
                        return Err(Stop::Broke(broken));
                    }
                    return Err(Stop::BadFrame(fault));
                }
            }
        }
    }

    /// Answers the requests piece by piece.
    fn serve_pieces(&mut self, alloc: Global, ns: Option<&Text>) -> LinkEnd
        ensures serves { ServesBy A.asks (self.old.answerer.now, self.old.outside.now)
            (self.new.answerer.now, self.new.outside.now) (option_copied ns.entry)
            (inlet (L.left self.old.link.now) (L.taken self.old.link.now))
            (inlet (L.left self.new.link.now) (L.taken self.new.link.now))
            (L.held self.old.link.now) (L.held self.new.link.now)
            (C.given self.old.clock.now) (C.given self.new.clock.now) result }
        ensures pace { C.pace self.new.clock.now ≡ C.pace self.old.clock.now }
        ensures cause { HasEndCause (L.read_faults self.old.link.now) (L.read_faults self.new.link.now)
            (L.write_faults self.old.link.now) (L.write_faults self.new.link.now)
            (C.faults self.old.clock.now) (C.faults self.new.clock.now) result }
        ensures same { (self.new.answerer.ghost_name ≡ self.old.answerer.ghost_name)
            × (self.new.outside.ghost_name ≡ self.old.outside.ghost_name)
            × (self.new.link.ghost_name ≡ self.old.link.ghost_name)
            × (self.new.clock.ghost_name ≡ self.old.clock.ghost_name) }
    {
        let Ok(made) = Framer::new(alloc) else {
            return LinkEnd::Memory;
        };
        let mut framer = made;
        let mut text = Vec::new(alloc);
        let mut room = BUDGET;
        'pieces: loop {
            if let Err(stop) = self.answer_held(alloc, ns, &mut framer, &mut text) {
                return end_of(stop, framer.place());
            }
            if room == 0 {
                return LinkEnd::Budget;
            }
            let most = room.min(PIECE as u64) as usize;
            match read_piece(self.link, &mut framer, most) {
                Ok(count) => room -= count as u64,
                Err(pause) => return end_at(pause, framer.kept() == 0),
            }
        }
    }
}

/// Answers the requests that come over a link by an answerer that nobody else asks, until the link ends. What is outside
/// is lent to it for each answer.
pub fn serve_by<O, A: Answerer<O>, L: Link, C: Clock>(
    alloc: Global,
    answerer: &mut A,
    outside: &mut O,
    ns: Option<&Text>,
    timed: &mut TimedLink<'_, '_, L, C>,
) -> LinkEnd
    ensures serves { ServesBy A.asks (answerer.old, outside.old) (answerer.new, outside.new) (option_copied ns.entry)
        (inlet (L.left timed.old.link.now) (L.taken timed.old.link.now)) (inlet (L.left timed.new.link.now) (L.taken timed.new.link.now))
        (L.held timed.old.link.now) (L.held timed.new.link.now) (C.given timed.old.clock.now) (C.given timed.new.clock.now) result }
    ensures pace { C.pace timed.new.clock.now ≡ C.pace timed.old.clock.now }
    ensures cause { HasEndCause (L.read_faults timed.old.link.now) (L.read_faults timed.new.link.now)
        (L.write_faults timed.old.link.now) (L.write_faults timed.new.link.now) (C.faults timed.old.clock.now) (C.faults timed.new.clock.now) result }
    ensures whole { ServesWhole (L.left timed.old.link.now) (L.read_faults timed.old.link.now) (L.read_faults timed.new.link.now)
        (L.write_faults timed.old.link.now) (L.write_faults timed.new.link.now) (C.faults timed.old.clock.now) (C.faults timed.new.clock.now) result }
    ensures same { (timed.new.link.ghost_name ≡ timed.old.link.ghost_name) × (timed.new.clock.ghost_name ≡ timed.old.clock.ghost_name) }
{
    framing_is_one();
    end_stays();
    let mut connection = Connection {
        answerer,
        outside,
        link: timed.link,
        clock: timed.clock,
    };
    connection.serve_pieces(alloc, ns)
}
