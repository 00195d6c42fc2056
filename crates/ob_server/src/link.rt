//! The service of one link.
ghost use Rattle.std.specs.Prelude.{◌≡◌, ◌≢◌, ℕ, ◌≤◌, ◌<◌, ◌+◌, ◌^◌, List, length, option_copied, OnOk, IfErr, IsErrOf};
ghost use Rattle.ob_io.specs.Told.{Sends};
ghost use Rattle.ob_io.specs.Links.{inlet};
ghost use Rattle.ob_io.specs.Faults.{Rose};
ghost use Rattle.ob_http.specs.Answer.{answer_text, refusal_text};
ghost use Rattle.ob_http.specs.declared.fault.FrameFault.TheVariants.{Memory};
ghost use Rattle.ob_http.specs.Request.{Request as Framed};
ghost use Rattle.ob_turn.specs.Standing.{mine};
ghost use Rattle.ob_server.specs.Exchange.{had, SortsTo};
ghost use Rattle.ob_server.specs.Answered as spec;
ghost use Rattle.ob_server.specs.Answered.{AnswersOne, HasBreakCause, AnswersHeld, HasStopCause, HasEndCause, ReadsPiece, PauseRose, Serves};
ghost use Rattle.ob_server.specs.Complete.{ServesWhole};
ghost use Rattle.ob_server.specs.Passes.{Continues};

use crate::end::{Break, LinkEnd, Pause, Stop};
use crate::next::{Next, take_next};
use crate::service::Service;
use crate::sort::Sorted;
use ob_encoding::encode;
use ob_http::laws::{end_stays, framing_is_one};
use ob_http::{FrameFault, Framer, StatusLine, append_answer, refusal_bytes};
use ob_io::{Clock, Link, send};
use ob_machine::{Answer, Machine};
use ob_object::Obj;
use ob_site_rules::Request;
use ob_turn::{Desk, Pass};
use ob_values::Text;
use std::alloc::Global;
use std::sync::Wait;

/// The most bytes that one link may give.
pub(crate) const BUDGET: u64 = 1 << 40;

/// The most bytes that are read at once.
pub(crate) const PIECE: usize = 4096;

/// Writes an answer, by way of the text, whose content isn't needed.
pub(crate) fn write_out<L: Link>(
    text: &mut Vec<u8>,
    link: &mut L,
    line: StatusLine,
    close: bool,
    body: &[u8],
) -> Result<(), Break>
    ensures sends { Sends (L.held link.old) (L.held link.new) result
        (answer_text line close body.now) }
    ensures apart { (L.left link.new ≡ L.left link.old) × (L.taken link.new ≡ L.taken link.old)
        × (L.read_faults link.new ≡ L.read_faults link.old) }
    ensures later { L.write_faults link.old ≤ L.write_faults link.new }
    ensures write_fault { IsErrOf result Break.WriteFault
        → Rose (L.write_faults link.old) (L.write_faults link.new) }
    ensures clock_fault { IsErrOf result Break.ClockFault → ⊥ }
{
    let alloc = *text.allocator();
    text.clear();
    let Ok(()) = append_answer(alloc, text, line, close, body) else {
        return Err(Break::Memory);
    };
    let Ok(()) = send(link, text) else {
        return Err(Break::WriteFault);
    };
    Ok(())
}

/// What one link has to itself while it is served.
#[derive(Drop)]
struct Connection<'p, 'l, 'c, M: Machine, L, C> {
    /// The pass under which the desk is asked.
    pass: &'p mut Pass<M>,
    link: &'l mut L,
    /// The clock of the requests' moments.
    clock: &'c mut C,
}

impl<M: Machine<Request = Request, Reply = Obj>, R: Wait> Service<'_, '_, '_, M, R> {
    /// Answers one request.
    fn answer_one<L: Link, C: Clock>(
        &self,
        connection: &mut Connection<'_, '_, '_, M, L, C>,
        next: Next,
        text: &mut Vec<u8>,
    ) -> Result<(), Break>
        requires { connection.old.pass.now.table ≡ self.now.desk.now.table }
        ensures answers { (request : Framed) → SortsTo request next.sorted → request.close ≡ next.close
            → AnswersOne (option_copied self.now.ns) request
            (had (L.held connection.old.link.now) (C.given connection.old.clock.now) (mine connection.old.pass.now))
            (had (L.held connection.new.link.now) (C.given connection.new.clock.now) (mine connection.new.pass.now)) result }
        ensures pass { Continues M.act self.now.desk.now.opening connection.old.pass.now connection.new.pass.now }
        ensures pace { C.pace connection.new.clock.now ≡ C.pace connection.old.clock.now }
        ensures apart { (L.left connection.new.link.now ≡ L.left connection.old.link.now)
            × (L.taken connection.new.link.now ≡ L.taken connection.old.link.now)
            × (L.read_faults connection.new.link.now ≡ L.read_faults connection.old.link.now) }
        ensures cause { HasBreakCause (L.write_faults connection.old.link.now) (L.write_faults connection.new.link.now)
            (C.faults connection.old.clock.now) (C.faults connection.new.clock.now) result }
        ensures same { (connection.new.pass.ghost_name ≡ connection.old.pass.ghost_name)
            × (connection.new.link.ghost_name ≡ connection.old.link.ghost_name)
            × (connection.new.clock.ghost_name ≡ connection.old.clock.ghost_name) }
    {
        let Ok(moment) = connection.clock.now() else {
            return Err(Break::ClockFault);
        };
        let Next { sorted, close } = next;
        match sorted {
            Sorted::Fixed { line, body } => {
                write_out(text, connection.link, line, close, body.as_slice())
            }
            Sorted::Step(request) => {
                let Answer::Done(reply) = self.desk.ask(self.rt, connection.pass, &request, moment)
                else {
                    return Err(Break::Memory);
                };
                let Ok(document) = encode(self.alloc, self.ns, &reply) else {
                    return Err(Break::Memory);
                };
                write_out(text, connection.link, StatusLine::Done, close, &document)
            }
        }
    }

    /// Answers the whole requests that are held.
    fn answer_held<L: Link, C: Clock>(
        &self,
        connection: &mut Connection<'_, '_, '_, M, L, C>,
        framer: &mut Framer,
        text: &mut Vec<u8>,
    ) -> Result<(), Stop>
        requires { connection.old.pass.now.table ≡ self.now.desk.now.table }
        ensures answers { AnswersHeld (option_copied self.now.ns) framer.old framer.new
            (had (L.held connection.old.link.now) (C.given connection.old.clock.now) (mine connection.old.pass.now))
            (had (L.held connection.new.link.now) (C.given connection.new.clock.now) (mine connection.new.pass.now)) result }
        ensures pass { Continues M.act self.now.desk.now.opening connection.old.pass.now connection.new.pass.now }
        ensures pace { C.pace connection.new.clock.now ≡ C.pace connection.old.clock.now }
        ensures apart { (L.left connection.new.link.now ≡ L.left connection.old.link.now)
            × (L.taken connection.new.link.now ≡ L.taken connection.old.link.now)
            × (L.read_faults connection.new.link.now ≡ L.read_faults connection.old.link.now) }
        ensures cause { HasStopCause (L.write_faults connection.old.link.now) (L.write_faults connection.new.link.now)
            (C.faults connection.old.clock.now) (C.faults connection.new.clock.now) result }
        ensures same { (connection.new.pass.ghost_name ≡ connection.old.pass.ghost_name)
            × (connection.new.link.ghost_name ≡ connection.old.link.ghost_name)
            × (connection.new.clock.ghost_name ≡ connection.old.clock.ghost_name) }
    {
        loop {
            match take_next(self.alloc, framer) {
                Ok(None) => return Ok(()),
                Ok(Some(next)) => {
                    let close = next.close;
                    if let Err(broken) = self.answer_one(connection, next, text) {
                        return Err(Stop::Broke(broken));
                    }
                    if close {
                        return Err(Stop::Asked);
                    }
                }
                Err(FrameFault::Memory) => return Err(Stop::Broke(Break::Memory)),
                Err(fault) => {
                    if let Err(broken) = refuse(connection.link, fault) {
                        return Err(Stop::Broke(broken));
                    }
                    return Err(Stop::BadFrame(fault));
                }
            }
        }
    }

    /// Answers the requests piece by piece.
    fn serve_pieces<L: Link, C: Clock>(
        &self,
        connection: &mut Connection<'_, '_, '_, M, L, C>,
    ) -> LinkEnd
        requires { connection.old.pass.now.table ≡ self.now.desk.now.table }
        ensures serves { Serves (option_copied self.now.ns)
            (inlet (L.left connection.old.link.now) (L.taken connection.old.link.now))
            (inlet (L.left connection.new.link.now) (L.taken connection.new.link.now))
            (had (L.held connection.old.link.now) (C.given connection.old.clock.now) (mine connection.old.pass.now))
            (had (L.held connection.new.link.now) (C.given connection.new.clock.now) (mine connection.new.pass.now)) result }
        ensures pass { Continues M.act self.now.desk.now.opening connection.old.pass.now connection.new.pass.now }
        ensures pace { C.pace connection.new.clock.now ≡ C.pace connection.old.clock.now }
        ensures cause { HasEndCause (L.read_faults connection.old.link.now) (L.read_faults connection.new.link.now)
            (L.write_faults connection.old.link.now) (L.write_faults connection.new.link.now)
            (C.faults connection.old.clock.now) (C.faults connection.new.clock.now) result }
        ensures same { (connection.new.pass.ghost_name ≡ connection.old.pass.ghost_name)
            × (connection.new.link.ghost_name ≡ connection.old.link.ghost_name)
            × (connection.new.clock.ghost_name ≡ connection.old.clock.ghost_name) }
    {
        let Ok(made) = Framer::new(self.alloc) else {
            return LinkEnd::Memory;
        };
        let mut framer = made;
        let mut text = Vec::new(self.alloc);
        let mut room = BUDGET;
        'pieces: loop {
            if let Err(stop) = self.answer_held(connection, &mut framer, &mut text) {
                return end_of(stop, framer.place());
            }
            if room == 0 {
                return LinkEnd::Budget;
            }
            let most = room.min(PIECE as u64) as usize;
            match read_piece(connection.link, &mut framer, most) {
                Ok(count) => room -= count as u64,
                Err(pause) => return end_at(pause, framer.kept() == 0),
            }
        }
    }
}

/// Writes the bytes that refuse what follows.
pub(crate) fn refuse<L: Link>(link: &mut L, fault: FrameFault) -> Result<(), Break>
    requires { fault ≢ Memory }
    ensures sends { Sends (L.held link.old) (L.held link.new) result (refusal_text fault) }
    ensures apart { (L.left link.new ≡ L.left link.old) × (L.taken link.new ≡ L.taken link.old)
        × (L.read_faults link.new ≡ L.read_faults link.old) }
    ensures later { L.write_faults link.old ≤ L.write_faults link.new }
    ensures write_fault { IfErr result
        (λ broken. (broken ≡ Break.WriteFault)
        × Rose (L.write_faults link.old) (L.write_faults link.new)) }
{
    let Ok(()) = send(link, refusal_bytes(fault)) else {
        return Err(Break::WriteFault);
    };
    Ok(())
}

/// Reads a piece of at most `most` bytes, and gives it to the framer.
pub fn read_piece<L: Link>(link: &mut L, framer: &mut Framer, most: usize) -> Result<usize, Pause>
    requires some { (0 < most) × (most ≤ 4096) }
    requires short { framer.old.place + length framer.old.kept + most < 2 ^ 63 }
    ensures bytes { ReadsPiece most (inlet (L.left link.old) (L.taken link.old))
        (inlet (L.left link.new) (L.taken link.new)) framer.old framer.new result }
    ensures apart { (L.held link.new ≡ L.held link.old)
        × (L.write_faults link.new ≡ L.write_faults link.old) }
    ensures later { L.read_faults link.old ≤ L.read_faults link.new }
    ensures rose { PauseRose result (L.read_faults link.old) (L.read_faults link.new) }
{
    let mut buffer = [0u8; PIECE];
    let (piece, _) = buffer.split_at_mut(most);
    let Ok(count) = link.read(piece) else {
        return Err(Pause::ReadFault);
    };
    if count == 0 {
        return Err(Pause::Ended);
    }
    let (taken, _) = piece.split_at(count);
    let Ok(()) = framer.feed(taken) else {
        return Err(Pause::Memory);
    };
    Ok(count)
}

/// Answers the requests that come over the link, until it ends.
pub fn serve_link<M: Machine<Request = Request, Reply = Obj>, R: Wait, L: Link, C: Clock>(
    rt: &R,
    alloc: Global,
    desk: &Desk<M>,
    pass: &mut Pass<M>,
    ns: Option<&Text>,
    link: &mut L,
    clock: &mut C,
) -> LinkEnd
    requires { pass.old.table ≡ desk.now.table }
    ensures serves { Serves (option_copied ns.entry)
        (inlet (L.left link.old) (L.taken link.old)) (inlet (L.left link.new) (L.taken link.new))
        (had (L.held link.old) (C.given clock.old) (mine pass.old))
        (had (L.held link.new) (C.given clock.new) (mine pass.new)) result }
    ensures pass { Continues M.act desk.now.opening pass.old pass.new }
    ensures pace { C.pace clock.new ≡ C.pace clock.old }
    ensures cause { HasEndCause (L.read_faults link.old) (L.read_faults link.new)
        (L.write_faults link.old) (L.write_faults link.new)
        (C.faults clock.old) (C.faults clock.new) result }
    ensures whole { ServesWhole (L.left link.old) (L.read_faults link.old) (L.read_faults link.new)
        (L.write_faults link.old) (L.write_faults link.new)
        (C.faults clock.old) (C.faults clock.new) result }
{
    framing_is_one();
    end_stays();
    let service = Service {
        rt,
        alloc,
        desk,
        ns,
    };
    let mut connection = Connection { pass, link, clock };
    service.serve_pieces(&mut connection)
}

/// The end, where no more requests are answered and so many bytes were taken before those that are held.
pub fn end_of(stop: Stop, place: u64) -> LinkEnd
    ensures { result ≡ spec.end_of stop place }
{
    match stop {
        Stop::Asked => LinkEnd::Asked,
        Stop::BadFrame(fault) => LinkEnd::BadFrame(fault, place),
        Stop::Broke(Break::WriteFault) => LinkEnd::WriteFault,
        Stop::Broke(Break::ClockFault) => LinkEnd::ClockFault,
        Stop::Broke(Break::Memory) => LinkEnd::Memory,
    }
}

/// The end, where no piece was read and bytes may be held.
pub fn end_at(pause: Pause, holds_none: bool) -> LinkEnd
    ensures { result ≡ spec.end_at pause holds_none }
{
    match pause {
        Pause::Ended if holds_none => LinkEnd::Closed,
        Pause::Ended => LinkEnd::Truncated,
        Pause::ReadFault => LinkEnd::ReadFault,
        Pause::Memory => LinkEnd::Memory,
    }
}
