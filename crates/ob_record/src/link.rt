//! The service of one link whose requests are recorded.
ghost use Rattle.std.specs.Prelude.{◌≡◌, ◌<◌, ◌≤◌, ◌+◌, ◌^◌, None, length};
ghost use Rattle.ob_io.specs.Links.{inlet};
ghost use Rattle.ob_http.specs.Request.{Request as Framed, body_limit};
ghost use Rattle.ob_server.specs.Exchange.{SortsTo};
ghost use Rattle.ob_server.specs.Answered.{HasBreakCause, HasStopCause, HasEndCause};
ghost use Rattle.ob_server.specs.Complete.{ServesWhole};
ghost use Rattle.ob_record.specs.Recording.{RecordsOne, RecordsHeld, RecordsLink, RecordsRun};

use crate::asking::ask_entry;
use crate::write_boot;
use ob_http::laws::{end_stays, framing_is_one};
use ob_http::{FrameFault, Framer};
use ob_io::{Clock, Link, send};
use ob_machine::Machine;
use ob_object::Obj;
use ob_server::{Break, LinkEnd, Next, Sorted, Stop, end_at, end_of, read_piece, take_next};
use ob_site_rules::Request;
use ob_times::Moment;
use std::alloc::Global;

/// The most bytes that one link may give.
const BUDGET: u64 = 1 << 40;

const PIECE: usize = 4096;

/// Records one request. One that the site isn't asked takes a moment all the same.
fn record_one<M: Machine<Request = Request, Reply = Obj>, L: Link, C: Clock>(
    alloc: Global,
    machine: &mut M,
    next: Next,
    link: &mut L,
    clock: &mut C,
) -> Result<(), Break>
    ensures records { (request : Framed) → SortsTo request next.sorted → request.close ≡ next.close → length request.body ≤ body_limit
        → RecordsOne M.act machine.old machine.new (L.held link.old) (L.held link.new) (C.given clock.old) (C.given clock.new) request result }
    ensures pace { C.pace clock.new ≡ C.pace clock.old }
    ensures apart { (L.left link.new ≡ L.left link.old) × (L.taken link.new ≡ L.taken link.old)
        × (L.read_faults link.new ≡ L.read_faults link.old) }
    ensures cause { HasBreakCause (L.write_faults link.old) (L.write_faults link.new)
        (C.faults clock.old) (C.faults clock.new) result }
{
    let Ok(moment) = clock.now() else {
        return Err(Break::ClockFault);
    };
    let Next { sorted, close: _ } = next;
    match sorted {
        Sorted::Fixed { line: _, body: _ } => Ok(()),
        Sorted::Step(request) => {
            let Ok(text) = ask_entry(alloc, machine, request, moment) else {
                return Err(Break::Memory);
            };
            let Ok(()) = send(link, &text) else {
                return Err(Break::WriteFault);
            };
            Ok(())
        }
    }
}

/// Records the whole requests that are held.
fn record_held<M: Machine<Request = Request, Reply = Obj>, L: Link, C: Clock>(
    alloc: Global,
    machine: &mut M,
    framer: &mut Framer,
    link: &mut L,
    clock: &mut C,
) -> Result<(), Stop>
    ensures records { RecordsHeld M.act machine.old machine.new framer.old framer.new
        (L.held link.old) (L.held link.new) (C.given clock.old) (C.given clock.new) result }
    ensures pace { C.pace clock.new ≡ C.pace clock.old }
    ensures apart { (L.left link.new ≡ L.left link.old) × (L.taken link.new ≡ L.taken link.old)
        × (L.read_faults link.new ≡ L.read_faults link.old) }
    ensures cause { HasStopCause (L.write_faults link.old) (L.write_faults link.new)
        (C.faults clock.old) (C.faults clock.new) result }
{
    'next: loop {
        match take_next(alloc, framer) {
            Ok(None) => return Ok(()),
            Ok(Some(next)) => {
                let close = next.close;
                if let Err(broken) = record_one(alloc, machine, next, link, clock) {
                    return Err(Stop::Broke(broken));
                }
                if close {
                    return Err(Stop::Asked);
                }
            }
            Err(FrameFault::Memory) => return Err(Stop::Broke(Break::Memory)),
            Err(fault) => return Err(Stop::BadFrame(fault)),
        }
    }
}

/// Asks the machine what the requests that come over a link ask, until the link ends, and writes the entries of their record.
fn record_link<M: Machine<Request = Request, Reply = Obj>, L: Link, C: Clock>(
    alloc: Global,
    machine: &mut M,
    link: &mut L,
    clock: &mut C,
) -> LinkEnd
    ensures records { RecordsLink M.act machine.old machine.new
        (inlet (L.left link.old) (L.taken link.old)) (inlet (L.left link.new) (L.taken link.new))
        (L.held link.old) (L.held link.new) (C.given clock.old) (C.given clock.new) result }
    ensures pace { C.pace clock.new ≡ C.pace clock.old }
    ensures cause { HasEndCause (L.read_faults link.old) (L.read_faults link.new)
        (L.write_faults link.old) (L.write_faults link.new) (C.faults clock.old) (C.faults clock.new) result }
{
    let Ok(made) = Framer::new(alloc) else {
        return LinkEnd::Memory;
    };
    let mut framer = made;
    let mut room = BUDGET;
    'pieces: loop {
        if let Err(stop) = record_held(alloc, machine, &mut framer, link, clock) {
            return end_of(stop, framer.place());
        }
        if room == 0 {
            return LinkEnd::Budget;
        }
        let most = room.min(PIECE as u64) as usize;
        match read_piece(link, &mut framer, most) {
            Ok(count) => room -= count as u64,
            Err(pause) => return end_at(pause, framer.kept() == 0),
        }
    }
}

/// Writes the first lines of a record, and then records the requests of a link.
fn record_from<M: Machine<Request = Request, Reply = Obj>, L: Link, C: Clock>(
    alloc: Global,
    machine: &mut M,
    boot: Moment,
    link: &mut L,
    clock: &mut C,
) -> LinkEnd
    ensures records { RecordsRun M.act machine.old machine.new boot
        (inlet (L.left link.old) (L.taken link.old)) (inlet (L.left link.new) (L.taken link.new))
        (L.held link.old) (L.held link.new) (C.given clock.old) (C.given clock.new) result }
    ensures pace { C.pace clock.new ≡ C.pace clock.old }
    ensures cause { HasEndCause (L.read_faults link.old) (L.read_faults link.new)
        (L.write_faults link.old) (L.write_faults link.new) (C.faults clock.old) (C.faults clock.new) result }
{
    boot.ms();
    let Ok(head) = write_boot(alloc, boot) else {
        return LinkEnd::Memory;
    };
    let Ok(()) = send(link, &head) else {
        return LinkEnd::WriteFault;
    };
    record_link(alloc, machine, link, clock)
}

/// Asks a machine that nobody else asks, since its boot at a moment, what the requests that come over a link ask, until the link
/// ends, and writes the record of that run on the link. Requests that are refused or don't go to the site take a moment, and have
/// no entry.
///
/// A request whose body has a canonical text of more than 16,777,216 bytes can't be recorded, and ends the link as want of memory
/// does.
pub fn record_run<M: Machine<Request = Request, Reply = Obj>, L: Link, C: Clock>(
    alloc: Global,
    machine: &mut M,
    boot: Moment,
    link: &mut L,
    clock: &mut C,
) -> LinkEnd
    ensures records { RecordsRun M.act machine.old machine.new boot
        (inlet (L.left link.old) (L.taken link.old)) (inlet (L.left link.new) (L.taken link.new))
        (L.held link.old) (L.held link.new) (C.given clock.old) (C.given clock.new) result }
    ensures pace { C.pace clock.new ≡ C.pace clock.old }
    ensures cause { HasEndCause (L.read_faults link.old) (L.read_faults link.new)
        (L.write_faults link.old) (L.write_faults link.new) (C.faults clock.old) (C.faults clock.new) result }
    ensures whole { ServesWhole (L.left link.old) (L.read_faults link.old) (L.read_faults link.new)
        (L.write_faults link.old) (L.write_faults link.new) (C.faults clock.old) (C.faults clock.new) result }
{
    framing_is_one();
    end_stays();
    record_from(alloc, machine, boot, link, clock)
}
