//! One link and one machine.
ghost use Rattle.std.specs.Prelude.{◌≡◌, option_copied};
ghost use Rattle.ob_io.specs.Links.{inlet};
ghost use Rattle.ob_server.specs.Alone.{ServesAlone};
ghost use Rattle.ob_server.specs.Answered.{HasEndCause};
ghost use Rattle.ob_server.specs.Complete.{ServesWhole};

use crate::end::LinkEnd;
use crate::link::serve_link;
use crate::service::{Serving, TimedLink};
use ob_io::{Clock, Link};
use ob_machine::Machine;
use ob_object::Obj;
use ob_site_rules::Request;
use ob_turn::Desk;
use std::sync::Wait;

/// Answers the requests that come over a link from a machine that nobody else asks, until the link ends.
/// The end is `Memory` also where there is no memory to begin.
pub fn serve_alone<M: Machine<Request = Request, Reply = Obj> + Drop, R: Wait, L: Link, C: Clock>(
    serving: &Serving<'_, '_, R>,
    machine: M,
    timed: &mut TimedLink<'_, '_, L, C>,
) -> LinkEnd
    ensures serves { ServesAlone M.act machine (option_copied serving.now.ns)
        (inlet (L.left timed.old.link.now) (L.taken timed.old.link.now)) (inlet (L.left timed.new.link.now) (L.taken timed.new.link.now))
        (L.held timed.old.link.now) (L.held timed.new.link.now) (C.given timed.old.clock.now) (C.given timed.new.clock.now) result }
    ensures pace { C.pace timed.new.clock.now ≡ C.pace timed.old.clock.now }
    ensures cause { HasEndCause (L.read_faults timed.old.link.now) (L.read_faults timed.new.link.now)
        (L.write_faults timed.old.link.now) (L.write_faults timed.new.link.now) (C.faults timed.old.clock.now) (C.faults timed.new.clock.now) result }
    ensures whole { ServesWhole (L.left timed.old.link.now) (L.read_faults timed.old.link.now) (L.read_faults timed.new.link.now)
        (L.write_faults timed.old.link.now) (L.write_faults timed.new.link.now) (C.faults timed.old.clock.now) (C.faults timed.new.clock.now) result }
    ensures same { (timed.new.link.ghost_name ≡ timed.old.link.ghost_name) × (timed.new.clock.ghost_name ≡ timed.old.clock.ghost_name) }
{
    let Ok((desk, mut pass)) = Desk::new(serving.alloc, machine) else {
        return LinkEnd::Memory;
    };
    let end = serve_link(
        serving.rt,
        serving.alloc,
        &desk,
        &mut pass,
        serving.ns,
        timed.link,
        timed.clock,
    );
    let _machine = desk.close(pass);
    end
}
