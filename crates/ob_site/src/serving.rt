//! Links and doors that are served from a site. The calls are those of ob_server; of all that was seen the laws of watches hold.
ghost use Rattle.std.specs.Prelude.{◌≡◌, is_some, option_copied};
ghost use Rattle.ob_io.specs.Links.{inlet};
ghost use Rattle.ob_machine.specs.History.{after, IsLegal};
ghost use Rattle.ob_site_laws.specs.Seen.{KeepsWatches};
ghost use Rattle.ob_server.specs.Alone.{ServesAlone};
ghost use Rattle.ob_server.specs.Answered.{Serves, HasEndCause};
ghost use Rattle.ob_server.specs.Complete.{ServesWhole};
ghost use Rattle.ob_server.specs.Exchange.{had};
ghost use Rattle.ob_server.specs.GivenBack.{port_told, clock_told};
ghost use Rattle.ob_server.specs.Passes.{Continues};
ghost use Rattle.ob_server.specs.Port.{ServesDoors, HasPortCause};
ghost use Rattle.ob_site_laws.specs.SiteLaws.{acts, IsSoundSite};
ghost use Rattle.ob_turn.specs.Standing.{mine};

use crate::{Site, seen_is_lawful};
use ob_io::{Clock, Door, Link, Port};
use ob_server::{LinkEnd, PortServed, Serving, Staff, TimedLink, TimedPort};
use ob_turn::{Desk, Pass};
use ob_values::Text;
use std::alloc::Global;
use std::sync::Wait;
use std::thread::Threads;

/// Answers the requests that come over a link from the site behind a desk, until the link ends. The laws of watches hold of
/// all that the pass has seen then, its own calls and those of others.
pub fn serve_link<R: Wait, L: Link, C: Clock>(
    rt: &R,
    alloc: Global,
    desk: &Desk<Site>,
    pass: &mut Pass<Site>,
    ns: Option<&Text>,
    link: &mut L,
    clock: &mut C,
) -> LinkEnd
    requires of { pass.old.table ≡ desk.now.table }
    requires sound { IsSoundSite desk.now.opening }
    requires legal { IsLegal acts desk.now.opening pass.old.seen }
    ensures serves { Serves (option_copied ns.entry)
        (inlet (L.left link.old) (L.taken link.old)) (inlet (L.left link.new) (L.taken link.new))
        (had (L.held link.old) (C.given clock.old) (mine pass.old))
        (had (L.held link.new) (C.given clock.new) (mine pass.new)) result }
    ensures pass { Continues acts desk.now.opening pass.old pass.new }
    ensures watches { KeepsWatches desk.now.opening pass.new.seen }
    ensures pace { C.pace clock.new ≡ C.pace clock.old }
    ensures cause { HasEndCause (L.read_faults link.old) (L.read_faults link.new)
        (L.write_faults link.old) (L.write_faults link.new)
        (C.faults clock.old) (C.faults clock.new) result }
    ensures whole { ServesWhole (L.left link.old) (L.read_faults link.old) (L.read_faults link.new)
        (L.write_faults link.old) (L.write_faults link.new)
        (C.faults clock.old) (C.faults clock.new) result }
{
    let end = ob_server::serve_link(rt, alloc, desk, pass, ns, link, clock);
    seen_is_lawful(desk, pass);
    end
}

/// Answers the requests that come over a link from a site that nobody else asks, until the link ends. The laws of watches
/// hold of its calls. The end is `Memory` also where there is no memory to begin.
pub fn serve_alone<R: Wait, L: Link, C: Clock>(
    serving: &Serving<'_, '_, R>,
    site: Site,
    timed: &mut TimedLink<'_, '_, L, C>,
) -> LinkEnd
    ensures sound { IsSoundSite site }
    ensures serves { (served : ServesAlone acts site (option_copied serving.now.ns)
        (inlet (L.left timed.old.link.now) (L.taken timed.old.link.now)) (inlet (L.left timed.new.link.now) (L.taken timed.new.link.now))
        (L.held timed.old.link.now) (L.held timed.new.link.now) (C.given timed.old.clock.now) (C.given timed.new.clock.now) result)
        × KeepsWatches site served.calls }
    ensures pace { C.pace timed.new.clock.now ≡ C.pace timed.old.clock.now }
    ensures cause { HasEndCause (L.read_faults timed.old.link.now) (L.read_faults timed.new.link.now)
        (L.write_faults timed.old.link.now) (L.write_faults timed.new.link.now) (C.faults timed.old.clock.now) (C.faults timed.new.clock.now) result }
    ensures whole { ServesWhole (L.left timed.old.link.now) (L.read_faults timed.old.link.now) (L.read_faults timed.new.link.now)
        (L.write_faults timed.old.link.now) (L.write_faults timed.new.link.now) (C.faults timed.old.clock.now) (C.faults timed.new.clock.now) result }
    ensures same { (timed.new.link.ghost_name ≡ timed.old.link.ghost_name) × (timed.new.clock.ghost_name ≡ timed.old.clock.ghost_name) }
{
    site.sound_law();
    ob_server::serve_alone(serving, site, timed)
}

/// Serves the links of doors of a port from a site, each door's by a worker with a clock of its own. The laws of watches hold
/// of all that the site was asked. Where a door or a clock can't be had, or there is no memory to begin, no link is served.
/// The port and the clock have all their doors and twins back.
pub fn serve_port<R: Threads + Wait + Sync, D: Door + Send, P: Port<D = D>, C: Clock + Send>(
    serving: &Serving<'_, '_, R>,
    site: Site,
    timed: &mut TimedPort<'_, '_, P, C>,
    staff: Staff<'_>,
) -> PortServed<Site>
where
    D::L: Send,
    ensures sound { IsSoundSite site }
    ensures serves { (history : _) × ServesDoors D.faults D.handed D.returned D.visits C.given C.pace C.faults
        acts D.is_closed (option_copied serving.now.ns) site
        staff.entry.workers staff.entry.quota (is_some staff.entry.stays) history
        (port_told (P.faults timed.old.port.now) (P.opened timed.old.port.now) (P.returned timed.old.port.now)
        (P.listens timed.old.port.now) (P.doors timed.old.port.now))
        (port_told (P.faults timed.new.port.now) (P.opened timed.new.port.now) (P.returned timed.new.port.now)
        (P.listens timed.new.port.now) (P.doors timed.new.port.now))
        (clock_told (C.faults timed.old.clock.now) (C.given timed.old.clock.now) (C.pace timed.old.clock.now) (C.twins timed.old.clock.now))
        (clock_told (C.faults timed.new.clock.now) (C.given timed.new.clock.now) (C.pace timed.new.clock.now) (C.twins timed.new.clock.now))
        result.links result.end
        × KeepsWatches site history
        × (result.machine ≡ after acts site history) }
    ensures cause { HasPortCause result.end (P.faults timed.old.port.now) (P.faults timed.new.port.now)
        (C.faults timed.old.clock.now) (C.faults timed.new.clock.now) }
    ensures same { (timed.new.port.ghost_name ≡ timed.old.port.ghost_name) × (timed.new.clock.ghost_name ≡ timed.old.clock.ghost_name) }
{
    site.sound_law();
    ob_server::serve_port(serving, site, timed, staff)
}
