//! Doors of a port that are served from a site that is kept. The call is ob_server's; of all that was asked the laws of the site
//! hold.
ghost use Rattle.std.specs.Prelude.{◌≡◌, true, option_copied};
ghost use Rattle.ob_machine.specs.History.{after};
ghost use Rattle.ob_server.specs.GivenBack.{port_told, clock_told};
ghost use Rattle.ob_server.specs.Port.{ServesDoors, HasPortCause};
ghost use Rattle.ob_kept.specs.Fronts.{KeepsLaws};
ghost use Rattle.ob_kept.specs.Keeping.{kept_act};

use crate::kept::Kept;
use ob_io::{Clock, Door, Port};
use ob_journal::Device;
use ob_object::Obj;
use ob_server::{PortServed, Serving, Staff, TimedPort};
use ob_site::Machine;
use ob_site_rules::Request;
use ob_times::Moment;
use std::alloc::AllocError;
use std::marker::Model;
use std::sync::Wait;
use std::sync::atomic::{AtomicBool, Ordering};
use std::thread::Threads;

/// A site that is kept, as workers share it that go on after a link for which memory was wanting: once a call of the device has
/// failed, no request is answered any more, and the flag is lowered, so that each ends.
struct Shared<'a, D: Device> {
    kept: Kept<D>,
    /// Whether a worker goes on.
    stays: &'a AtomicBool,
}

impl<'a, D: Device> Model for Shared<'a, D> {
    ghost use Rattle.ob_kept.specs.Keeping.{Keeping, keeping_code};

    ghost Value = { Keeping };

    ghost coded = { keeping_code };

    ghost view = { λ s. s.kept };
}

impl<'a, D: Device> Shared<'a, D> {
    /// The site.
    fn into_kept(self) -> Kept<D>
        ensures { result ≡ self.entry }
    {
        let Shared { kept, stays: _ } = self;
        kept
    }
}

impl<'a, D: Device> Machine for Shared<'a, D> {
    ghost use Rattle.ob_kept.specs.Keeping.{kept_act};

    type Request = Request;

    type Reply = Obj;

    ghost act = { kept_act };

    /// Does one request at a moment, as the site that is kept does, and lowers the flag where a call of the device has failed.
    fn step(&mut self, request: &Request, moment: Moment) -> Result<Obj, AllocError> {
        let reply = self.kept.step(request, moment);
        if self.kept.has_failed() {
            self.stays.store(false, Ordering::SeqCst);
        }
        reply
    }
}

/// Serves the links of doors of a port from a site that is kept, each door's by a worker with a clock of its own. Where a door or
/// a clock can't be had, or there is no memory to begin, no link is served. The port and the clock have all their doors and twins
/// back.
///
/// Want of memory ends the one link, and its worker goes on with the next one. Once a call of the device has failed, no request is
/// answered any more: the worker that meets that closes its door and ends.
pub fn serve_port<
    R: Threads + Wait + Sync,
    V: Device + Send,
    D: Door + Send,
    P: Port<D = D>,
    C: Clock + Send,
>(
    serving: &Serving<'_, '_, R>,
    kept: Kept<V>,
    timed: &mut TimedPort<'_, '_, P, C>,
    workers: u32,
    quota: u32,
) -> PortServed<Kept<V>>
where
    D::L: Send,
    ensures serves { (history : _) × ServesDoors D.faults D.handed D.returned D.visits C.given C.pace C.faults
        kept_act D.is_closed (option_copied serving.now.ns) kept workers quota true history
        (port_told (P.faults timed.old.port.now) (P.opened timed.old.port.now) (P.returned timed.old.port.now)
        (P.listens timed.old.port.now) (P.doors timed.old.port.now))
        (port_told (P.faults timed.new.port.now) (P.opened timed.new.port.now) (P.returned timed.new.port.now)
        (P.listens timed.new.port.now) (P.doors timed.new.port.now))
        (clock_told (C.faults timed.old.clock.now) (C.given timed.old.clock.now) (C.pace timed.old.clock.now) (C.twins timed.old.clock.now))
        (clock_told (C.faults timed.new.clock.now) (C.given timed.new.clock.now) (C.pace timed.new.clock.now) (C.twins timed.new.clock.now))
        result.links result.end
        × KeepsLaws kept history result.machine
        × (result.machine ≡ after kept_act kept history) }
    ensures cause { HasPortCause result.end (P.faults timed.old.port.now) (P.faults timed.new.port.now)
        (C.faults timed.old.clock.now) (C.faults timed.new.clock.now) }
    ensures same { (timed.new.port.ghost_name ≡ timed.old.port.ghost_name) × (timed.new.clock.ghost_name ≡ timed.old.clock.ghost_name) }
{
    kept.sound_law();
    let stays = AtomicBool::new(true);
    let staff = Staff {
        workers,
        quota,
        stays: Some(&stays),
    };
    let shared = Shared {
        kept,
        stays: &stays,
    };
    let PortServed {
        machine,
        links,
        end,
    } = ob_server::serve_port(serving, shared, timed, staff);
    PortServed {
        machine: machine.into_kept(),
        links,
        end,
    }
}
