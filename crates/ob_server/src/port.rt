//! The doors of one port, served by workers over one desk.
ghost use Rattle.std.specs.Prelude.{◌≡◌, ◌<◌, [], length, is_some, option_copied};
ghost use Rattle.std.specs.Vec.{vec_capacity};
ghost use Rattle.ob_machine.specs.History.{after};
ghost use Rattle.ob_server.specs.GivenBack.{port_told, clock_told};
ghost use Rattle.ob_server.specs.Port.{HasOpened, ServesDoors, HasPortCause};
ghost use Rattle.ob_server.specs.Together.{IsFirst};

use crate::passes::join_workers;
use crate::service::{Service, Serving, TimedPort};
use crate::worker::{Served, Worker, WorkerEnd, serve};
use ob_io::{Clock, Door, Port};
use ob_machine::Machine;
use ob_object::Obj;
use ob_site_rules::Request;
use ob_turn::{Desk, Pass};
use std::sync::Wait;
use std::sync::atomic::AtomicBool;
use std::thread::Threads;

/// Makes so many workers, each with one share of the pass, a door of the port and a twin of the clock, in the room that
/// the list has for them. Where a door or a twin can't be had, the list has those before it.
fn open_workers<M: Machine, P: Port, C: Clock>(
    desk: &Desk<M>,
    pass: &mut Pass<M>,
    timed: &mut TimedPort<'_, '_, P, C>,
    workers: &mut Vec<Worker<M, P::D, C>>,
    count: u32,
) -> Result<(), WorkerEnd>
    requires of { pass.old.table ≡ desk.now.table }
    requires left { count < length pass.old.numbers }
    requires none { workers.old.items ≡ [] }
    requires room { vec_capacity workers.old ≡ count }
    ensures opened { HasOpened P.D.faults P.D.handed P.D.returned P.D.visits C.given C.pace C.faults
        count workers.new.items result pass.old pass.new
        (port_told (P.faults timed.old.port.now) (P.opened timed.old.port.now) (P.returned timed.old.port.now)
        (P.listens timed.old.port.now) (P.doors timed.old.port.now))
        (port_told (P.faults timed.new.port.now) (P.opened timed.new.port.now) (P.returned timed.new.port.now)
        (P.listens timed.new.port.now) (P.doors timed.new.port.now))
        (clock_told (C.faults timed.old.clock.now) (C.given timed.old.clock.now) (C.pace timed.old.clock.now) (C.twins timed.old.clock.now))
        (clock_told (C.faults timed.new.clock.now) (C.given timed.new.clock.now) (C.pace timed.new.clock.now) (C.twins timed.new.clock.now)) }
    ensures same { (timed.new.port.ghost_name ≡ timed.old.port.ghost_name) × (timed.new.clock.ghost_name ≡ timed.old.clock.ghost_name) }
{
    for _ in 0..count {
        let Ok(twin) = timed.clock.twin() else {
            return Err(WorkerEnd::ClockFault);
        };
        let Ok(door) = timed.port.door() else {
            timed.clock.back(twin);
            return Err(WorkerEnd::DoorFault);
        };
        workers.push_reserved(Worker {
            pass: pass.split(desk, 1),
            door,
            clock: twin,
            links: 0,
            end: WorkerEnd::Quota,
        });
    }
    Ok(())
}

/// How many workers serve the doors of a port, and how many links each of them serves.
#[derive(Clone, Copy, Drop)]
pub struct Staff<'a> {
    pub workers: u32,
    pub quota: u32,
    /// None: a link for which memory was wanting is a worker's last one. A flag: it is where the flag is false then.
    pub stays: Option<&'a AtomicBool>,
}

/// What the service of a port came to.
#[derive(Drop)]
pub struct PortServed<M> {
    /// The machine, which has done all that it was asked.
    pub machine: M,
    /// How many links were served; none where not every worker could begin.
    pub links: Option<u64>,
    /// The first end of a worker that is neither `Quota` nor `Closed`, else `Quota`; or why not every worker could begin.
    pub end: WorkerEnd,
}

/// Serves the links of doors of a port under a desk of its own pass.
fn serve_doors<
    R: Threads + Wait + Sync,
    M: Machine<Request = Request, Reply = Obj> + Send,
    D: Door + Send,
    P: Port<D = D>,
    C: Clock + Send,
>(
    service: &Service<'_, '_, '_, M, R>,
    pass: &mut Pass<M>,
    timed: &mut TimedPort<'_, '_, P, C>,
    staff: Staff<'_>,
) -> (Option<u64>, WorkerEnd)
where
    D::L: Send,
    requires of { pass.old.table ≡ service.now.desk.now.table }
    requires first { IsFirst pass.old }
    requires count { length pass.old.numbers ≡ 4294967296 }
    ensures of { pass.new.table ≡ pass.old.table }
    ensures count { length pass.new.numbers ≡ 4294967296 }
    ensures serves { ServesDoors D.faults D.handed D.returned D.visits C.given C.pace C.faults
        M.act D.is_closed (option_copied service.now.ns) service.now.desk.now.opening
        staff.entry.workers staff.entry.quota (is_some staff.entry.stays) pass.new.seen
        (port_told (P.faults timed.old.port.now) (P.opened timed.old.port.now) (P.returned timed.old.port.now)
        (P.listens timed.old.port.now) (P.doors timed.old.port.now))
        (port_told (P.faults timed.new.port.now) (P.opened timed.new.port.now) (P.returned timed.new.port.now)
        (P.listens timed.new.port.now) (P.doors timed.new.port.now))
        (clock_told (C.faults timed.old.clock.now) (C.given timed.old.clock.now) (C.pace timed.old.clock.now) (C.twins timed.old.clock.now))
        (clock_told (C.faults timed.new.clock.now) (C.given timed.new.clock.now) (C.pace timed.new.clock.now) (C.twins timed.new.clock.now))
        result.0 result.1 }
    ensures cause { HasPortCause result.1 (P.faults timed.old.port.now) (P.faults timed.new.port.now)
        (C.faults timed.old.clock.now) (C.faults timed.new.clock.now) }
    ensures same { (timed.new.port.ghost_name ≡ timed.old.port.ghost_name) × (timed.new.clock.ghost_name ≡ timed.old.clock.ghost_name) }
{
    let Ok(mut workers) = Vec::with_capacity(service.alloc, staff.workers as usize) else {
        return (None, WorkerEnd::Memory);
    };
    if let Err(end) = open_workers(service.desk, pass, timed, &mut workers, staff.workers) {
        join_workers(service.desk, pass, timed.port, timed.clock, workers);
        return (None, end);
    }
    let Served {
        workers,
        links,
        end,
    } = serve(
        service.rt,
        service.alloc,
        service.desk,
        service.ns,
        workers,
        staff.quota,
        staff.stays,
    );
    join_workers(service.desk, pass, timed.port, timed.clock, workers);
    (Some(links), end)
}

/// Serves the links of doors of a port, each door's by a worker with a clock of its own, all over one desk of the
/// machine. Where a door or a clock can't be had, or there is no memory to begin, no link is served. The port and the
/// clock have all their doors and twins back.
pub fn serve_port<
    R: Threads + Wait + Sync,
    M: Machine<Request = Request, Reply = Obj> + Send,
    D: Door + Send,
    P: Port<D = D>,
    C: Clock + Send,
>(
    serving: &Serving<'_, '_, R>,
    machine: M,
    timed: &mut TimedPort<'_, '_, P, C>,
    staff: Staff<'_>,
) -> PortServed<M>
where
    D::L: Send,
    ensures serves { (history : _) × ServesDoors D.faults D.handed D.returned D.visits C.given C.pace C.faults
        M.act D.is_closed (option_copied serving.now.ns) machine
        staff.entry.workers staff.entry.quota (is_some staff.entry.stays) history
        (port_told (P.faults timed.old.port.now) (P.opened timed.old.port.now) (P.returned timed.old.port.now)
        (P.listens timed.old.port.now) (P.doors timed.old.port.now))
        (port_told (P.faults timed.new.port.now) (P.opened timed.new.port.now) (P.returned timed.new.port.now)
        (P.listens timed.new.port.now) (P.doors timed.new.port.now))
        (clock_told (C.faults timed.old.clock.now) (C.given timed.old.clock.now) (C.pace timed.old.clock.now) (C.twins timed.old.clock.now))
        (clock_told (C.faults timed.new.clock.now) (C.given timed.new.clock.now) (C.pace timed.new.clock.now) (C.twins timed.new.clock.now))
        result.links result.end
        × (result.machine ≡ after M.act machine history) }
    ensures cause { HasPortCause result.end (P.faults timed.old.port.now) (P.faults timed.new.port.now)
        (C.faults timed.old.clock.now) (C.faults timed.new.clock.now) }
    ensures same { (timed.new.port.ghost_name ≡ timed.old.port.ghost_name) × (timed.new.clock.ghost_name ≡ timed.old.clock.ghost_name) }
{
    match Desk::new(serving.alloc, machine) {
        Ok((desk, mut pass)) => {
            let service = Service {
                rt: serving.rt,
                alloc: serving.alloc,
                desk: &desk,
                ns: serving.ns,
            };
            let (links, end) = serve_doors(&service, &mut pass, timed, staff);
            PortServed {
                machine: desk.close(pass),
                links,
                end,
            }
        }
        Err((machine, _)) => PortServed {
            machine,
            links: None,
            end: WorkerEnd::Memory,
        },
    }
}
