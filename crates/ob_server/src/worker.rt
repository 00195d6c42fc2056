//! Workers, each of which serves the links of a door, all over one desk.
ghost use Rattle.std.specs.Prelude.{◌≡◌, ℕ, ◌≤◌, ◌<◌, ◌^◌, true, length, is_some, option_copied, All, slice_index_or, sum_by};
ghost use Rattle.ob_turn.specs.Standing.{mine};
ghost use Rattle.ob_server.specs.Passes.{Continues};
ghost use Rattle.ob_server.specs.Working as spec;
ghost use Rattle.ob_server.specs.Working.{DidNext, Worked, Stops, post, NextComes, EndComes, WorkerRan};

use crate::end::LinkEnd;
use crate::link::serve_link;
use crate::service::Service;
use ob_http::laws::{end_stays, framing_is_one};
use ob_io::{Clock, Door};
use ob_machine::Machine;
use ob_object::Obj;
use ob_site_rules::Request;
use ob_turn::{Desk, Pass};
use ob_values::Text;
use std::alloc::Global;
use std::sync::Wait;
use std::sync::atomic::{AtomicBool, Ordering};
use std::thread::{Threads, for_each_mut};

/// Why a worker ended.
#[derive(Clone, Copy, PartialEq, Eq, Drop)]
pub enum WorkerEnd {
    /// It had as many links as it was to have.
    Quota,
    /// Its door is closed.
    Closed,
    /// Its door handed out no link, and counts a fault.
    DoorFault,
    /// Its clock told no moment, and counts a fault.
    ClockFault,
    /// There was no memory.
    Memory,
}

/// What a worker met at its door.
#[derive(Clone, Copy, Drop)]
pub(crate) enum Next {
    /// A link, which was served and given back.
    Link(LinkEnd),
    Closed,
    Fault,
}

/// A worker: what it serves with, and how its last run went.
#[derive(Drop)]
pub struct Worker<M: Machine, D, C> {
    /// The pass under which it asks the desk.
    pub pass: Pass<M>,
    /// The door whose links it serves.
    pub door: D,
    /// The clock of its moments.
    pub clock: C,
    /// How many links it had.
    pub links: u64,
    /// Why it ended.
    pub end: WorkerEnd,
}

impl<M: Machine<Request = Request, Reply = Obj>, D: Door, C: Clock> Worker<M, D, C> {
    /// Serves the next link of the door, and gives it back.
    fn serve_next<R: Wait>(&mut self, service: &Service<'_, '_, '_, M, R>) -> Next
        requires { self.old.pass.table ≡ service.now.desk.now.table }
        ensures did { DidNext (option_copied service.now.ns)
            (post (D.visits self.old.door) (D.handed self.old.door) (D.returned self.old.door)
            (C.given self.old.clock) (mine self.old.pass))
            (post (D.visits self.new.door) (D.handed self.new.door) (D.returned self.new.door)
            (C.given self.new.clock) (mine self.new.pass)) result }
        ensures pass { Continues M.act service.now.desk.now.opening self.old.pass self.new.pass }
        ensures pace { C.pace self.new.clock ≡ C.pace self.old.clock }
        ensures doors_later { D.faults self.old.door ≤ D.faults self.new.door }
        ensures clocks_later { C.faults self.old.clock ≤ C.faults self.new.clock }
        ensures comes { NextComes result (D.is_closed self.new.door)
            (D.faults self.old.door) (D.faults self.new.door)
            (C.faults self.old.clock) (C.faults self.new.clock) }
    {
        let Ok(next) = self.door.accept() else {
            return Next::Fault;
        };
        let Some(accepted) = next else {
            return Next::Closed;
        };
        framing_is_one();
        end_stays();
        let mut link = accepted;
        let end = serve_link(
            service.rt,
            service.alloc,
            service.desk,
            &mut self.pass,
            service.ns,
            &mut link,
            &mut self.clock,
        );
        self.door.back(link);
        Next::Link(end)
    }

    /// Serves the links of the door one after the other, and tells how many it had and why it ended.
    fn serve_links<R: Wait>(
        &mut self,
        service: &Service<'_, '_, '_, M, R>,
        quota: u32,
        stays: Option<&AtomicBool>,
    ) -> (u64, WorkerEnd)
        requires { self.old.pass.table ≡ service.now.desk.now.table }
        ensures worked { Worked (option_copied service.now.ns) (is_some stays.entry)
            (post (D.visits self.old.door) (D.handed self.old.door) (D.returned self.old.door)
            (C.given self.old.clock) (mine self.old.pass))
            (post (D.visits self.new.door) (D.handed self.new.door) (D.returned self.new.door)
            (C.given self.new.clock) (mine self.new.pass)) result.0 result.1 }
        ensures pass { Continues M.act service.now.desk.now.opening self.old.pass self.new.pass }
        ensures pace { C.pace self.new.clock ≡ C.pace self.old.clock }
        ensures within { result.0 ≤ quota }
        ensures doors_later { D.faults self.old.door ≤ D.faults self.new.door }
        ensures clocks_later { C.faults self.old.clock ≤ C.faults self.new.clock }
        ensures comes { EndComes result.1 result.0 quota (D.is_closed self.new.door)
            (D.faults self.old.door) (D.faults self.new.door)
            (C.faults self.old.clock) (C.faults self.new.clock) }
    {
        let most = quota as u64;
        for links in 0..most {
            match self.serve_next(service) {
                Next::Link(end) => {
                    if let Some(stop) = stops_with(end, stays) {
                        return (links + 1, stop);
                    }
                }
                Next::Closed => return (links, WorkerEnd::Closed),
                Next::Fault => return (links, WorkerEnd::DoorFault),
            }
        }
        (most, WorkerEnd::Quota)
    }

    /// Serves the links of the door, and leaves in the worker how it went.
    fn run<R: Wait>(
        &mut self,
        service: &Service<'_, '_, '_, M, R>,
        quota: u32,
        stays: Option<&AtomicBool>,
    )
        requires { self.old.pass.table ≡ service.now.desk.now.table }
        ensures { WorkerRan M.act D.visits D.handed D.returned D.is_closed D.faults
            C.given C.pace C.faults (option_copied service.now.ns) service.now.desk.now.opening quota (is_some stays.entry) self.old self.new }
    {
        let (links, end) = self.serve_links(service, quota, stays);
        self.links = links;
        self.end = end;
        // The flag is lowered, and the machine answers no request any more: nobody is to wait at the door.
        if end == WorkerEnd::Memory && stays.is_some() {
            self.door.close();
        }
    }
}

/// Whether a worker goes on after a link for which memory was wanting.
fn goes_on(stays: Option<&AtomicBool>) -> bool
    ensures { result ≡ true → is_some stays.entry ≡ true }
{
    match stays {
        Some(flag) => flag.load(Ordering::SeqCst),
        None => false,
    }
}

/// The end of the worker at which a link's end brings it, if it does.
fn stops_with(end: LinkEnd, stays: Option<&AtomicBool>) -> Option<WorkerEnd>
    ensures { Stops (is_some stays.entry) end result }
{
    match end {
        LinkEnd::ClockFault => Some(WorkerEnd::ClockFault),
        LinkEnd::Memory => {
            if goes_on(stays) {
                None
            } else {
                Some(WorkerEnd::Memory)
            }
        }
        _ => None,
    }
}

/// Runs each worker in a thread of its own.
fn run_workers<
    R: Threads + Wait + Sync,
    M: Machine<Request = Request, Reply = Obj> + Send,
    D: Door + Send,
    C: Clock + Send,
>(
    service: &Service<'_, '_, '_, M, R>,
    workers: &mut [Worker<M, D, C>],
    quota: u32,
    stays: Option<&AtomicBool>,
)
where
    D::L: Send,
    requires { All (λ w. w.pass.table ≡ service.now.desk.now.table) workers.old }
    ensures { (k : ℕ) (d : _) → k < length workers.old
        → WorkerRan M.act D.visits D.handed D.returned D.is_closed D.faults C.given C.pace C.faults
        (option_copied service.now.ns) service.now.desk.now.opening quota (is_some stays.entry)
        (slice_index_or workers.old k d) (slice_index_or workers.new k d) }
{
    if workers.is_empty() {
        return;
    }
    let threads = workers.len();
    for_each_mut(
        service.rt,
        workers,
        threads,
        &|_, worker| worker.run(service, quota, stays),
    );
}

/// How the work went: the workers as they are afterwards, and what they did together.
#[derive(Drop)]
pub struct Served<M: Machine, D, C> {
    /// The workers that were handed in, in their order.
    pub workers: Vec<Worker<M, D, C>>,
    /// How many links they had in all.
    pub links: u64,
    /// The first end of a worker that is neither `Quota` nor `Closed`; else `Quota`.
    pub end: WorkerEnd,
}

/// Serves the links of each worker's door, each worker in a thread of its own.
///
/// A worker serves one link after the other, and gives each back to its door, until it has had `quota` links, its door
/// is closed, its door or clock failed or memory was wanting. With a flag `stays` it goes on after a link for which memory was
/// wanting, where the flag is true then; else it closes its door. Where no thread can be started, the caller's does the work.
pub fn serve<
    R: Threads + Wait + Sync,
    M: Machine<Request = Request, Reply = Obj> + Send,
    D: Door + Send,
    C: Clock + Send,
>(
    rt: &R,
    alloc: Global,
    desk: &Desk<M>,
    ns: Option<&Text>,
    workers: Vec<Worker<M, D, C>>,
    quota: u32,
    stays: Option<&AtomicBool>,
) -> Served<M, D, C>
where
    D::L: Send,
    requires few { length workers.items < 2 ^ 32 }
    requires of { All (λ w. w.pass.table ≡ desk.now.table) workers.items }
    ensures same { length result.workers.items ≡ length workers.items }
    ensures ran { (k : ℕ) (d : _) → k < length workers.items
        → WorkerRan M.act D.visits D.handed D.returned D.is_closed D.faults C.given C.pace C.faults
        (option_copied ns.entry) desk.now.opening quota (is_some stays.entry)
        (slice_index_or workers.items k d) (slice_index_or result.workers.items k d) }
    ensures links { result.links ≡ sum_by (λ w. w.links) result.workers.items }
    ensures end { result.end ≡ spec.first_end result.workers.items }
{
    let mut workers = workers;
    let service = Service {
        rt,
        alloc,
        desk,
        ns,
    };
    run_workers(&service, workers.as_mut_slice(), quota, stays);
    let links = total_links(&workers, quota);
    let end = first_end(&workers);
    Served {
        workers,
        links,
        end,
    }
}

/// How many links all had.
fn total_links<M: Machine, D, C>(workers: &[Worker<M, D, C>], quota: u32) -> u64
    requires few { length workers.now < 2 ^ 32 }
    requires each { (k : ℕ) (d : _) → k < length workers.now
        → (slice_index_or workers.now k d).links ≤ quota }
    ensures { result ≡ sum_by (λ w. w.links) workers.now }
{
    let mut links = 0;
    for worker in workers {
        links += worker.links;
    }
    links
}

/// The first end that is neither a quota had nor a closed door.
fn first_end<M: Machine<Request = Request, Reply = Obj>, D, C>(
    workers: &[Worker<M, D, C>],
) -> WorkerEnd
    ensures { result ≡ spec.first_end workers.now }
{
    for worker in workers {
        if is_fault(worker.end) {
            return worker.end;
        }
    }
    WorkerEnd::Quota
}

/// Whether the end is neither a quota had nor a closed door.
fn is_fault(end: WorkerEnd) -> bool
    ensures { result ≡ spec.is_fault end }
{
    match end {
        WorkerEnd::Quota | WorkerEnd::Closed => false,
        WorkerEnd::DoorFault | WorkerEnd::ClockFault | WorkerEnd::Memory => true,
    }
}
