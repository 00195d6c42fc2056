//! Passes of one desk for callers that work side by side, which are split off before and joined afterwards.
ghost use Rattle.std.specs.Prelude.{◌≡◌, ℕ, ◌<◌, length, slice_index_or, IfOk, OnErr};
ghost use Rattle.ob_server.specs.GivenBack.{GivenBack, port_told, clock_told};
ghost use Rattle.ob_server.specs.Together.{AreSplit, AreJoined, AllContinue, IsFirst, IsWhole};

use crate::worker::Worker;
use ob_io::{Clock, Port};
use ob_machine::Machine;
use ob_turn::{Desk, Pass};
use std::alloc::{AllocError, Global};

/// A pass for each of so many callers, which takes one share of this one. Where memory is wanting, the pass stays as it
/// was.
pub fn split_passes<M: Machine>(
    alloc: Global,
    desk: &Desk<M>,
    pass: &mut Pass<M>,
    count: u32,
) -> Result<Vec<Pass<M>>, AllocError>
    requires of { pass.old.table ≡ desk.now.table }
    requires left { count < length pass.old.numbers }
    ensures kept { OnErr result (pass.new ≡ pass.old) }
    ensures count { IfOk result (λ passes. length passes.items ≡ count) }
    ensures split { IfOk result (λ passes. AreSplit pass.old pass.new passes.items) }
{
    let mut passes = Vec::with_capacity(alloc, count as usize)?;
    for _ in 0..count {
        passes.push_reserved(pass.split(desk, 1));
    }
    Ok(passes)
}

/// Joins the workers' passes to one, and gives their doors back to the port and their clocks to the clock, the last
/// worker's first.
pub fn join_workers<M: Machine, P: Port, C: Clock>(
    desk: &Desk<M>,
    pass: &mut Pass<M>,
    port: &mut P,
    clock: &mut C,
    workers: Vec<Worker<M, P::D, C>>,
)
    requires of { pass.old.table ≡ desk.now.table }
    requires each { (k : ℕ) (d : _) → k < length workers.items
        → (slice_index_or workers.items k d).pass.table ≡ desk.now.table }
    ensures { GivenBack M.act P.D.faults P.D.handed P.D.returned P.D.visits P.D.is_closed C.given C.faults
        desk.now.opening workers.items pass.old pass.new
        (port_told (P.faults port.old) (P.opened port.old) (P.returned port.old)
        (P.listens port.old) (P.doors port.old))
        (port_told (P.faults port.new) (P.opened port.new) (P.returned port.new)
        (P.listens port.new) (P.doors port.new))
        (clock_told (C.faults clock.old) (C.given clock.old) (C.pace clock.old) (C.twins clock.old))
        (clock_told (C.faults clock.new) (C.given clock.new) (C.pace clock.new) (C.twins clock.new)) }
{
    let mut workers = workers;
    while let Some(worker) = workers.pop() {
        let Worker {
            pass: own,
            door,
            clock: twin,
            ..
        } = worker;
        pass.join(desk, own);
        port.back(door);
        clock.back(twin);
    }
    workers.destroy_empty();
}

/// Passes that were split off from the first pass of a desk, asked and joined again: the joined pass has all shares,
/// and has seen a legal history that is made of their calls.
pub fn joined_is_whole<M: Machine>(desk: &Desk<M>)
    ensures { (first left last : _) (before after : _) → IsFirst first → AreSplit first left before
        → AllContinue M.act desk.now.opening before after
        → AreJoined M.act desk.now.opening left after last
        → IsWhole M.act desk.now.opening after last }
{}
