//! A port in memory.
ghost use Rattle.std.specs.Prelude.{◌≡◌, [], true, false, Some, None, option_map, if◌then◌else◌};

use crate::fresh::Fresh;
use crate::kept::{Kept, Place};
use crate::link::Link;
use crate::mem_door::MemDoor;
use crate::memory::Calls;
use crate::port::Port;
use crate::{Cause, Failed};
use std::alloc::Global;
use std::collections::VecDeque;

/// The links that wait at a door, and the calls of the door that are to fail.
#[derive(Drop)]
pub struct Waiting<L: Link> {
    pub links: Vec<Fresh<L>>,
    pub failing: Vec<u64>,
}

/// A port that gives doors in their order. A call of `listen` or `door` fails at the calls of a list of numbers, the first
/// call being 0, and a `door` also where no door is left; no other fails. It keeps the places that it was to listen on
/// and the doors that came back while memory allows; from then on they are told no longer.
#[derive(Drop)]
pub struct MemPort<L: Link> {
    alloc: Global,
    unopened: VecDeque<Waiting<L>, Global>,
    opened: u64,
    returned: u64,
    listens: Kept<Place>,
    back: Kept<MemDoor<L>>,
    calls: Calls,
    // the cause that a refused call tells
    tells: Cause,
    refusal: Cause,
}

impl<L: Link + Drop> MemPort<L> {
    ghost use Rattle.ob_io.specs.Memory.{AtFirst};

    /// A port with these doors, which fails at the calls of these numbers.
    pub fn new(alloc: Global, doors: Vec<Waiting<L>>, failing: Vec<u64>) -> MemPort<L>
        ensures doors { result.unopened.items ≡ doors.items }
        ensures unused { (result.opened ≡ 0) × (result.returned ≡ 0) }
        ensures listens { (result.listens.things.items ≡ []) × (result.listens.is_told ≡ true) }
        ensures back { (result.back.things.items ≡ []) × (result.back.is_told ≡ true) }
        ensures calls { AtFirst failing result.calls }
        ensures untold { (result.tells ≡ Cause.Untold) × (result.refusal ≡ Cause.Untold) }
    {
        MemPort {
            alloc,
            unopened: VecDeque::from_vec(doors),
            opened: 0,
            returned: 0,
            listens: Kept::new(alloc),
            back: Kept::new(alloc),
            calls: Calls::new(failing),
            tells: Cause::Untold,
            refusal: Cause::Untold,
        }
    }

    /// The port whose calls tell this cause where they fail.
    pub fn telling(self, cause: Cause) -> MemPort<L>
        ensures { result ≡ record self { tells = cause } }
    {
        let mut port = self;
        port.tells = cause;
        port
    }

    /// The doors that came back, where they are still told.
    pub fn doors(&self) -> Option<&[MemDoor<L>]>
        ensures { option_map (λ doors. doors.now) result
            ≡ (if self.now.back.is_told then Some self.now.back.things.items else None) }
    {
        self.back.all()
    }
}

/// What is told once a door is back, of which nothing is told where it had failed.
fn told_after(failed: bool, before: Cause) -> Cause
    ensures whole { failed ≡ false → result ≡ before }
    ensures untold { failed ≡ true → result ≡ Cause.Untold }
{
    if failed { Cause::Untold } else { before }
}

impl<L: Link + Drop + Send> Port for MemPort<L> {
    ghost use Rattle.std.specs.Prelude.{◌==◌, ◌||◌, ◌∷◌, length, is_err, IfOk, OnOk, IfErr, MatchResult};
    ghost use Rattle.ob_io.specs.Faults.{HasCause};
    ghost use Rattle.ob_io.specs.Told.{Gains};
    ghost use Rattle.ob_io.specs.Visits.{raised};
    ghost use Rattle.ob_io.specs.Doors.{IsUnused};
    ghost use Rattle.ob_io.specs.Memory.{AtFirst, CountsCall, next_fails};
    ghost use Rattle.ob_io.specs.Kept.{visits_of, doorways_of, dials_of};

    type D = MemDoor<L>;

    ghost faults = { λ s. s.calls.faults };

    ghost refusal = { λ s. s.refusal };

    ghost opened = { λ s. s.opened };

    ghost returned = { λ s. s.returned };

    ghost listens = { λ s. dials_of s.listens.is_told s.listens.things.items };

    ghost doors = { λ s. doorways_of (λ d. d.calls.faults) (λ d. d.handed) (λ d. d.returned)
        (λ d. length d.waiting.items == 0) (λ d. visits_of L.left L.taken L.held L.read_faults L.write_faults d.back.is_told d.back.things.items)
        s.back.is_told s.back.things.items };

    fn listen(&mut self, host: &str, port: u16) -> Result<(), Failed>
        ensures listens { Gains (dials_of self.old.listens.is_told self.old.listens.things.items)
            (record { host = host.now; port = port; failed = is_err result } ∷ [])
            (dials_of self.new.listens.is_told self.new.listens.things.items) }
        ensures apart { (self.new.opened ≡ self.old.opened) × (self.new.returned ≡ self.old.returned)
            × (doorways_of (λ d. d.calls.faults) (λ d. d.handed) (λ d. d.returned)
            (λ d. length d.waiting.items == 0) (λ d. visits_of L.left L.taken L.held L.read_faults L.write_faults d.back.is_told d.back.things.items)
            self.new.back.is_told self.new.back.things.items
            ≡ doorways_of (λ d. d.calls.faults) (λ d. d.handed) (λ d. d.returned)
            (λ d. length d.waiting.items == 0) (λ d. visits_of L.left L.taken L.held L.read_faults L.write_faults d.back.is_told d.back.things.items)
            self.old.back.is_told self.old.back.things.items) }
        ensures told { OnOk result (self.new.refusal ≡ self.old.refusal) }
        ensures cause { HasCause self.old.calls.faults self.new.calls.faults result }
        ensures why { IfErr result (λ _. self.new.refusal ≡ self.old.tells) }
        ensures same { self.new.unopened.items ≡ self.old.unopened.items }
        ensures planned { is_err result ≡ next_fails self.old.calls }
        ensures counted { CountsCall self.old.calls self.new.calls }
    {
        let fails = self.calls.next();
        self.listens.note(host, port, fails);
        if fails {
            self.refusal = self.tells;
            return Err(self.calls.fail());
        }
        Ok(())
    }

    fn last_cause(&self) -> Cause {
        self.refusal
    }

    fn door(&mut self) -> Result<MemDoor<L>, Failed>
        ensures unused { IfOk result (λ d. IsUnused d.calls.faults d.handed d.returned
            (visits_of L.left L.taken L.held L.read_faults L.write_faults d.back.is_told d.back.things.items)) }
        ensures opened { MatchResult result (λ d. self.new.opened ≡ raised self.old.opened 1)
            (λ _. self.new.opened ≡ self.old.opened) }
        ensures apart { (self.new.returned ≡ self.old.returned)
            × (dials_of self.new.listens.is_told self.new.listens.things.items
            ≡ dials_of self.old.listens.is_told self.old.listens.things.items)
            × (doorways_of (λ d. d.calls.faults) (λ d. d.handed) (λ d. d.returned)
            (λ d. length d.waiting.items == 0) (λ d. visits_of L.left L.taken L.held L.read_faults L.write_faults d.back.is_told d.back.things.items)
            self.new.back.is_told self.new.back.things.items
            ≡ doorways_of (λ d. d.calls.faults) (λ d. d.handed) (λ d. d.returned)
            (λ d. length d.waiting.items == 0) (λ d. visits_of L.left L.taken L.held L.read_faults L.write_faults d.back.is_told d.back.things.items)
            self.old.back.is_told self.old.back.things.items) }
        ensures told { IfOk result (λ _. self.new.refusal ≡ self.old.refusal) }
        ensures cause { HasCause self.old.calls.faults self.new.calls.faults result }
        ensures why { IfErr result (λ _. self.new.refusal ≡ self.old.tells) }
        ensures next { MatchResult result
            (λ d. (waiting : _) × (self.old.unopened.items ≡ waiting ∷ self.new.unopened.items)
            × (d.waiting.items ≡ waiting.links.items) × AtFirst waiting.failing d.calls)
            (λ _. self.new.unopened.items ≡ self.old.unopened.items) }
        ensures planned { is_err result ≡ (next_fails self.old.calls || (length self.old.unopened.items == 0)) }
        ensures counted { CountsCall self.old.calls self.new.calls }
    {
        if !self.calls.next()
            && let Some(waiting) = self.unopened.pop_front()
        {
            self.opened = self.opened.saturating_add(1);
            return Ok(MemDoor::new(self.alloc, waiting.links, waiting.failing));
        }
        self.refusal = self.tells;
        Err(self.calls.fail())
    }

    fn back(&mut self, door: MemDoor<L>) {
        self.returned = self.returned.saturating_add(1);
        let failed = door.has_failed();
        self.calls.fail_if(failed);
        self.refusal = told_after(failed, self.refusal);
        self.back.keep(door);
    }
}
