//! A door in memory.
ghost use Rattle.std.specs.Prelude.{◌≡◌, ◌==◌, [], true, not, Some, None, option_map, if◌then◌else◌};

use crate::Failed;
use crate::door::Door;
use crate::fresh::Fresh;
use crate::kept::Kept;
use crate::link::Link;
use crate::memory::Calls;
use std::alloc::Global;
use std::collections::VecDeque;

/// A door that hands out links in their order, and is closed when all are handed out. An `accept` fails at the calls of a
/// list of numbers and at no other, the first call being 0. It keeps the links that came back while memory allows; from
/// then on they are told no longer.
#[derive(Drop)]
pub struct MemDoor<L: Link> {
    waiting: VecDeque<Fresh<L>, Global>,
    handed: u64,
    returned: u64,
    back: Kept<L>,
    calls: Calls,
}

impl<L: Link + Drop> MemDoor<L> {
    ghost use Rattle.ob_io.specs.Memory.{AtFirst};

    /// A door with these links, which fails at the calls of these numbers.
    pub fn new(alloc: Global, links: Vec<Fresh<L>>, failing: Vec<u64>) -> MemDoor<L>
        ensures links { result.waiting.items ≡ links.items }
        ensures unused { (result.handed ≡ 0) × (result.returned ≡ 0) }
        ensures back { (result.back.things.items ≡ []) × (result.back.is_told ≡ true) }
        ensures calls { AtFirst failing result.calls }
    {
        MemDoor {
            waiting: VecDeque::from_vec(links),
            handed: 0,
            returned: 0,
            back: Kept::new(alloc),
            calls: Calls::new(failing),
        }
    }

    /// The links that came back, where they are still told.
    pub fn links(&self) -> Option<&[L]>
        ensures { option_map (λ links. links.now) result
            ≡ (if self.now.back.is_told then Some self.now.back.things.items else None) }
    {
        self.back.all()
    }

    /// Whether it has failed.
    pub(crate) fn has_failed(&self) -> bool
        ensures { result ≡ not (self.now.calls.faults == 0) }
    {
        self.calls.faults > 0
    }
}

impl<L: Link + Drop> Door for MemDoor<L> {
    ghost use Rattle.std.specs.Prelude.{length, map, ◌++◌, is_err, IfOk, IfSome, IfNone, MatchResult, MatchOption, option_to_list};
    ghost use Rattle.ob_io.specs.Faults.{HasCause};
    ghost use Rattle.ob_io.specs.Visits.{IsFresh, raised};
    ghost use Rattle.ob_io.specs.Memory.{CountsCall, next_fails};
    ghost use Rattle.ob_io.specs.Kept.{visits_of};

    type L = L;

    ghost faults = { λ s. s.calls.faults };

    ghost handed = { λ s. s.handed };

    ghost returned = { λ s. s.returned };

    ghost is_closed = { λ s. length s.waiting.items == 0 };

    ghost visits = { λ s. visits_of L.left L.taken L.held L.read_faults L.write_faults
        s.back.is_told s.back.things.items };

    fn accept(&mut self) -> Result<Option<L>, Failed>
        ensures fresh { IfOk result (λ next. IfSome next (λ link. IsFresh (L.taken link)
            (L.held link) (L.read_faults link) (L.write_faults link))) }
        ensures handed { MatchResult result
            (λ next. MatchOption next (self.new.handed ≡ self.old.handed)
            (λ link. self.new.handed ≡ raised self.old.handed 1))
            (λ _. self.new.handed ≡ self.old.handed) }
        ensures closed { IfOk result (λ next. IfNone next ((length self.new.waiting.items == 0) ≡ true)) }
        ensures apart { (self.new.returned ≡ self.old.returned)
            × (visits_of L.left L.taken L.held L.read_faults L.write_faults
            self.new.back.is_told self.new.back.things.items
            ≡ visits_of L.left L.taken L.held L.read_faults L.write_faults
            self.old.back.is_told self.old.back.things.items) }
        ensures cause { HasCause self.old.calls.faults self.new.calls.faults result }
        ensures next { MatchResult result
            (λ next. map (λ fresh. fresh.link) self.old.waiting.items
            ≡ option_to_list next ++ map (λ fresh. fresh.link) self.new.waiting.items)
            (λ _. self.new.waiting.items ≡ self.old.waiting.items) }
        ensures planned { is_err result ≡ next_fails self.old.calls }
        ensures counted { CountsCall self.old.calls self.new.calls }
    {
        if self.calls.next() {
            return Err(self.calls.fail());
        }
        match self.waiting.pop_front() {
            Some(fresh) => {
                self.handed = self.handed.saturating_add(1);
                Ok(Some(fresh.into_link()))
            }
            None => Ok(None),
        }
    }

    fn back(&mut self, link: L) {
        self.returned = self.returned.saturating_add(1);
        self.back.keep(link);
    }

    /// Closes it: the links that wait are let go.
    fn close(&mut self) {
        self.waiting.clear();
    }
}
