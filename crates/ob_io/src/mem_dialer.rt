//! A dialer in memory.
ghost use Rattle.std.specs.Prelude.{◌≡◌, [], true, false, Some, None, option_map, if◌then◌else◌};

use crate::Failed;
use crate::counting::Counting;
use crate::dialer::Dialer;
use crate::fresh::Fresh;
use crate::kept::{Kept, Place};
use crate::link::Link;
use crate::memory::Calls;
use std::alloc::Global;
use std::collections::VecDeque;

/// A dialer that gives links in their order. A dial fails at the calls of a list of numbers, the first call being 0, and
/// where no link is left; no other fails. It keeps what was dialled and the links that came back while memory allows;
/// from then on they are told no longer.
#[derive(Drop)]
pub struct MemDialer<L: Link> {
    waiting: VecDeque<Fresh<L>, Global>,
    rose: bool,
    dials: Kept<Place>,
    back: Kept<L>,
    calls: Calls,
}

impl<L: Link + Drop> MemDialer<L> {
    ghost use Rattle.ob_io.specs.Memory.{AtFirst};

    /// A dialer with these links, which fails at the calls of these numbers.
    pub fn new(alloc: Global, links: Vec<Fresh<L>>, failing: Vec<u64>) -> MemDialer<L>
        ensures links { result.waiting.items ≡ links.items }
        ensures rose { result.rose ≡ false }
        ensures dials { (result.dials.things.items ≡ []) × (result.dials.is_told ≡ true) }
        ensures back { (result.back.things.items ≡ []) × (result.back.is_told ≡ true) }
        ensures calls { AtFirst failing result.calls }
    {
        MemDialer {
            waiting: VecDeque::from_vec(links),
            rose: false,
            dials: Kept::new(alloc),
            back: Kept::new(alloc),
            calls: Calls::new(failing),
        }
    }

    /// The links that came back, where they are still told.
    pub fn links(&self) -> Option<&[L]>
        ensures { option_map (λ links. links.now) result
            ≡ (if self.now.back.is_told then Some self.now.back.things.items else None) }
    {
        self.back.all()
    }
}

impl<L: Counting + Drop> Dialer for MemDialer<L> {
    ghost use Rattle.std.specs.Prelude.{◌==◌, ◌||◌, ◌∷◌, map, length, is_err, IfOk, MatchResult};
    ghost use Rattle.ob_io.specs.Faults.{HasCause};
    ghost use Rattle.ob_io.specs.Told.{Gains};
    ghost use Rattle.ob_io.specs.Visits.{IsFresh};
    ghost use Rattle.ob_io.specs.Memory.{CountsCall, next_fails};
    ghost use Rattle.ob_io.specs.Kept.{visits_of, dials_of};

    type L = L;

    ghost faults = { λ s. s.calls.faults };

    ghost rose = { λ s. s.rose };

    ghost dials = { λ s. dials_of s.dials.is_told s.dials.things.items };

    ghost visits = { λ s. visits_of L.left L.taken L.held L.read_faults L.write_faults
        s.back.is_told s.back.things.items };

    fn dial(&mut self, host: &str, port: u16) -> Result<L, Failed>
        ensures fresh { IfOk result (λ link. IsFresh (L.taken link) (L.held link)
            (L.read_faults link) (L.write_faults link)) }
        ensures dials { Gains (dials_of self.old.dials.is_told self.old.dials.things.items)
            (record { host = host.now; port = port; failed = is_err result } ∷ [])
            (dials_of self.new.dials.is_told self.new.dials.things.items) }
        ensures cause { HasCause self.old.calls.faults self.new.calls.faults result }
        ensures rose { self.new.rose ≡ is_err result }
        ensures apart { visits_of L.left L.taken L.held L.read_faults L.write_faults
            self.new.back.is_told self.new.back.things.items
            ≡ visits_of L.left L.taken L.held L.read_faults L.write_faults
            self.old.back.is_told self.old.back.things.items }
        ensures next { MatchResult result
            (λ link. map (λ fresh. fresh.link) self.old.waiting.items
            ≡ link ∷ map (λ fresh. fresh.link) self.new.waiting.items)
            (λ _. self.new.waiting.items ≡ self.old.waiting.items) }
        ensures planned { is_err result ≡ (next_fails self.old.calls || (length self.old.waiting.items == 0)) }
        ensures counted { CountsCall self.old.calls self.new.calls }
    {
        let fails = self.calls.next() || self.waiting.is_empty();
        self.dials.note(host, port, fails);
        self.rose = fails;
        if !fails && let Some(fresh) = self.waiting.pop_front() {
            return Ok(fresh.into_link());
        }
        Err(self.calls.fail())
    }

    fn dial_within(&mut self, host: &str, port: u16, ms: u32) -> Result<L, Failed>
        ensures fresh { IfOk result (λ link. IsFresh (L.taken link) (L.held link)
            (L.read_faults link) (L.write_faults link)) }
        ensures dials { Gains (dials_of self.old.dials.is_told self.old.dials.things.items)
            (record { host = host.now; port = port; failed = is_err result } ∷ [])
            (dials_of self.new.dials.is_told self.new.dials.things.items) }
        ensures cause { HasCause self.old.calls.faults self.new.calls.faults result }
        ensures rose { self.new.rose ≡ is_err result }
        ensures apart { visits_of L.left L.taken L.held L.read_faults L.write_faults
            self.new.back.is_told self.new.back.things.items
            ≡ visits_of L.left L.taken L.held L.read_faults L.write_faults
            self.old.back.is_told self.old.back.things.items }
        ensures next { MatchResult result
            (λ link. map (λ fresh. fresh.link) self.old.waiting.items
            ≡ link ∷ map (λ fresh. fresh.link) self.new.waiting.items)
            (λ _. self.new.waiting.items ≡ self.old.waiting.items) }
        ensures planned { is_err result ≡ (next_fails self.old.calls || (length self.old.waiting.items == 0)) }
        ensures counted { CountsCall self.old.calls self.new.calls }
    {
        let _ = ms;
        self.dial(host, port)
    }

    fn back(&mut self, link: L) {
        let failed = link.has_failed();
        self.calls.fail_if(failed);
        self.rose = failed;
        self.back.keep(link);
    }
}
