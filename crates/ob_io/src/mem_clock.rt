//! A clock in memory.
ghost use Rattle.std.specs.Prelude.{◌≡◌, ℕ, ◌+◌, ◌^◌, ◌-◌, ◌<◌, ◌≤◌, List, [], ◌∷◌, length, is_err, IfOk, MatchResult, Some};
ghost use Rattle.ob_io.specs.Faults.{HasCause};
ghost use Rattle.ob_io.specs.Told.{Gains};
ghost use Rattle.ob_io.specs.Memory.{AtFirst, CountsCall, next_fails};
ghost use Rattle.ob_io.specs.Ticks.{told_ticks};
ghost use Rattle.ob_io.specs.Twins.{IsNew, GainsTwin};

use crate::clock::Clock;
use crate::memory::Calls;
use crate::{Failed, Ticker};
use ob_times::Moment;
use std::alloc::Global;

/// A twin that came back: the clock that it was, and how often it had failed.
#[derive(Clone, Copy, Drop)]
pub(crate) struct Returned {
    ticker: Ticker,
    faults: u64,
}

/// A clock that gives the moments of a ticker, and fails at the calls of a list of numbers and at no other, the first
/// call being 0. It keeps what it knows of the twins that came back while memory allows; from then on they are told no
/// longer.
#[derive(Drop)]
pub struct MemClock {
    ticker: Ticker,
    calls: Calls,
    plans: Vec<Vec<u64>>,
    returned: Vec<Returned>,
    is_told: bool,
}

impl MemClock {
    ghost use Rattle.ob_io.specs.ClockMemory.{clock_given, clock_twins};

    /// A clock that fails at the calls of these numbers. Each twin takes the last of the plans that are left as its own
    /// list of numbers; where none is left it never fails.
    pub fn new(
        alloc: Global,
        at: u64,
        tick: u64,
        failing: Vec<u64>,
        plans: Vec<Vec<u64>>,
    ) -> MemClock
        ensures given { clock_given result ≡ Some [] }
        ensures twins { clock_twins result ≡ Some [] }
        ensures ticker { result.ticker ≡ record { at = at; tick = tick; k = 0 } }
        ensures plans { result.plans ≡ plans }
        ensures calls { AtFirst failing result.calls }
    {
        MemClock {
            ticker: Ticker { at, tick, k: 0 },
            calls: Calls::new(failing),
            plans,
            returned: Vec::new(alloc),
            is_told: true,
        }
    }

    // Puts a twin that came back behind the others, or tells them no longer.
    fn keep(&mut self, twin: Returned)
        ensures twin { GainsTwin (clock_twins self.old) (clock_twins self.new)
            (told_ticks twin.ticker.at twin.ticker.tick twin.ticker.k) twin.faults }
        ensures same { (self.new.ticker ≡ self.old.ticker) × (self.new.calls ≡ self.old.calls) }
    {
        if twin.ticker.k < u64::MAX && self.returned.push(twin).is_ok() {
            return;
        }
        self.is_told = false;
    }
}

impl Clock for MemClock {
    ghost use Rattle.std.specs.Prelude.{IfSome, IsSome};
    ghost use Rattle.ob_io.specs.Twins.{Twin};
    ghost use Rattle.ob_io.specs.Ticks.{told_ticks_keep};
    ghost use Rattle.ob_io.specs.ClockMemory.{clock_given, clock_pace, clock_twins};

    ghost given = { λ s. clock_given s };

    ghost pace = { λ s. Some (clock_pace s) };

    ghost twins = { λ s. clock_twins s };

    ghost faults = { λ s. s.calls.faults };

    ghost paced = { λ s. told_ticks_keep s.ticker.at s.ticker.tick s.ticker.k };

    fn now(&mut self) -> Result<Moment, Failed>
        ensures gave { MatchResult result
            (λ moment. Gains (clock_given self.old) (moment ∷ []) (clock_given self.new))
            (λ _. Gains (clock_given self.old) [] (clock_given self.new)) }
        ensures lasting { IfSome (clock_given self.old)
            (λ moments. length moments + 1 < 2 ^ 64 - 1 → IsSome (clock_given self.new)) }
        ensures pace { Some (clock_pace self.new) ≡ Some (clock_pace self.old) }
        ensures apart { clock_twins self.new ≡ clock_twins self.old }
        ensures cause { HasCause self.old.calls.faults self.new.calls.faults result }
        ensures planned { is_err result ≡ next_fails self.old.calls }
        ensures counted { CountsCall self.old.calls self.new.calls }
    {
        if self.calls.next() {
            return Err(self.calls.fail());
        }
        Ok(self.ticker.step())
    }

    fn twin(&mut self) -> Result<MemClock, Failed>
        ensures fresh { IfOk result (λ twin. IsNew (clock_given twin) twin.calls.faults) }
        ensures same { IfOk result (λ twin. Some (clock_pace twin) ≡ Some (clock_pace self.old)) }
        ensures pace { Some (clock_pace self.new) ≡ Some (clock_pace self.old) }
        ensures apart { (clock_given self.new ≡ clock_given self.old)
            × (clock_twins self.new ≡ clock_twins self.old) }
        ensures cause { HasCause self.old.calls.faults self.new.calls.faults result }
        ensures planned { is_err result ≡ next_fails self.old.calls }
        ensures counted { CountsCall self.old.calls self.new.calls }
    {
        if self.calls.next() {
            return Err(self.calls.fail());
        }
        let alloc = *Vec::allocator(&self.returned);
        let failing = match self.plans.pop() {
            Some(plan) => plan,
            None => Vec::new(alloc),
        };
        Ok(MemClock::new(
            alloc,
            self.ticker.at,
            self.ticker.tick,
            failing,
            Vec::new(alloc),
        ))
    }

    fn back(&mut self, clock: MemClock) {
        if clock.calls.faults > 0 {
            let _ = self.calls.fail();
        }
        let twin = Returned {
            ticker: clock.ticker,
            faults: clock.calls.faults,
        };
        self.keep(twin);
    }
}
