//! Clocks.
ghost use Rattle.std.specs.Prelude.{◌≡◌, ℕ, ◌≤◌, ◌<◌, ◌+◌, ◌^◌, ◌-◌, List, [], ◌∷◌, length, min, slice_index_or, MatchResult, IfOk, Some, IfSome, IsSome};
ghost use Rattle.std.specs.declared.option.Option.{Option};
ghost use Rattle.ob_io.specs.Faults.{HasCause, Rose};
ghost use Rattle.ob_io.specs.Told.{Gains};
ghost use Rattle.ob_io.specs.Ticks.{last_moment, tick_at, Pace, KeepsPace, AreFirstOf};
ghost use Rattle.ob_io.specs.Twins.{Twin, IsNew, GainsTwin};

use crate::Failed;
use ob_times::Moment;

/// What gives moments, in milliseconds.
pub trait Clock {
    /// The moments that it gave, where they are known.
    ghost given: { Self → Option (List ℕ) };

    /// The pace at which it goes, where it goes by equal steps. It never changes.
    ghost pace: { Self → Option Pace };

    /// The twins that came back, where they are told.
    ghost twins: { Self → Option (List Twin) };

    /// How often it has failed, or a twin came back that had failed.
    ghost faults: { Self → ℕ };

    /// The moment. A failed call gives none.
    fn now(&mut self) -> Result<Moment, Failed>
        ensures gave { MatchResult result
            (λ moment. Gains (given self.old) (moment ∷ []) (given self.new))
            (λ _. Gains (given self.old) [] (given self.new)) }
        ensures lasting { IfSome (given self.old)
            (λ moments. length moments + 1 < 2 ^ 64 - 1 → IsSome (given self.new)) }
        ensures pace { pace self.new ≡ pace self.old }
        ensures apart { twins self.new ≡ twins self.old }
        ensures cause { HasCause (faults self.old) (faults self.new) result };

    /// Another clock of the same time and pace, for another thread. It has not failed, and has given no moment.
    fn twin(&mut self) -> Result<Self, Failed>
        ensures fresh { IfOk result (λ twin. IsNew (given twin) (faults twin)) }
        ensures same { IfOk result (λ twin. pace twin ≡ pace self.old) }
        ensures pace { pace self.new ≡ pace self.old }
        ensures apart { (given self.new ≡ given self.old) × (twins self.new ≡ twins self.old) }
        ensures cause { HasCause (faults self.old) (faults self.new) result };

    /// Takes a twin back. The count rises where the twin's isn't 0.
    fn back(&mut self, clock: Self)
        ensures twin { GainsTwin (twins self.old) (twins self.new) (given clock) (faults clock) }
        ensures whole { faults clock ≡ 0 → faults self.new ≡ faults self.old }
        ensures later { faults self.old ≤ faults self.new }
        ensures broken { ¬ (faults clock ≡ 0) → Rose (faults self.old) (faults self.new) }
        ensures pace { pace self.new ≡ pace self.old }
        ensures apart { given self.new ≡ given self.old };

    /// The moments that it gave are the first ones of its pace.
    ghost paced: { (clock : Self) → KeepsPace (pace clock) (given clock) };
}

/// The moment after so many milliseconds, or the last that there is.
fn capped(ms: u64) -> Moment
    ensures { result ≡ min ms last_moment }
{
    let Some(moment) = Moment::new(ms.min(LAST_MOMENT)) else {
        unreachable!()
    };
    moment
}

/// A clock that goes by equal steps and never fails. It doesn't tell its twins.
#[derive(Clone, Copy, Drop)]
pub struct Ticker {
    pub at: u64,
    pub tick: u64,
    pub k: u64,
}

const LAST_MOMENT: u64 = 253_402_300_799_999;

impl Ticker {
    // The next moment.
    pub(crate) fn step(&mut self) -> Moment
        ensures value { result ≡ tick_at self.old.at self.old.tick self.old.k }
        ensures after { self.new.k ≡ min (self.old.k + 1) (2 ^ 64 - 1) }
        ensures same { (self.new.at ≡ self.old.at) × (self.new.tick ≡ self.old.tick) }
    {
        let ms = self.k.saturating_mul(self.tick).saturating_add(self.at);
        self.k = self.k.saturating_add(1);
        capped(ms)
    }
}

impl Clock for Ticker {
    ghost use Rattle.std.specs.Prelude.{Some, None};
    ghost use Rattle.ob_io.specs.Ticks.{told_ticks, pace_of, told_ticks_keep};

    ghost given = { λ t. told_ticks t.at t.tick t.k };

    ghost pace = { λ t. Some (pace_of t.at t.tick) };

    ghost twins = { λ t. None };

    ghost faults = { λ t. 0 };

    ghost paced = { λ t. told_ticks_keep t.at t.tick t.k };

    fn now(&mut self) -> Result<Moment, Failed> {
        Ok(self.step())
    }

    fn twin(&mut self) -> Result<Ticker, Failed> {
        Ok(Ticker {
            at: self.at,
            tick: self.tick,
            k: 0,
        })
    }

    fn back(&mut self, clock: Ticker) {
        let Ticker { .. } = clock;
    }
}

/// The moments that a clock gave since it was new, where it tells them and its pace, are the first ones of that pace: the
/// one after `i` others is `at + i * tick`, or the last moment that there is.
pub fn gives_its_pace<C: Clock>(clock: &C)
    ensures first { (moments : List ℕ) → Gains (Some []) moments (C.given clock.now) → IsSome (C.given clock.now)
        → IfSome (C.pace clock.now) (λ pace. AreFirstOf pace moments) }
    ensures each { (moments : List ℕ) → Gains (Some []) moments (C.given clock.now) → IsSome (C.given clock.now)
        → IfSome (C.pace clock.now) (λ pace. (i d : ℕ) → i < length moments
        → slice_index_or moments i d ≡ tick_at pace.at pace.tick i) }
{
    let _ = clock;
}
