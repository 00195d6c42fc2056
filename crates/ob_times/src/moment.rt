//! Moments: instants to the millisecond.
ghost use Rattle.std.specs.Prelude.{◌≡◌, ◌↔◌, IsSome, IfSome};
ghost use Rattle.ob_times.specs.Times.{IsMoment, moment_instant};

use crate::Abstime;
use std::marker::Model;

const LAST: u64 = 253_402_300_799_999;

/// An instant in whole milliseconds from 1970-01-01T00:00:00Z, up to the end of the year 9999.
#[derive(Clone, Copy, PartialEq, Eq, PartialOrd, Ord)]
pub struct Moment {
    ms: u64,
}

impl Model for Moment {
    ghost use Rattle.std.specs.Prelude.{ℕ};
    ghost use Rattle.ob_times.specs.Times.{IsMoment};

    ghost Value = { ℕ };

    ghost view = { λ m. m.ms };

    ghost invariant = { λ m. IsMoment m.ms };

    ghost inverse = { λ n. record { ms = n } };
}

impl Moment {
    /// The moment that many milliseconds after 1970 began at UTC, or `None` above
    /// 253,402,300,799,999.
    pub fn new(ms: u64) -> Option<Moment>
        ensures some { IsSome result ↔ IsMoment ms }
        ensures value { IfSome result (λ m. m ≡ ms) }
    {
        if ms > LAST {
            return None;
        }
        Some(Moment { ms })
    }

    /// The milliseconds since 1970 began at UTC.
    pub fn ms(&self) -> u64
        ensures value { result ≡ self.now }
        ensures range { IsMoment result }
    {
        self.ms
    }

    /// The moment as an instant at UTC.
    pub fn abstime(&self) -> Abstime
        ensures { result ≡ moment_instant self.now }
    {
        Abstime::at_utc(
            (self.ms / 1_000) as i64,
            (self.ms % 1_000) as u32 * 1_000_000,
        )
    }
}
