//! What histories show of their records.
ghost use Rattle.std.specs.Prelude.{◌≡◌, ◌↔◌, ◌≤◌, ◌<◌, drop, take, not, length, slice_get, option_map, Some, IsTrue};
ghost use Rattle.ob_site_rules.specs.State.{rolled};
ghost use Rattle.ob_shown_laws.specs.Changed.{same_log};
ghost use Rattle.ob_site_state.specs.Changes.{cut};
ghost use Rattle.ob_site_state.specs.Kept.{log_of};
ghost use Rattle.ob_site_settling.specs.Spans.{span_of, same_spans, dropped_by};

use ob_history::{Log, first_time};
use ob_times::Abstime;

/// What a history shows of its records: how many there are, and the times of the first and of the last.
///
/// Source: oBIX 1.1, section 14.1 (History).
#[derive(Drop)]
pub struct Span {
    pub count: u64,
    pub first: Option<Abstime>,
    pub last: Option<Abstime>,
}

/// Whether the times are one, or both are absent.
fn same_time(first: &Option<Abstime>, other: &Option<Abstime>) -> bool
    ensures { IsTrue result ↔ (first.now ≡ other.now) }
{
    first == other
}

impl Span {
    /// Whether each part is the same.
    fn is_same(&self, other: &Span) -> bool
        ensures { IsTrue result ↔ (self.now ≡ other.now) }
    {
        self.count == other.count
            && same_time(&self.first, &other.first)
            && same_time(&self.last, &other.last)
    }

    /// Whether the same is shown of both.
    #[tactic(auto, using(crate::proofs::Records::same_test))]
    pub fn shows_same(&self, other: &Span) -> bool
        ensures { result ≡ same_spans self.now other.now }
    {
        self.is_same(other)
    }
}

/// The time of the record at a place among those that a history keeps.
#[tactic(auto, using(crate::proofs::Records::time_there))]
fn time_at(log: &Log, place: u64) -> Option<Abstime>
    requires { place < length log.now.kept }
    ensures { result ≡ option_map (λ r. r.time) (slice_get log.now.kept place) }
{
    let _len = log.len();
    let (front, back) = log.since(log.gone() + place);
    first_time(front, back)
}

/// What a history would show, did it keep of its records only those from one place up to another.
#[tactic(auto, using(crate::proofs::Records::span_none, crate::proofs::Records::span_some))]
fn span_between(log: &Log, from: u64, to: u64) -> Span
    requires order { from ≤ to }
    requires within { to ≤ length log.now.kept }
    ensures { result ≡ span_of (drop from (take to log.now.kept)) }
{
    if from == to {
        return Span {
            count: 0,
            first: None,
            last: None,
        };
    }
    Span {
        count: to - from,
        first: time_at(log, from),
        last: time_at(log, to - 1),
    }
}

/// How many of so many records a history drops, down to its capacity.
fn dropped_by(capacity: Option<u64>, len: u64) -> u64
    ensures value { result ≡ dropped_by capacity len }
    ensures within { result ≤ len }
{
    match capacity {
        Some(capacity) => len.saturating_sub(capacity),
        None => 0,
    }
}

/// Whether a history, which kept so many of its records before a step, will show another count, start or end once it
/// has dropped its oldest ones, down to its capacity.
///
/// Source: oBIX 1.1, section 14.1 (History).
#[tactic(auto, using(crate::proofs::Records::other_span))]
pub fn shows_other_span(log: &Log, len: u64, capacity: Option<u64>) -> bool
    requires capacity { log.now.capacity ≡ capacity }
    requires within { len ≤ length log.now.kept }
    ensures { result ≡ not (same_log (Some (cut len (log_of log.now))) (Some (rolled (log_of log.now)))) }
{
    let all = log.len();
    let before = span_between(log, 0, len);
    let after = span_between(log, dropped_by(capacity, all), all);
    !before.shows_same(&after)
}
