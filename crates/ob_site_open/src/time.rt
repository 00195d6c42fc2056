//! When a site is opened.
ghost use Rattle.std.specs.Prelude.{◌≡◌, map, max};
ghost use Rattle.ob_site_rules.specs.Loading.{greatest};
ghost use Rattle.ob_step_laws.specs.Ordered.{moment_from, opening_time};
ghost use Rattle.ob_plain_state.specs.States.{entry_of};

use ob_history::Record;
use ob_plain_state::OpenedLog;
use ob_times::Moment;
use ob_values::{Abstime, Text};

const LAST_MOMENT: u64 = 253_402_300_799_999;

// The later of two moments.
fn later(first: Moment, second: Moment) -> Moment
    ensures { result ≡ max first second }
{
    if first.ms() < second.ms() {
        second
    } else {
        first
    }
}

// The first moment that isn't before an instant, of those that there are.
fn moment_from(time: &Abstime) -> Moment
    ensures { result ≡ moment_from time.now }
{
    let (seconds, nanos, _) = time.parts();
    let whole = u64::try_from(seconds).unwrap_or(0);
    let part = if seconds < 0 {
        0
    } else {
        (u64::from(nanos) + 999_999) / 1_000_000
    };
    let ms = whole.saturating_mul(1000).saturating_add(part);
    let Some(moment) = Moment::new(ms.min(LAST_MOMENT)) else {
        unreachable!()
    };
    moment
}

// The latest of a moment and those of records.
fn latest(time: Moment, records: &[Record]) -> Moment
    ensures { result ≡ greatest time (map (λ r. moment_from r.time) records.now) }
{
    let mut latest = time;
    for record in records {
        latest = later(latest, moment_from(&record.time));
    }
    latest
}

/// When a site that booted then is opened with these logs: at the first moment that is neither before the boot nor before a record.
pub(crate) fn opening_time(boot: Moment, logs: &[(Text, OpenedLog)]) -> Moment
    ensures { result ≡ opening_time boot (map entry_of logs.now) }
{
    let mut time = boot;
    for entry in logs {
        time = latest(time, &entry.1.kept);
    }
    time
}
