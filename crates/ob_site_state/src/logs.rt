//! The logs of histories by their places.
ghost use Rattle.std.specs.Prelude.{◌≡◌, ◌<◌, ◌≤◌, ◌+◌, ◌^◌, ◌++◌, ◌∷◌, [], map, length, slice_get, Some, option_map, IfOk, OnOk, OnErr};
ghost use Rattle.ob_alarms.specs.Lists.{changed_at};
ghost use Rattle.ob_history.specs.Logs.{cut_to, settled};
ghost use Rattle.ob_history.specs.Records.{MayFollow, IsRecord};
ghost use Rattle.ob_site_rules.specs.Build.{Path};
ghost use Rattle.ob_site_rules.specs.State.{Log as SiteLog};
ghost use Rattle.ob_site_rules.specs.Writes.{events_ever, with_record};
ghost use Rattle.ob_site_state.specs.Changes.{with_log};
ghost use Rattle.ob_site_state.specs.Kept.{entry_of};

use ob_history::{Log, Record};
use ob_values::Text;
use std::alloc::AllocError;

/// Puts a record last in a log, and gives how many it kept before.
fn record(log: &mut Log, entry: Record) -> Result<u64, AllocError>
    requires counted { log.old.gone + length log.old.kept + 1 < 2 ^ 63 }
    requires in_order { MayFollow log.old.kept entry }
    requires is_record { IsRecord entry }
    ensures capacity { log.new.capacity ≡ log.old.capacity }
    ensures gone { log.new.gone ≡ log.old.gone }
    ensures kept { OnOk result (log.new.kept ≡ log.old.kept ++ entry ∷ []) }
    ensures len { IfOk result (λ len. len ≡ length log.old.kept) }
    ensures err { OnErr result (log.new ≡ log.old) }
{
    log.reserve(1)?;
    let len = log.len();
    log.push_reserved(entry);
    Ok(len)
}

/// Puts a record last in the log of a place, and gives how many it kept before.
pub(crate) fn record_at(
    logs: &mut [(Text, Log)],
    place: usize,
    entry: Record,
) -> Result<u64, AllocError>
    requires there { place < length logs.old }
    requires counted { (l : Path × SiteLog) → slice_get (map entry_of logs.old) place ≡ Some l → events_ever l.1 + 1 < 2 ^ 63 }
    requires in_order { (l : Path × SiteLog) → slice_get (map entry_of logs.old) place ≡ Some l → MayFollow l.1.kept entry }
    requires is_record { IsRecord entry }
    ensures ok { OnOk result (map entry_of logs.new ≡ with_log (with_record entry) place (map entry_of logs.old)) }
    ensures len { IfOk result (λ len. Some len ≡ option_map (λ l. length l.1.kept) (slice_get (map entry_of logs.old) place)) }
    ensures err { OnErr result (logs.new ≡ logs.old) }
{
    record(&mut logs[place].1, entry)
}

/// Keeps the first records alone of the log of a place.
pub(crate) fn cut_at(logs: &mut [(Text, Log)], place: usize, len: u64)
    requires { place < length logs.old }
    ensures { logs.new ≡ changed_at place (λ l. (l.0, cut_to len l.1)) logs.old }
{
    logs[place].1.cut(len);
}

/// Drops the oldest records of the log of a place, down to its capacity.
pub(crate) fn settle_at(logs: &mut [(Text, Log)], place: usize)
    requires { place < length logs.old }
    ensures { logs.new ≡ changed_at place (λ l. (l.0, settled l.1.capacity l.1)) logs.old }
{
    logs[place].1.settle();
}
