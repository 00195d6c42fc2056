//! Histories: what they keep.
ghost use Rattle.std.specs.Prelude.{◌≡◌, ◌<◌, ◌^◌, codes, length, option_and_then, IfOk};
ghost use Rattle.ob_site_rules.specs.Build.{child};
ghost use Rattle.ob_site_rules.specs.Loading.{capacity_by, source_ref};
ghost use Rattle.ob_roles.specs.SiteParts.{part as site_part};
ghost use Rattle.ob_plain_state.specs.States.{log_of};
ghost use Rattle.ob_site_file.specs.Opened.{whole_log};

use crate::items::{child_of, items_of};
use crate::records::records_in;
use crate::rules::source_of;
use ob_object::{Kind, Obj, Slot};
use ob_plain_state::OpenedLog;
use ob_roles::Part;
use ob_values::{Text, Value};
use std::alloc::{AllocError, Global};

/// How many records a history keeps, if not all: its own int child `capacity`, from 1 to 1,000,000.
pub(crate) fn capacity_of(object: &Obj) -> Option<u64>
    ensures { result ≡ option_and_then (λ o. capacity_by o.head.kind o.head.slot) (child (codes "capacity") object.now) }
{
    match child_of(object, "capacity", Kind::Int)?.slot() {
        Slot::Is(Value::Int(number)) => {
            if 1 <= *number && *number <= 1_000_000 {
                Some(*number as u64)
            } else {
                None
            }
        }
        _ => None,
    }
}

/// The log of a history with all its records. Those above its capacity roll off when the site is opened.
pub(crate) fn log_of(alloc: Global, part: &Part) -> Result<OpenedLog, AllocError>
    ensures log { IfOk result (λ log. log_of log ≡ (whole_log (site_part part.now)).1) }
    ensures counted { IfOk result (λ log. length log.kept.items < 2 ^ 63) }
{
    let items = items_of(part, "data");
    let kept = records_in(alloc, items.objects)?;
    Ok(OpenedLog {
        capacity: capacity_of(part.own),
        gone: 0,
        kept,
    })
}

/// A copy of the path of the source of a history, if it has one.
pub(crate) fn source_path(object: &Obj) -> Result<Option<Text>, AllocError>
    ensures { IfOk result (λ path. path ≡ option_and_then (λ s. s.head.href) (source_ref object.now)) }
{
    match source_of(object) {
        Some(path) => {
            let path = path.copy()?;
            Ok(Some(path))
        }
        None => Ok(None),
    }
}
