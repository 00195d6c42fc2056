//! The paths that a site computes.
ghost use Rattle.std.specs.Prelude.{◌≡◌, ◌++◌, ◌∷◌, [], codes, decimal, IfOk, IsTrue};
ghost use Rattle.ob_values.specs.XmlText.{is_printable};
ghost use Rattle.ob_alarms.specs.AlarmObjects.{alarm_path};
ghost use Rattle.ob_site_rules.specs.Paths.{below, ends_with_slash, ack_path};

use ob_site_rules::Plan;
use ob_values::Text;
use std::alloc::{AllocError, Global};

/// Whether a path ends with a slash.
#[tactic(auto, using(crate::proofs::Ends::ends_some, crate::proofs::Ends::ends_none))]
fn ends_with_slash(path: &str) -> bool
    ensures { result ≡ ends_with_slash path.now }
{
    match path.as_bytes().last() {
        Some(last) => *last == b'/',
        None => false,
    }
}

/// The path of a derived child of this name.
pub fn below(alloc: Global, path: &Text, name: &str) -> Result<Text, AllocError>
    requires { IsTrue (is_printable name.now) }
    ensures { IfOk result (λ under. under ≡ below path.now name.now) }
{
    if ends_with_slash(path.as_str()) {
        return path.followed_by(alloc, name);
    }
    let parent = path.followed_by(alloc, "/")?;
    parent.followed_by(alloc, name)
}

/// The path of a watch, under the root's.
#[tactic(auto, using(crate::proofs::Printable::decimal_printable))]
pub(crate) fn watch_path(alloc: Global, root: &Text, number: u64) -> Result<Text, AllocError>
    ensures { IfOk result (λ path. path ≡ root.now ++ codes "watch/" ++ decimal number ++ 47 ∷ []) }
{
    let digits = format!(in alloc; "{number}")?;
    let watches = root.followed_by(alloc, "watch/")?;
    let watch = watches.followed_by(alloc, digits.as_str())?;
    watch.followed_by(alloc, "/")
}

/// The path of an alarm.
#[tactic(auto, using(ob_alarms::proofs::Paths::tail_printable))]
pub fn alarm_path(alloc: Global, plan: &Plan, number: u64) -> Result<Text, AllocError>
    ensures { IfOk result (λ path. path ≡ alarm_path plan.now.root number) }
{
    let tail = format!(in alloc; "alarm/{number}/")?;
    plan.root.followed_by(alloc, tail.as_str())
}

/// The path of the op that acknowledges an alarm.
pub fn ack_path(alloc: Global, plan: &Plan, number: u64) -> Result<Text, AllocError>
    ensures { IfOk result (λ path. path ≡ ack_path plan.now number) }
{
    let alarm = alarm_path(alloc, plan, number)?;
    alarm.followed_by(alloc, "ack")
}
