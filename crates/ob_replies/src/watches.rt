//! Watches, and what they answer.
ghost use Rattle.std.specs.Prelude.{◌≡◌, ◌<◌, ◌^◌, [], ◌∷◌, ◌++◌, Some, true, is_none, IsTrue, IfOk};
ghost use Rattle.std.specs.List.{list_all};
ghost use Rattle.ob_site_rules.specs.Build.{op_at, under_href};
ghost use Rattle.ob_site_rules.specs.Computed.{watch_object, watch_part_object, watch_out};
ghost use Rattle.ob_replies.specs.WatchChildren.{span_value, lease_at, child_at, children_at};
ghost use Rattle.ob_replies.specs.Names.{is_name};
ghost use Rattle.ob_replies.specs.ContractWords as contract_words;

use crate::build::{obj_head, one_child, op_at, put, whole};
use crate::contract::Contract;
use crate::paths::watch_path;
use ob_object::{Attributes, Kind, Obj, Slot};
use ob_site_rules::{Plan, WatchPart, nameless};
use ob_times::Reltime;
use ob_values::{Text, Value};
use std::alloc::{AllocError, Global};

const SECOND: u64 = 1_000_000_000;

const DAY: u64 = 86_400_000_000_000;

/// A span without months.
fn span(nanos: u64) -> Value
    requires { nanos < 2 ^ 63 }
    ensures { result ≡ span_value nanos }
{
    match Reltime::new(0, nanos as i64) {
        Some(span) => Value::Reltime(span),
        None => unreachable!(),
    }
}

/// The lease of a watch in nanoseconds, from a second to a day, as it stands in the watch.
fn lease_child(alloc: Global, path: &Text, lease: u64) -> Result<Obj, AllocError>
    requires { lease < 2 ^ 63 }
    ensures { IfOk result (λ o. o ≡ lease_at path.now lease) }
{
    let name = Text::from_ascii(alloc, "lease")?;
    let href = path.followed_by(alloc, "lease")?;
    let mut head = Attributes::empty(alloc, Kind::Reltime);
    head.put_name(Some(name));
    head.put_href(Some(href));
    head.put_slot(Slot::Is(span(lease)));
    head.put_min(Some(span(SECOND)));
    head.put_max(Some(span(DAY)));
    head.put_writable(Some(true));
    Ok(Obj::from_attributes(alloc, head))
}

/// An op of a watch.
#[tactic(auto, using(crate::proofs::Fits::name_printable))]
fn watch_op(
    alloc: Global,
    path: &Text,
    name: &str,
    takes: Contract,
    gives: Contract,
) -> Result<Obj, AllocError>
    requires { IsTrue (is_name name.now) }
    ensures { IfOk result (λ o. o ≡ op_at name.now (path.now ++ name.now) (contract_words.contract takes) (contract_words.contract gives)) }
{
    let href = path.followed_by(alloc, name)?;
    op_at(alloc, name, href, takes, gives)
}

/// A part of a watch at a path, as it stands in the watch.
fn child(alloc: Global, path: &Text, lease: u64, part: WatchPart) -> Result<Obj, AllocError>
    requires { lease < 2 ^ 63 }
    ensures { IfOk result (λ o. o ≡ child_at path.now lease part) }
{
    let nothing = Contract::Nil;
    let asked = Contract::WatchIn;
    let report = Contract::WatchOut;
    match part {
        WatchPart::Whole => Ok(Obj::new(alloc, Kind::Obj)),
        WatchPart::Lease => lease_child(alloc, path, lease),
        WatchPart::Add => watch_op(alloc, path, "add", asked, report),
        WatchPart::Remove => watch_op(alloc, path, "remove", asked, nothing),
        WatchPart::PollChanges => watch_op(alloc, path, "pollChanges", nothing, report),
        WatchPart::PollRefresh => watch_op(alloc, path, "pollRefresh", nothing, report),
        WatchPart::Delete => watch_op(alloc, path, "delete", nothing, nothing),
    }
}

/// Puts a part of a watch last.
fn put_child(
    alloc: Global,
    children: &mut Vec<Obj>,
    path: &Text,
    lease: u64,
    part: WatchPart,
) -> Result<(), AllocError>
    requires { lease < 2 ^ 63 }
    ensures { IfOk result (λ _. children.new.items ≡ children.old.items ++ child_at path.now lease part ∷ []) }
{
    put(children, child(alloc, path, lease, part)?)
}

/// Puts the lease and the ops of a watch where nothing is.
fn put_children(
    alloc: Global,
    children: &mut Vec<Obj>,
    path: &Text,
    lease: u64,
) -> Result<(), AllocError>
    requires lease { lease < 2 ^ 63 }
    requires empty { children.old.items ≡ [] }
    ensures { IfOk result (λ _. children.new.items ≡ children_at path.now lease) }
{
    put_child(alloc, children, path, lease, WatchPart::Lease)?;
    put_child(alloc, children, path, lease, WatchPart::Add)?;
    put_child(alloc, children, path, lease, WatchPart::Remove)?;
    put_child(alloc, children, path, lease, WatchPart::PollChanges)?;
    put_child(alloc, children, path, lease, WatchPart::PollRefresh)?;
    put_child(alloc, children, path, lease, WatchPart::Delete)
}

/// A watch, with its lease in nanoseconds.
///
/// Source: oBIX 1.1, chapter 12 (Watch).
pub fn watch(alloc: Global, plan: &Plan, number: u64, lease: u64) -> Result<Obj, AllocError>
    requires { lease < 2 ^ 63 }
    ensures { IfOk result (λ o. o ≡ watch_object plan.now number lease) }
{
    let path = watch_path(alloc, &plan.root, number)?;
    let mut children = Vec::new(alloc);
    put_children(alloc, &mut children, &path, lease)?;
    let head = obj_head(alloc, Some(path), Contract::Watch)?;
    Ok(whole(head, children))
}

/// What is seen of a watch: the whole, or one of its children.
///
/// Source: oBIX 1.1, chapter 12 (Watch).
pub fn watch_part(
    alloc: Global,
    plan: &Plan,
    number: u64,
    lease: u64,
    part: WatchPart,
) -> Result<Obj, AllocError>
    requires { lease < 2 ^ 63 }
    ensures { IfOk result (λ o. o ≡ watch_part_object plan.now number lease part) }
{
    if part == WatchPart::Whole {
        return watch(alloc, plan, number, lease);
    }
    let path = watch_path(alloc, &plan.root, number)?;
    let object = child(alloc, &path, lease, part)?;
    Ok(nameless(object))
}

/// WatchOut, of its entries, which have no names.
///
/// Source: oBIX 1.1, chapter 12 (WatchOut).
#[tactic(auto, using(crate::proofs::New::nameless_new))]
pub fn watch_out(alloc: Global, entries: Vec<Obj>) -> Result<Obj, AllocError>
    requires { list_all (λ o. is_none o.head.name) entries.items ≡ true }
    ensures { IfOk result (λ o. o ≡ watch_out entries.items) }
{
    let name = Text::from_ascii(alloc, "values")?;
    let mut head = Attributes::empty(alloc, Kind::List);
    head.put_name(Some(name));
    let values = whole(head, entries);
    let head = obj_head(alloc, None, Contract::WatchOut)?;
    one_child(alloc, head, values)
}

/// An entry of WatchOut: the object under the href that was asked.
///
/// Source: oBIX 1.1, chapter 12 (WatchOut).
pub fn entry(mut object: Obj, text: Text) -> Obj
    ensures { result ≡ under_href (Some text) object }
{
    object.put_href(Some(text));
    object
}
