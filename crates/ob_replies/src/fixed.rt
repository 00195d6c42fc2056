//! About, Nil, and the objects of the lobby, of batches and of acknowledgements.
ghost use Rattle.std.specs.Prelude.{◌≡◌, ◌++◌, ◌∷◌, [], Some, codes, IsTrue, IfOk, true, is_none, find, bytes_eq, option_copied};
ghost use Rattle.std.specs.List.{list_all};
ghost use Rattle.ob_values.specs.XmlText.{is_printable};
ghost use Rattle.ob_alarms.specs.AlarmObjects.{alarm_path, ack_child};
ghost use Rattle.ob_site_rules.specs.Computed.{nil_object, about_text, about_str, about_uri, about_object, batch_op, make_op, service_object, ack_out, batch_out};
ghost use Rattle.ob_object.specs.declared.kind.Kind.TheVariants as kind;
ghost use Rattle.ob_site_rules.specs.Build.{valued, text_slot, time_slot};
ghost use Rattle.ob_times.specs.Times.{moment_instant};
ghost use Rattle.ob_replies.specs.Names.{is_name};
ghost use Rattle.ob_replies.specs.Abouts.{server_children, vendor_children, product_children};

use crate::build::{named, obj_head, one_child, op_at, put, timed, valued, whole};
use crate::contract::Contract;
use crate::paths::ack_path;
use ob_object::{Attributes, Kind, Obj, Slot};
use ob_site_rules::Plan;
use ob_times::Moment;
use ob_values::{Text, Value};
use std::alloc::{AllocError, Global};

/// Nil: a null obj, the answer of an op that gives nothing.
///
/// Source: oBIX 1.1, chapter 4 (Nil).
pub fn nil(alloc: Global) -> Result<Obj, AllocError>
    ensures { IfOk result (λ o. o ≡ nil_object) }
{
    let mut head = obj_head(alloc, None, Contract::Nil)?;
    head.put_slot(Slot::Null);
    Ok(Obj::from_attributes(alloc, head))
}

/// The site's own text of a name, with the name.
fn own_text<'a>(plan: &'a Plan, name: &str) -> Option<&'a (Text, Text)>
    ensures { option_copied result ≡ find (λ e. bytes_eq e.0 name.now) plan.entry.now.about }
{
    plan.about
        .as_slice()
        .iter()
        .find(|entry| entry.0.as_str() == name)
}

/// A text of About: the site's own, or else the default.
fn about_text(alloc: Global, plan: &Plan, name: &str, default: &str) -> Result<Text, AllocError>
    requires { IsTrue (is_printable default.now) }
    ensures { IfOk result (λ text. text ≡ about_text plan.now name.now default.now) }
{
    match own_text(plan, name) {
        Some(entry) => entry.1.copy(),
        None => Text::from_ascii(alloc, default),
    }
}

/// Puts a str of About last.
fn put_str(
    alloc: Global,
    objects: &mut Vec<Obj>,
    plan: &Plan,
    name: &str,
    default: &str,
) -> Result<(), AllocError>
    requires name { IsTrue (is_name name.now) }
    requires default { IsTrue (is_printable default.now) }
    ensures { IfOk result (λ _. objects.new.items ≡ objects.old.items ++ about_str plan.now name.now default.now ∷ []) }
{
    let text = about_text(alloc, plan, name, default)?;
    put(
        objects,
        valued(alloc, Kind::Str, name, Slot::Is(Value::Str(text)))?,
    )
}

/// Puts a uri of About last.
fn put_uri(
    alloc: Global,
    objects: &mut Vec<Obj>,
    plan: &Plan,
    name: &str,
    default: &str,
) -> Result<(), AllocError>
    requires name { IsTrue (is_name name.now) }
    requires default { IsTrue (is_printable default.now) }
    ensures { IfOk result (λ _. objects.new.items ≡ objects.old.items ++ about_uri plan.now name.now default.now ∷ []) }
{
    let text = about_text(alloc, plan, name, default)?;
    put(
        objects,
        valued(alloc, Kind::Uri, name, Slot::Is(Value::Uri(text)))?,
    )
}

/// Puts the version of oBIX last.
fn put_version(alloc: Global, objects: &mut Vec<Obj>) -> Result<(), AllocError>
    ensures { IfOk result (λ _. objects.new.items ≡ objects.old.items ++ valued kind.Str (codes "obixVersion") (text_slot (codes "1.1")) ∷ []) }
{
    let version = Text::from_ascii(alloc, "1.1")?;
    let slot = Slot::Is(Value::Str(version));
    put(objects, valued(alloc, Kind::Str, "obixVersion", slot)?)
}

/// Puts a time of About last.
fn put_time(
    alloc: Global,
    objects: &mut Vec<Obj>,
    name: &str,
    time: Moment,
) -> Result<(), AllocError>
    requires { IsTrue (is_name name.now) }
    ensures { IfOk result (λ _. objects.new.items ≡ objects.old.items ++ valued kind.Abstime name.now (time_slot (Some (moment_instant time))) ∷ []) }
{
    put(objects, timed(alloc, name, Some(time.abstime()))?)
}

/// What About says of the server itself, as its first children.
fn put_server(
    alloc: Global,
    objects: &mut Vec<Obj>,
    plan: &Plan,
    now: Moment,
) -> Result<(), AllocError>
    requires { objects.old.items ≡ [] }
    ensures { IfOk result (λ _. objects.new.items ≡ server_children plan.now now) }
{
    put_version(alloc, objects)?;
    put_str(alloc, objects, plan, "serverName", "obix")?;
    put_time(alloc, objects, "serverTime", now)?;
    put_time(alloc, objects, "serverBootTime", plan.boot)
}

/// What About says of the vendor.
fn put_vendor(
    alloc: Global,
    objects: &mut Vec<Obj>,
    plan: &Plan,
    now: Moment,
) -> Result<(), AllocError>
    requires { objects.old.items ≡ server_children plan.now now }
    ensures { IfOk result (λ _. objects.new.items ≡ server_children plan.now now ++ vendor_children plan.now) }
{
    put_str(alloc, objects, plan, "vendorName", "none")?;
    put_uri(alloc, objects, plan, "vendorUrl", "")
}

/// What About says of the product, and the server's time zone.
fn put_product(
    alloc: Global,
    objects: &mut Vec<Obj>,
    plan: &Plan,
    now: Moment,
) -> Result<(), AllocError>
    requires { objects.old.items ≡ server_children plan.now now ++ vendor_children plan.now }
    ensures { IfOk result (λ _. objects.new.items ≡ server_children plan.now now ++ vendor_children plan.now ++ product_children plan.now) }
{
    put_str(alloc, objects, plan, "productName", "obix")?;
    put_str(alloc, objects, plan, "productVersion", "1.0")?;
    put_uri(alloc, objects, plan, "productUrl", "")?;
    put_str(alloc, objects, plan, "tz", "UTC")
}

/// About: what the server is, its time now, and when it was started.
///
/// Source: oBIX 1.1, chapter 5 (About). The defaults are this profile's own.
pub fn about(alloc: Global, plan: &Plan, now: Moment) -> Result<Obj, AllocError>
    ensures { IfOk result (λ o. o ≡ about_object plan.now now) }
{
    let mut children = Vec::new(alloc);
    put_server(alloc, &mut children, plan, now)?;
    put_vendor(alloc, &mut children, plan, now)?;
    put_product(alloc, &mut children, plan, now)?;
    let path = plan.root.followed_by(alloc, "about")?;
    let head = obj_head(alloc, Some(path), Contract::About)?;
    Ok(whole(head, children))
}

/// The op that does a batch of requests, as it stands in the lobby.
///
/// Source: oBIX 1.1, chapter 5 (Batch).
pub fn batch_op(alloc: Global, plan: &Plan) -> Result<Obj, AllocError>
    ensures { IfOk result (λ o. o ≡ batch_op plan.now) }
{
    let path = plan.root.followed_by(alloc, "batch")?;
    op_at(alloc, "batch", path, Contract::BatchIn, Contract::BatchOut)
}

/// The op that makes a watch, as it stands in the watch service.
///
/// Source: oBIX 1.1, chapter 12 (WatchService).
pub fn make_op(alloc: Global, plan: &Plan) -> Result<Obj, AllocError>
    ensures { IfOk result (λ o. o ≡ make_op plan.now) }
{
    let path = plan.root.followed_by(alloc, "watchService/make")?;
    op_at(alloc, "make", path, Contract::Nil, Contract::Watch)
}

/// The watch service.
///
/// Source: oBIX 1.1, chapter 12 (WatchService).
pub fn service(alloc: Global, plan: &Plan) -> Result<Obj, AllocError>
    ensures { IfOk result (λ o. o ≡ service_object plan.now) }
{
    let path = plan.root.followed_by(alloc, "watchService")?;
    let head = obj_head(alloc, Some(path), Contract::WatchService)?;
    let make = make_op(alloc, plan)?;
    one_child(alloc, head, make)
}

/// The op that acknowledges an alarm, as it stands in the alarm.
///
/// Source: oBIX 1.1, chapter 15 (AckAlarm).
pub fn ack_op(alloc: Global, plan: &Plan, number: u64) -> Result<Obj, AllocError>
    ensures { IfOk result (λ o. o ≡ ack_child (alarm_path plan.now.root number)) }
{
    let path = ack_path(alloc, plan, number)?;
    op_at(
        alloc,
        "ack",
        path,
        Contract::AckAlarmIn,
        Contract::AckAlarmOut,
    )
}

/// AckAlarmOut, of an alarm's object.
///
/// Source: oBIX 1.1, chapter 15 (AckAlarm).
pub fn ack_out(alloc: Global, alarm: Obj) -> Result<Obj, AllocError>
    ensures { IfOk result (λ o. o ≡ ack_out alarm) }
{
    let alarm = named(alloc, alarm, "alarm")?;
    let head = obj_head(alloc, None, Contract::AckAlarmOut)?;
    one_child(alloc, head, alarm)
}

/// BatchOut, of the answers to the items of a batch, which have no names.
///
/// Source: oBIX 1.1, chapter 5 (Batch).
#[tactic(auto, using(crate::proofs::New::nameless_new))]
pub fn batch_out(alloc: Global, results: Vec<Obj>) -> Result<Obj, AllocError>
    requires { list_all (λ o. is_none o.head.name) results.items ≡ true }
    ensures { IfOk result (λ o. o ≡ batch_out results.items) }
{
    let words = Contract::BatchOut.words(alloc)?;
    let mut head = Attributes::empty(alloc, Kind::List);
    head.put_is(Some(words));
    Ok(whole(head, results))
}
