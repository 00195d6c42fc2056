//! What the clients of a storm ask.
ghost use Rattle.std.specs.Prelude.{◌≡◌, ◌<◌, ◌^◌, ◌++◌, ◌∷◌, [], true, Some, None, is_none, codes, decimal, map, IsTrue, IfOk};
ghost use Rattle.std.specs.List.{list_all};
ghost use Rattle.ob_object.specs.declared.kind.Kind.TheVariants as kind;
ghost use Rattle.ob_values.specs.XmlText.{is_printable};
ghost use Rattle.ob_storm.specs.Requests.{point, op_of_watch, op_of_alarm, get, post, int_of, uri_of, watch_in, points_from, watched_by, make, add, write, request_at};
ghost use Rattle.ob_object.specs.Object.{empty_head};
ghost use Rattle.ob_site_rules.specs.Build.{whole};

use ob_object::{Attributes, Kind, Obj, Slot};
use ob_replies::Contract;
use ob_replies::build::{obj_head, one_child, put, whole};
use ob_site_rules::Request;
use ob_values::{Text, Value, Verb};
use std::alloc::{AllocError, Global};

// A text with a number behind it.
#[tactic(auto, using(ob_replies::proofs::Printable::decimal_printable))]
fn numbered(alloc: Global, head: &str, number: u64) -> Result<Text, AllocError>
    requires { IsTrue (is_printable head.now) }
    ensures { IfOk result (λ text. text ≡ head.now ++ decimal number) }
{
    let digits = format!(in alloc; "{number}")?;
    let text = Text::from_ascii(alloc, head)?;
    text.followed_by(alloc, digits.as_str())
}

// The path of a point.
fn point(alloc: Global, number: u64) -> Result<Text, AllocError>
    ensures { IfOk result (λ path. path ≡ point number) }
{
    numbered(alloc, "/obix/p", number)
}

// The path of an op of a client's watch.
fn op_of_watch(alloc: Global, client: u32, op: &str) -> Result<Text, AllocError>
    requires { IsTrue (is_printable op.now) }
    ensures { IfOk result (λ path. path ≡ op_of_watch client op.now) }
{
    let watch = numbered(alloc, "/obix/watch/", client as u64)?;
    watch.followed_by(alloc, op)
}

// The path of the op that acknowledges an alarm.
fn op_of_alarm(alloc: Global, number: u64) -> Result<Text, AllocError>
    ensures { IfOk result (λ path. path ≡ op_of_alarm number) }
{
    let alarm = numbered(alloc, "/obix/alarm/", number)?;
    alarm.followed_by(alloc, "/ack")
}

/// To read what is at a path.
pub(crate) fn get(alloc: Global, path: &str) -> Result<Request, AllocError>
    requires { IsTrue (is_printable path.now) }
    ensures { IfOk result (λ request. request ≡ get path.now) }
{
    let target = Text::from_ascii(alloc, path)?;
    Ok(Request {
        verb: Verb::Get,
        target,
        body: None,
    })
}

// To invoke the op at a path, without input.
fn invoke(target: Text) -> Request
    ensures { result ≡ post target None }
{
    Request {
        verb: Verb::Post,
        target,
        body: None,
    }
}

// To invoke an op of a client's watch, without input.
fn invoke_on_watch(alloc: Global, client: u32, op: &str) -> Result<Request, AllocError>
    requires { IsTrue (is_printable op.now) }
    ensures { IfOk result (λ request. request ≡ post (op_of_watch client op.now) None) }
{
    let target = op_of_watch(alloc, client, op)?;
    Ok(invoke(target))
}

/// To make a watch.
///
/// Source: oBIX 1.1, chapter 12 (WatchService.make).
pub(crate) fn make(alloc: Global) -> Result<Request, AllocError>
    ensures { IfOk result (λ request. request ≡ make) }
{
    let target = Text::from_ascii(alloc, "/obix/watchService/make")?;
    Ok(invoke(target))
}

// An int of a value.
fn int_of(alloc: Global, number: u64) -> Obj
    requires { number < 2 ^ 63 }
    ensures { result ≡ int_of number }
{
    let mut head = Attributes::empty(alloc, Kind::Int);
    head.put_slot(Slot::Is(Value::Int(number as i64)));
    Obj::from_attributes(alloc, head)
}

// A uri.
fn uri_of(alloc: Global, text: Text) -> Obj
    ensures { result ≡ uri_of text }
{
    let mut head = Attributes::empty(alloc, Kind::Uri);
    head.put_slot(Slot::Is(Value::Uri(text)));
    Obj::from_attributes(alloc, head)
}

/// To write a value to a point.
///
/// Source: oBIX 1.1, chapter 10 (Write).
fn write(alloc: Global, number: u64, value: u64) -> Result<Request, AllocError>
    requires { value < 2 ^ 63 }
    ensures { IfOk result (λ request. request ≡ write number value) }
{
    let target = point(alloc, number)?;
    Ok(Request {
        verb: Verb::Put,
        target,
        body: Some(int_of(alloc, value)),
    })
}

// Puts a uri last.
fn put_uri(alloc: Global, uris: &mut Vec<Obj>, text: Text) -> Result<(), AllocError>
    ensures { IfOk result (λ _. uris.new.items ≡ uris.old.items ++ uri_of text ∷ []) }
{
    put(uris, uri_of(alloc, text))
}

// Puts the uris of so many points last, from the client's own number on.
#[tactic(auto, using(crate::proofs::RequestLemmas::one_more_point))]
fn put_points(alloc: Global, uris: &mut Vec<Obj>, client: u32, count: u64) -> Result<(), AllocError>
    requires { count < 2 ^ 32 }
    ensures { IfOk result (λ _. uris.new.items ≡ uris.old.items ++ map uri_of (points_from client count)) }
{
    for place in 0..count {
        let path = point(alloc, (client as u64 + place) % 100)?;
        put_uri(alloc, uris, path)?;
    }
    Ok(())
}

// The uris of what a client watches.
fn watched_by(alloc: Global, client: u32) -> Result<Vec<Obj>, AllocError>
    ensures { IfOk result (λ uris. uris.items ≡ map uri_of (watched_by client)) }
{
    let mut uris = Vec::new(alloc);
    put_uri(alloc, &mut uris, Text::from_ascii(alloc, "/obix/h/feed")?)?;
    put_uri(
        alloc,
        &mut uris,
        Text::from_ascii(alloc, "/obix/alarms/feed")?,
    )?;
    put_points(alloc, &mut uris, client, 10)?;
    Ok(uris)
}

// The list `hrefs` of these uris, which have no names.
#[tactic(auto, using(ob_replies::proofs::New::nameless_new))]
fn hrefs(alloc: Global, uris: Vec<Obj>) -> Result<Obj, AllocError>
    requires { list_all (λ o. is_none o.head.name) uris.items ≡ true }
    ensures { IfOk result (λ o. o ≡ whole (record (empty_head kind.List) { name = Some (codes "hrefs") }) uris.items) }
{
    let name = Text::from_ascii(alloc, "hrefs")?;
    let mut head = Attributes::empty(alloc, Kind::List);
    head.put_name(Some(name));
    Ok(whole(head, uris))
}

// WatchIn of what a client watches.
#[tactic(auto, using(crate::proofs::RequestLemmas::uris_nameless))]
fn watch_in(alloc: Global, client: u32) -> Result<Obj, AllocError>
    ensures { IfOk result (λ o. o ≡ watch_in (watched_by client)) }
{
    let uris = watched_by(alloc, client)?;
    let list = hrefs(alloc, uris)?;
    let head = obj_head(alloc, None, Contract::WatchIn)?;
    one_child(alloc, head, list)
}

/// To add to a client's watch what it watches.
///
/// Source: oBIX 1.1, chapter 12 (Watch.add).
pub(crate) fn add(alloc: Global, client: u32) -> Result<Request, AllocError>
    ensures { IfOk result (λ request. request ≡ add client) }
{
    let target = op_of_watch(alloc, client, "/add")?;
    let input = watch_in(alloc, client)?;
    Ok(Request {
        verb: Verb::Post,
        target,
        body: Some(input),
    })
}

// To acknowledge an alarm, without input.
fn acknowledge(alloc: Global, alarm: u64) -> Result<Request, AllocError>
    ensures { IfOk result (λ request. request ≡ post (op_of_alarm alarm) None) }
{
    let target = op_of_alarm(alloc, alarm)?;
    Ok(invoke(target))
}

/// What a client asks at a draw.
pub(crate) fn request_at(alloc: Global, client: u32, draw: u64) -> Result<Request, AllocError>
    ensures { IfOk result (λ request. request ≡ request_at client draw) }
{
    match draw % 8 {
        0..=4 => write(alloc, draw / 8 % 100, draw / 800 % 1000),
        5 | 6 => invoke_on_watch(alloc, client, "/pollChanges"),
        _ if draw / 8 % 10 == 0 => invoke_on_watch(alloc, client, "/pollRefresh"),
        _ => acknowledge(alloc, draw / 80 % 10 + 1),
    }
}
