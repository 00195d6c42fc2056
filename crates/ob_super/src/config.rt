//! What a config tells.
ghost use Rattle.std.specs.Prelude.{◌≡◌, ◌++◌, ◌∷◌, [], true, Some, IfOk, OnOk, is_some, option_copied, codes, map};
ghost use Rattle.std.specs.List.{list_all};
ghost use Rattle.ob_parts.specs.Numbered.{inside, inside_child};
ghost use Rattle.ob_parts.specs.Offences.{breaks, unless, needs, said, each};
ghost use Rattle.ob_parts.specs.Views.{part_of};
ghost use Rattle.ob_super.specs.Configs as read;
ghost use Rattle.ob_super.specs.Names.{are_apart};
ghost use Rattle.ob_super.specs.Upstreams as form;
ghost use Rattle.ob_super.specs.declared.config_fault.ConfigFault.TheVariants.{Shape};
ghost use Rattle.ob_super.specs.declared.config_rule.ConfigRule.TheVariants as rules;

use crate::config_fault::ConfigFault;
use crate::config_rule::ConfigRule;
use crate::upstream::Upstream;
use indexmap::IndexSet;
use ob_asking::{Place, place_at};
use ob_href::{Base, HrefFault};
use ob_object::{Kind, Obj, Slot};
use ob_parts::{Offence, Part, earlier, number_behind};
use ob_values::{Text, Value};
use std::alloc::{AllocError, Global};

/// The most upstreams, the most hrefs of one, the most bytes of an href and of a name.
const MOST_UPSTREAMS: usize = 64;

const MOST_HREFS: usize = 2048;

const MOST_HREF: usize = 1024;

const MOST_NAME: usize = 32;

// The part breaks the rule.
fn wrong<T>(part: Part<'_>, rule: ConfigRule) -> Result<T, ConfigFault>
    ensures { result ≡ Err (Shape (breaks rule (part_of part.entry))) }
{
    Err(ConfigFault::Shape(part.breaks(rule)))
}

// What is told, unless a part offends.
fn unless_any<T: Drop>(first: Option<Offence<ConfigRule>>, told: T) -> Result<T, ConfigFault>
    ensures { result ≡ read.unless_any first told }
{
    match first {
        Some(offence) => Err(ConfigFault::Shape(offence)),
        None => Ok(told),
    }
}

fn is_letter(byte: u8) -> bool
    ensures { result ≡ form.is_letter byte }
{
    byte.is_ascii_lowercase() || byte.is_ascii_digit()
}

fn are_letters(bytes: &[u8]) -> bool
    ensures { result ≡ list_all form.is_letter bytes.now }
{
    bytes.iter().all(|byte| is_letter(*byte))
}

fn is_name(name: &Text) -> bool
    ensures { result ≡ form.is_name name.now }
{
    let bytes = name.as_str().as_bytes();
    !bytes.is_empty() && bytes.len() <= MOST_NAME && are_letters(bytes)
}

// The name of an obj.
fn name_in(object: &Obj) -> Option<&Text>
    ensures { option_copied result ≡ form.name_in object.now }
{
    if !object.kind().same(Kind::Obj) {
        return None;
    }
    match object.name() {
        Some(name) if is_name(name) => Some(name),
        _ => None,
    }
}

// The value of a uri.
fn uri_in(object: &Obj) -> Option<&Text>
    ensures { option_copied result ≡ form.uri_in object.now }
{
    if !object.kind().same(Kind::Uri) {
        return None;
    }
    match object.slot() {
        Slot::Is(Value::Uri(text)) => Some(text),
        _ => None,
    }
}

// Where an http URL without fragment leads.
fn lobby_at(alloc: Global, text: &Text) -> Result<Option<Place>, AllocError>
    ensures { IfOk result (λ place. place ≡ form.lobby_at text.now) }
{
    match Base::new(alloc, text.as_str()) {
        Ok(base) => {
            if base.is_https() {
                Ok(None)
            } else {
                place_at(alloc, &base, "")
            }
        }
        Err(HrefFault::Memory) => Err(AllocError),
        Err(_) => Ok(None),
    }
}

// An href of 1 to 1,024 bytes.
fn href_in(object: &Obj) -> Option<&Text>
    ensures { option_copied result ≡ form.href_in object.now }
{
    let Some(text) = uri_in(object) else {
        return None;
    };
    let len = text.as_str().len();
    if len == 0 || len > MOST_HREF {
        return None;
    }
    Some(text)
}

fn is_list(object: &Obj, most: usize) -> bool
    ensures { result ≡ form.is_list 1 most object.now }
{
    object.kind().same(Kind::List) && !object.is_empty() && object.len() <= most
}

// The first rule that an upstream breaks which has no name.
fn name_rule(object: &Obj) -> ConfigRule
    ensures { result ≡ form.name_rule object.now }
{
    if object.kind().same(Kind::Obj) {
        ConfigRule::Name
    } else {
        ConfigRule::Kind
    }
}

// The name of an upstream.
fn name(part: Part<'_>) -> Result<Text, ConfigFault>
    ensures { read.Judges (unless (is_some (form.name_in part.entry.object.now)) (form.name_rule part.entry.object.now) (part_of part.entry)) (λ name. form.name_in part.entry.object.now ≡ Some name) result }
{
    match name_in(part.object) {
        Some(name) => Ok(name.copy()?),
        None => wrong(part, name_rule(part.object)),
    }
}

// The lobby that a uri says.
fn lobby_in(alloc: Global, object: &Obj) -> Result<Option<Place>, AllocError>
    ensures { IfOk result (λ place. place ≡ form.lobby_in object.now) }
{
    match uri_in(object) {
        Some(text) => lobby_at(alloc, text),
        None => Ok(None),
    }
}

// The lobby of an upstream.
fn lobby(alloc: Global, part: Part<'_>) -> Result<Place, ConfigFault>
    ensures { read.Judges (needs (codes "url") (λ _. rules.Url) (λ o. is_some (form.lobby_in o)) (part_of part.entry)) (λ place. said (codes "url") form.lobby_in part.entry.object.now ≡ Some place) result }
{
    let Some(url) = part.child("url") else {
        return wrong(part, ConfigRule::Url);
    };
    match lobby_in(alloc, url.object)? {
        Some(place) => Ok(place),
        None => wrong(url, ConfigRule::Url),
    }
}

// The href that an object says, unless it was seen; from now on it is.
fn new_href<'a>(
    seen: &mut IndexSet<&'a str>,
    object: &'a Obj,
) -> Result<Option<&'a Text>, AllocError>
    ensures is { IfOk result (λ href. option_copied href ≡ read.unseen seen.old.keys (form.href_in object.now)) }
    ensures seen { OnOk result (read.Sees seen.old.keys (form.href_in object.now) seen.new.keys) }
{
    let Some(text) = href_in(object) else {
        return Ok(None);
    };
    let (_, is_new) = seen.insert_full(text.as_str())?;
    if is_new { Ok(Some(text)) } else { Ok(None) }
}

fn push_copy(texts: &mut Vec<Text>, text: &Text) -> Result<(), AllocError>
    ensures { OnOk result (texts.new.items ≡ texts.old.items ++ text.now ∷ []) }
{
    let copy = text.copy()?;
    texts.push(copy)?;
    Ok(())
}

// The first rule that an href breaks which isn't one, or stands twice.
fn href_rule(object: &Obj) -> ConfigRule
    ensures { result ≡ form.href_rule object.now }
{
    if href_in(object).is_some() {
        ConfigRule::HrefTwice
    } else {
        ConfigRule::Href
    }
}

// Takes the href of a part in, or tells the part where it says none that is new.
fn take_href<'a>(
    seen: &mut IndexSet<&'a str>,
    hrefs: &mut Vec<Text>,
    part: Part<'a>,
) -> Result<Option<Offence<ConfigRule>>, AllocError>
    ensures seen { OnOk result (read.Sees seen.old.keys (form.href_in part.entry.object.now) seen.new.keys) }
    ensures taken { IfOk result (read.TakesHref hrefs.old.items hrefs.new.items (part_of part.entry) (read.unseen seen.old.keys (form.href_in part.entry.object.now))) }
{
    match new_href(seen, part.object)? {
        Some(href) => {
            push_copy(hrefs, href)?;
            Ok(None)
        }
        None => Ok(Some(part.breaks(href_rule(part.object)))),
    }
}

// The hrefs that the items of a list say, no text of which stands twice.
fn listed_hrefs(alloc: Global, list: Part<'_>) -> Result<Vec<Text>, ConfigFault>
    ensures { read.Judges (unless (form.is_list 1 2_048 list.entry.object.now) rules.Hrefs (part_of list.entry) ++ each form.href_offences [] (inside (part_of list.entry))) (λ texts. form.hrefs_in list.entry.object.now ≡ Some texts.items) result }
{
    let mut first = list.unless(is_list(list.object, MOST_HREFS), ConfigRule::Hrefs);
    let mut number = list.number_inside();
    let mut seen: IndexSet<&str> = IndexSet::new(alloc);
    let mut hrefs = Vec::new(alloc);
    for object in list.object.children() {
        let offence = take_href(&mut seen, &mut hrefs, Part { number, object })?;
        first = earlier(first, offence);
        number = number_behind(number, object);
    }
    unless_any(first, hrefs)
}

// The hrefs of an upstream.
fn hrefs(alloc: Global, part: Part<'_>) -> Result<Vec<Text>, ConfigFault>
    ensures { read.Judges (needs (codes "hrefs") (λ _. rules.Hrefs) (form.is_list 1 2_048) (part_of part.entry) ++ each form.href_offences [] (inside_child (codes "hrefs") (part_of part.entry))) (λ texts. said (codes "hrefs") form.hrefs_in part.entry.object.now ≡ Some texts.items) result }
{
    match part.child("hrefs") {
        Some(list) => listed_hrefs(alloc, list),
        None => wrong(part, ConfigRule::Hrefs),
    }
}

// The first of two parts that offend; want of memory goes before.
fn first_of(one: ConfigFault, other: ConfigFault) -> ConfigFault
    ensures { result ≡ read.first_of one other }
{
    match one {
        ConfigFault::Memory => ConfigFault::Memory,
        ConfigFault::Shape(first) => match other {
            ConfigFault::Memory => ConfigFault::Memory,
            ConfigFault::Shape(behind) => {
                let earlier = if behind.part < first.part {
                    behind
                } else {
                    first
                };
                ConfigFault::Shape(earlier)
            }
        },
    }
}

// Both, where both are there.
fn both<A: Drop, B: Drop>(
    one: Result<A, ConfigFault>,
    other: Result<B, ConfigFault>,
) -> Result<(A, B), ConfigFault>
    ensures { result ≡ read.both one other }
{
    match one {
        Ok(a) => match other {
            Ok(b) => Ok((a, b)),
            Err(fault) => Err(fault),
        },
        Err(fault) => match other {
            Ok(_) => Err(fault),
            Err(behind) => Err(first_of(fault, behind)),
        },
    }
}

// An upstream.
fn upstream(alloc: Global, part: Part<'_>) -> Result<Upstream, ConfigFault>
    ensures { read.Judges (form.upstream_offences [] (part_of part.entry)) (λ u. form.upstream_in part.entry.object.now ≡ Some (read.upstream u)) result }
{
    let reached = both(lobby(alloc, part), hrefs(alloc, part));
    match both(name(part), reached) {
        Ok((name, (lobby, hrefs))) => Ok(Upstream { name, lobby, hrefs }),
        Err(fault) => Err(fault),
    }
}

fn push_upstream(all: &mut Vec<Upstream>, upstream: Upstream) -> Result<(), AllocError>
    ensures { OnOk result (all.new.items ≡ all.old.items ++ upstream ∷ []) }
{
    all.push(upstream)?;
    Ok(())
}

// Takes an upstream in, or tells the part that offends in it.
fn take_in(
    all: &mut Vec<Upstream>,
    upstream: Result<Upstream, ConfigFault>,
) -> Result<Option<Offence<ConfigRule>>, AllocError>
    ensures { IfOk result (read.TakesIn all.old.items all.new.items upstream) }
{
    match upstream {
        Ok(upstream) => {
            push_upstream(all, upstream)?;
            Ok(None)
        }
        Err(ConfigFault::Shape(offence)) => Ok(Some(offence)),
        Err(ConfigFault::Memory) => Err(AllocError),
    }
}

/// The upstreams that a config tells; Shape where a part offends against its form, with the first that does and its rule.
pub(crate) fn upstreams(alloc: Global, config: &Obj) -> Result<Vec<Upstream>, ConfigFault>
    ensures apart { IfOk result (λ all. are_apart (map (λ u. u.name) all.items) ≡ true) }
    ensures tells { read.Judges (form.offences config.now) (λ all. form.configured config.now ≡ Some (map read.upstream all.items)) result }
{
    let root = Part::root(config);
    let mut first = root.unless(is_list(config, MOST_UPSTREAMS), ConfigRule::Upstreams);
    let mut number = root.number_inside();
    let mut all = Vec::new(alloc);
    for object in config.children() {
        let upstream = upstream(alloc, Part { number, object });
        let offence = take_in(&mut all, upstream)?;
        first = earlier(first, offence);
        number = number_behind(number, object);
    }
    unless_any(first, all)
}
