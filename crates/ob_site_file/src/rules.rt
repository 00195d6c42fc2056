//! The rules of the alarm subject.
ghost use Rattle.std.specs.Prelude.{◌≡◌, ◌+◌, ◌<◌, ◌^◌, ◌++◌, ◌∷◌, [], not, codes, List, Some, None, cond, option_map, option_and_then, IfOk, IfErr, IfSome, IsTrue};
ghost use Rattle.std.specs.List.{filter_map};
ghost use Rattle.std.specs.Option.{option_copied};
ghost use Rattle.ob_parts.specs.Least.{least};
ghost use Rattle.ob_alarms.specs.Limits.{is_below};
ghost use Rattle.ob_object.specs.Object.{in_row, count};
ghost use Rattle.ob_object.specs.declared.kind.Kind.TheVariants as kinds;
ghost use Rattle.ob_site_rules.specs.Build.{Path};
ghost use Rattle.ob_site_rules.specs.Writes.{number_in};
ghost use Rattle.ob_site_rules.specs.Loading.{Part as SitePart, truth_in, child_of, own_number, source_path, rule_from, rule_in, limits_rule, alarm_rule, bad_rules, numbered};
ghost use Rattle.ob_site_file.specs.Sought.{Sees};
ghost use Rattle.ob_site_file.specs.RulesAndRecords.{rule_by, rule_at, limits_for, num_kind, Has, IsNext};

use crate::items::{Items, child_of};
use crate::nodes::Nodes;
use ob_alarms::Num;
use ob_object::{Kind, Obj, Slot};
use ob_parts::Offence;
use ob_site_rules::{PointRule, SiteRule};
use ob_values::{Text, Value};
use std::alloc::{AllocError, Global};
use std::collections::BTreeSet;

/// The limits of a rule, of one kind, the low one not above the high one, and whether its alarms need an
/// acknowledgement.
#[derive(Clone, Copy)]
struct Limits {
    low: Num,
    high: Num,
    needs_ack: bool,
}

fn number_in(slot: &Slot) -> Option<Num>
    ensures { result ≡ number_in slot.now }
{
    match slot {
        Slot::Is(Value::Int(number)) => Some(Num::Int(*number)),
        Slot::Is(Value::Real(number)) => Some(Num::Real(*number)),
        _ => None,
    }
}

fn truth_in(slot: &Slot) -> Option<bool>
    ensures { result ≡ truth_in slot.now }
{
    match slot {
        Slot::Is(Value::Bool(truth)) => Some(*truth),
        _ => None,
    }
}

// The number that an own child of a name and a kind has.
fn own_number(item: &Obj, name: &str, kind: Kind) -> Option<Num>
    ensures number { result ≡ own_number name.now kind item.now }
    ensures kind { IfSome result (λ n. num_kind n ≡ kind) }
{
    match child_of(item, name, kind) {
        Some(child) => number_in(child.head().slot()),
        None => None,
    }
}

fn own_truth(item: &Obj, name: &str) -> Option<bool>
    ensures { result ≡ option_and_then (λ c. truth_in c.head.slot) (child_of name.now kinds.Bool item.now) }
{
    match child_of(item, name, Kind::Bool) {
        Some(child) => truth_in(child.slot()),
        None => None,
    }
}

// Whether a number is below another one of its kind.
fn is_below(one: &Num, other: &Num) -> bool
    requires { num_kind one.now ≡ num_kind other.now }
    ensures { result ≡ is_below one.now other.now }
{
    match (one, other) {
        (Num::Int(one), Num::Int(other)) => *one < *other,
        (Num::Real(one), Num::Real(other)) => one.is_below(other),
        _ => false,
    }
}

// The limits that an item gives itself, for a source of a kind; where they are none, the first rule that they break.
fn limits_in(item: &Obj, kind: Kind) -> Result<Limits, SiteRule>
    ensures ok { (p : Path) → IfOk result (λ l. limits_for p kind item.now ≡ Some (rule_by p l)) }
    ensures err { (p : Path) → IfErr result (λ rule. (limits_for p kind item.now ≡ None)
        × (limits_rule (own_number (codes "low") kind item.now) (own_number (codes "high") kind item.now) ≡ rule)) }
{
    let Some(low) = own_number(item, "low", kind) else {
        return Err(SiteRule::Low);
    };
    let Some(high) = own_number(item, "high", kind) else {
        return Err(SiteRule::High);
    };
    if is_below(&high, &low) {
        return Err(SiteRule::Bounds);
    }
    match own_truth(item, "needsAck") {
        Some(needs_ack) => Ok(Limits {
            low,
            high,
            needs_ack,
        }),
        None => Err(SiteRule::NeedsAck),
    }
}

/// The path that an own ref `source` leads to.
pub(crate) fn source_of(object: &Obj) -> Option<&Text>
    ensures { option_copied result ≡ source_path object.now }
{
    match child_of(object, "source", Kind::Ref) {
        Some(source) => source.href(),
        None => None,
    }
}

// The source and the limits of the rule that an item is; where it is none, the first rule of the form that it breaks.
fn rule_parts<'a>(nodes: &Nodes, item: &'a Obj) -> Result<(&'a Text, Limits), SiteRule>
    ensures ok { (ps : List SitePart) → Sees nodes.now ps → IfOk result (λ x. rule_in ps item.now ≡ Some (rule_at x)) }
    ensures err { (ps : List SitePart) → Sees nodes.now ps → IfErr result (λ rule. (rule_in ps item.now ≡ None) × (alarm_rule ps item.now None ≡ rule)) }
{
    if !item.kind().same(Kind::Obj) {
        return Err(SiteRule::Kind);
    }
    let Some(source) = source_of(item) else {
        return Err(SiteRule::Source);
    };
    let Some(kind) = nodes.number_kind(source) else {
        return Err(SiteRule::Source);
    };
    let limits = limits_in(item, kind)?;
    Ok((source, limits))
}

// The sources of rules.
type Sources<'a> = BTreeSet<&'a str>;

// The rule of the form that an item breaks. Where it breaks none, its source is put among those of the earlier ones.
fn broken_by<'a>(
    sources: &mut Sources<'a>,
    nodes: &Nodes,
    item: &'a Obj,
) -> Result<Option<SiteRule>, AllocError>
    ensures { IfOk result (λ broken. (ps : List SitePart) (before : List Path) → Sees nodes.now ps → Has sources.old before → IsNext ps before item.now broken sources.new) }
{
    match rule_parts(nodes, item) {
        Ok((source, _limits)) => {
            let fresh = sources.insert(source.as_str())?;
            if fresh {
                Ok(None)
            } else {
                Ok(Some(SiteRule::SourceTwice))
            }
        }
        Err(rule) => Ok(Some(rule)),
    }
}

/// The first item of `rules` that is no rule, or has the source of an earlier one, and the rule of the form that it breaks.
pub(crate) fn bad_rule(
    alloc: Global,
    nodes: &Nodes,
    items: &Items,
) -> Result<Option<Offence<SiteRule>>, AllocError>
    requires { items.now.number + count (in_row items.now.objects.now) < 2 ^ 64 }
    ensures { IfOk result (λ bad. (ps : List SitePart) → Sees nodes.now ps → bad ≡ least (bad_rules ps [] (numbered items.now.number items.now.objects.now))) }
{
    let mut number = items.number;
    let mut sources = BTreeSet::new(alloc);
    for item in items.objects {
        let broken = broken_by(&mut sources, nodes, item)?;
        match broken {
            Some(rule) => return Ok(Some(Offence { part: number, rule })),
            None => number += item.parts(),
        }
    }
    Ok(None)
}

// Puts the rule that an item is last, if it is one.
fn put_rule(rules: &mut Vec<PointRule>, nodes: &Nodes, item: &Obj) -> Result<(), AllocError>
    ensures { IfOk result (λ _. (ps : List SitePart) → Sees nodes.now ps → rules.new.items ≡ rules.old.items ++ filter_map (rule_in ps) (item.now ∷ [])) }
{
    if let Ok((source, limits)) = rule_parts(nodes, item) {
        let source = source.copy()?;
        rules.push(PointRule {
            source,
            low: limits.low,
            high: limits.high,
            needs_ack: limits.needs_ack,
        })?;
    }
    Ok(())
}

/// Puts the rules last that items are.
pub(crate) fn put_rules(
    rules: &mut Vec<PointRule>,
    nodes: &Nodes,
    items: &[Obj],
) -> Result<(), AllocError>
    ensures { IfOk result (λ _. (ps : List SitePart) → Sees nodes.now ps → rules.new.items ≡ rules.old.items ++ filter_map (rule_in ps) items.now) }
{
    for item in items {
        put_rule(rules, nodes, item)?;
    }
    Ok(())
}
