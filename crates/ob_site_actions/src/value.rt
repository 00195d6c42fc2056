//! What is wrong with a write.
ghost use Rattle.std.specs.Prelude.{◌≡◌, None, option_and_then, option_copied, IfOk};
ghost use Rattle.ob_object.specs.declared.head.Slot.TheVariants.{Is};
ghost use Rattle.ob_object.specs.Write.{verdict};
ghost use Rattle.ob_object.specs.Kinds.{has_values};
ghost use Rattle.ob_contracts.specs.Inherit.{contract_of};
ghost use Rattle.ob_site_rules.specs.Writes.{ranged, has_child, is_listed, fault_of, verdict_fault, slot_fault, value_fault, target_fault};
ghost use Rattle.ob_site_actions.specs.Targets.{IsTarget};

use crate::overfills;
use ob_contracts::Steps;
use ob_object::{Attributes, Obj, Slot, WriteFault, check_write};
use ob_site_reads::shows_child;
use ob_site_rules::Fault;
use ob_site_state::State;
use ob_values::{Text, Value};
use std::alloc::AllocError;
use std::sync::ledger::Ledger;

/// What is wrong with a node that is to be put to: it has no value, or isn't shown as writable.
pub(crate) fn target_fault(head: &Attributes) -> Option<Fault>
    ensures { result ≡ target_fault head.now }
{
    if !head.kind().has_values() {
        return Some(Fault::NotSupported);
    }
    match head.writable() {
        Some(true) => None,
        _ => Some(Fault::NotWritable),
    }
}

/// Whether the own node that a range names, where it names no contract, has a child of a name; so too where none is there.
fn node_has<L: Ledger>(
    state: &State,
    range: &Text,
    name: &Text,
    steps: &mut Steps<L>,
) -> Result<bool, AllocError>
    ensures { IfOk result (λ has. contract_of state.now.now.library range.now ≡ None → has ≡ has_child name.now (ranged state.now.plan state.now.now range.now)) }
{
    match state.tree().get(range) {
        Some(node) => {
            state.sound_law();
            shows_child(state, node, name, steps)
        }
        None => Ok(true),
    }
}

/// Whether the object that a range names, a contract or else an own node, has a child of a name; so too where it names none.
/// No child is shown for it. An error only for want of memory.
fn has_child<L: Ledger>(
    state: &State,
    range: &Text,
    name: &Text,
    steps: &mut Steps<L>,
) -> Result<bool, AllocError>
    ensures { IfOk result (λ has. has ≡ has_child name.now (ranged state.now.plan state.now.now range.now)) }
{
    match state.library().get(range.as_str()) {
        Some(contract) => Ok(contract.child(name.as_str()).is_some()),
        None => node_has(state, range, name, steps),
    }
}

/// Whether a name is that of a child of the object that a range names, if it names one.
fn is_in_range<L: Ledger>(
    state: &State,
    range: Option<&Text>,
    name: &Text,
    steps: &mut Steps<L>,
) -> Result<bool, AllocError>
    ensures { IfOk result (λ listed. listed ≡ has_child name.now (option_and_then (ranged state.now.plan state.now.now) (option_copied range.entry))) }
{
    match range {
        Some(range) => has_child(state, range, name, steps),
        None => Ok(true),
    }
}

/// Whether the value of an enum is the name of a child of the object that its range names, if it names one.
/// Other values are not held against a range.
fn is_listed<L: Ledger>(
    state: &State,
    head: &Attributes,
    value: &Value,
    steps: &mut Steps<L>,
) -> Result<bool, AllocError>
    ensures { IfOk result (λ listed. listed ≡ is_listed state.now.plan state.now.now head.now value.now) }
{
    match value {
        Value::Enum(name) => is_in_range(state, head.range(), name, steps),
        _ => Ok(true),
    }
}

/// The refusal of a write fault.
fn fault_of(fault: WriteFault) -> Fault
    ensures { result ≡ fault_of fault }
{
    match fault {
        WriteFault::WrongKind => Fault::OtherKind,
        WriteFault::Long => Fault::TextTooLong,
        WriteFault::Below => Fault::BelowMin,
        WriteFault::Above => Fault::AboveMax,
        WriteFault::NotInRange => Fault::NotInRange,
    }
}

/// The refusal of what was found wrong with a value, if anything was.
fn verdict_fault(verdict: Result<(), WriteFault>) -> Option<Fault>
    ensures { result ≡ verdict_fault verdict }
{
    match verdict {
        Ok(()) => None,
        Err(fault) => Some(fault_of(fault)),
    }
}

/// What is wrong with a value for an object, where it is listed or not in what the object's range names.
fn listed_fault(object: &Obj, value: &Value, listed: bool) -> Option<Fault>
    ensures { result ≡ verdict_fault (verdict object.now.head.kind object.now.head.facets.min object.now.head.facets.max value.now listed) }
{
    let head = object.head();
    verdict_fault(check_write(head.kind(), head.min(), head.max(), value, listed))
}

/// What is wrong with a value that is to stand in an object's slot.
pub(crate) fn held_fault<L: Ledger>(
    state: &State,
    object: &Obj,
    value: &Value,
    steps: &mut Steps<L>,
) -> Result<Option<Fault>, AllocError>
    ensures { IfOk result (λ fault. fault ≡ slot_fault state.now.plan state.now.now object.now.head (Is value.now)) }
{
    let listed = is_listed(state, object.head(), value, steps)?;
    Ok(listed_fault(object, value, listed))
}

/// What is wrong with a slot for an object. Null is allowed.
fn slot_fault<L: Ledger>(
    state: &State,
    object: &Obj,
    slot: &Slot,
    steps: &mut Steps<L>,
) -> Result<Option<Fault>, AllocError>
    ensures { IfOk result (λ fault. fault ≡ slot_fault state.now.plan state.now.now object.now.head slot.now) }
{
    match slot {
        Slot::Is(value) => held_fault(state, object, value, steps),
        Slot::Null | Slot::Absent => Ok(None),
    }
}

/// What is wrong with a value for the object shown at a path, of which the same is asked as of this one: its kind, a text
/// too long, below min, above max, not in range, and last that it would store too much.
pub(crate) fn value_fault<L: Ledger>(
    state: &State,
    path: &Text,
    object: &Obj,
    new: &Attributes,
    steps: &mut Steps<L>,
) -> Result<Option<Fault>, AllocError>
    requires { IsTarget state.now.plan state.now.now path.now object.now }
    ensures { IfOk result (λ fault. fault ≡ value_fault state.now.plan state.now.now state.now.time path.now object.now.head new.now) }
{
    let head = object.head();
    if !new.kind().same(head.kind()) {
        return Ok(Some(Fault::OtherKind));
    }
    let slot = new.slot();
    let fault = slot_fault(state, object, slot, steps)?;
    if fault.is_some() {
        return Ok(fault);
    }
    state.sound_law();
    if overfills(state, path, head, slot) {
        return Ok(Some(Fault::TooManyEntries));
    }
    Ok(None)
}
