//! Put, and the write of a value that a body gives.
ghost use Rattle.std.specs.Prelude.{◌≡◌, Some, None, true, false, IsTrue, IfOk, IfErr};
ghost use Rattle.std.specs.Option.{option_copied};
ghost use Rattle.ob_contracts.specs.Inherit.{effective_of};
ghost use Rattle.ob_object.specs.Fits.{fits_slot};
ghost use Rattle.ob_object.specs.Kinds.{has_values};
ghost use Rattle.ob_history.specs.Records.{holds_value};
ghost use Rattle.ob_site_rules.specs.Build.{Path};
ghost use Rattle.ob_site_rules.specs.Shown.{shown};
ghost use Rattle.ob_site_rules.specs.Writes.{written, overfills, records_from, value_fault, showing, unless, write_by, put};
ghost use Rattle.ob_site_actions.specs.Fitting.{CanBeWritten};
ghost use Rattle.ob_site_actions.specs.Stops.{IsDone, Stops};

use crate::not_done::NotDone;
use crate::value::{target_fault, value_fault};
use crate::written::written_at;
use ob_contracts::{Library, Steps, View};
use ob_object::{Attributes, Obj, Slot};
use ob_site_reads::reply_at;
use ob_site_rules::Fault;
use ob_site_state::State;
use ob_values::Text;
use std::alloc::{AllocError, Global};
use std::sync::ledger::Ledger;

/// Writes a value in which nothing is wrong to the object shown at a path, and answers what is shown there then.
fn show_written<L: Ledger>(
    state: &mut State,
    path: &Text,
    object: &Obj,
    slot: &Slot,
    steps: &mut Steps<L>,
) -> Result<Obj, AllocError>
    requires can { CanBeWritten state.old.plan state.old.now path.now object.now.head.kind slot.now }
    requires room { overfills state.old.plan state.old.now state.old.time path.now object.now.head slot.now ≡ false }
    ensures ok { IfOk result (IsDone state.old state.new (showing state.old.plan path.now object.now (written state.old.plan state.old.time path.now object.now slot.now state.old.now))) }
    ensures stays { state.new ≡ record state.old { now = state.new.now } }
{
    written_at(state, path, object.head(), slot, steps)?;
    let default = object.copy()?;
    reply_at(state, path, default, steps)
}

/// Writes the value of a head to the object shown at a path, where nothing is wrong, and answers what is shown there
/// then.
fn write_given<L: Ledger>(
    state: &mut State,
    path: &Text,
    object: &Obj,
    new: &Attributes,
    steps: &mut Steps<L>,
) -> Result<Obj, NotDone>
    requires shows { shown state.old.plan state.old.now path.now ≡ Some object.now }
    requires records { (history : Path) → records_from state.old.plan path.now history ≡ true → has_values object.now.head.kind ≡ true }
    requires held { has_values new.now.kind ≡ true → IsTrue (fits_slot new.now.kind new.now.slot) → IsTrue (holds_value new.now.kind new.now.slot) }
    ensures ok { IfOk result (IsDone state.old state.new (unless (value_fault state.old.plan state.old.now state.old.time path.now object.now.head new.now) state.old.now (showing state.old.plan path.now object.now (written state.old.plan state.old.time path.now object.now new.now.slot state.old.now)))) }
    ensures stop { IfErr result (Stops state.old state.new (unless (value_fault state.old.plan state.old.now state.old.time path.now object.now.head new.now) state.old.now (showing state.old.plan path.now object.now (written state.old.plan state.old.time path.now object.now new.now.slot state.old.now)))) }
{
    state.sound_law();
    if let Some(fault) = value_fault(state, path, object, new, steps)? {
        return Err(NotDone::Refused(fault));
    }
    let reply = show_written(state, path, object, new.slot(), steps)?;
    Ok(reply)
}

/// The kind and the slot that a body gives, with what it inherits by its own words; nothing else of it is looked at.
pub(crate) fn given_by<'x, L: Ledger>(
    alloc: Global,
    library: &'x Library,
    body: &'x Obj,
    steps: &mut Steps<L>,
) -> Result<Attributes, AllocError>
    ensures kind { IfOk result (λ head. head.kind ≡ (effective_of library.now body.now None None).head.kind) }
    ensures slot { IfOk result (λ head. head.slot ≡ (effective_of library.now body.now None None).head.slot) }
{
    let view = View::new(library, body, None, None, steps);
    let mut head = Attributes::empty(alloc, view.kind());
    head.put_slot(view.slot().copy()?);
    Ok(head)
}

/// Writes the value that a body gives to the object shown at a path, where nothing is wrong, and answers what is shown
/// there then. A node that a history records is shown with a kind that has values.
pub fn write_by<L: Ledger>(
    state: &mut State,
    path: &Text,
    object: &Obj,
    body: &Obj,
    steps: &mut Steps<L>,
) -> Result<Obj, NotDone>
    requires shows { shown state.old.plan state.old.now path.now ≡ Some object.now }
    requires records { (history : Path) → records_from state.old.plan path.now history ≡ true → has_values object.now.head.kind ≡ true }
    ensures ok { IfOk result (IsDone state.old state.new (write_by state.old.plan state.old.now state.old.time path.now object.now None body.now)) }
    ensures stop { IfErr result (Stops state.old state.new (write_by state.old.plan state.old.now state.old.time path.now object.now None body.now)) }
{
    let given = given_by(state.allocator(), state.library(), body, steps)?;
    write_given(state, path, object, &given, steps)
}

/// Put on a node that is shown at a path: the tests on the node, that there is a body, and the tests on its value; then
/// the write. It answers what is shown at the path afterwards.
///
/// Source: oBIX 1.1, chapter 10 (Networking: Write). The order of the refusals is this profile's own.
pub fn put<L: Ledger>(
    state: &mut State,
    path: &Text,
    object: &Obj,
    body: Option<&Obj>,
    steps: &mut Steps<L>,
) -> Result<Obj, NotDone>
    requires { shown state.old.plan state.old.now path.now ≡ Some object.now }
    ensures ok { IfOk result (IsDone state.old state.new (put state.old.plan state.old.now state.old.time path.now object.now (option_copied body.entry))) }
    ensures stop { IfErr result (Stops state.old state.new (put state.old.plan state.old.now state.old.time path.now object.now (option_copied body.entry))) }
{
    if let Some(fault) = target_fault(object.head()) {
        return Err(NotDone::Refused(fault));
    }
    match body {
        Some(body) => write_by(state, path, object, body, steps),
        None => Err(NotDone::Refused(Fault::OtherShape)),
    }
}
