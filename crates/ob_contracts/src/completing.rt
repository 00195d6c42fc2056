//! Objects that are given all that they inherit, in place.
ghost use Rattle.std.specs.Prelude.{◌≡◌, ◌++◌, None, true, map, IfOk, OnOk, IsTrue};
ghost use Rattle.std.specs.Option.{option_copied};
ghost use Rattle.ob_object.specs.Completed.{completed};
ghost use Rattle.ob_object.specs.Fits.{fits_head};
ghost use Rattle.ob_object.specs.Object.{children};
ghost use Rattle.ob_object.specs.WellFormed.{NamesDiffer};
ghost use Rattle.ob_contracts.specs.Found.{lent};
ghost use Rattle.ob_contracts.specs.HandedDown.{HandsDown};
ghost use Rattle.ob_contracts.specs.Inherit.{bare, implied_by, missing, or_else, overridden, result_of};
ghost use Rattle.ob_contracts.specs.Settings.{child_in, completed_in, sources_in};
ghost use Rattle.ob_contracts.specs.Shown.{finish, shown_result, view_sources};
ghost use Rattle.ob_contracts.specs.declared.reading.View.{View};

use crate::build::copy_bare;
use crate::fewer::told_by;
use crate::inherited::{HandedDown, find_over};
use crate::library::Library;
use crate::reading::View;
use ob_object::{Attributes, Obj, Slot, Words};
use std::alloc::{AllocError, Global};

/// What an object inherits by: the library, the words that its list or feed gives it, and the child that it overrides; and
/// whether a slot that is not given takes the default of its kind.
#[derive(Clone, Copy)]
pub(crate) struct Setting<'a> {
    pub(crate) library: &'a Library,
    pub(crate) implied: Option<&'a Words>,
    pub(crate) over: Option<&'a Obj>,
    pub(crate) defaults: bool,
}

impl<'a> Setting<'a> {
    /// Whether no word names a contract of an object, and it overrides no child.
    fn names_nothing(&self, object: &Obj) -> bool
        ensures { result ≡ true → (or_else object.now.head.is (option_copied self.now.implied) ≡ None) × (option_copied self.now.over ≡ None) }
    {
        object.is().is_none() && self.implied.is_none() && self.over.is_none()
    }
}

impl<'a> HandedDown<'a> {
    /// What an own child inherits by.
    fn setting(&self, library: &'a Library, child: &Obj, defaults: bool) -> Setting<'a>
        ensures { (v : View) → HandsDown v self.now → v.library.now ≡ library.now → completed_in result child.now
            ≡ finish defaults (result_of v.library.now child.now (implied_by (shown_result v).head) (overridden child.now.head.name (view_sources v))) }
    {
        Setting {
            library,
            implied: self.implied,
            over: find_over(&self.over, child),
            defaults,
        }
    }
}

/// Sets a slot that is not given to the default of its kind, where defaults are asked.
fn put_default(defaults: bool, object: &mut Obj)
    ensures { object.new ≡ record object.old { head = (finish defaults object.old).head } }
{
    if !defaults {
        return;
    }
    if let Slot::Absent = object.slot() {
        let slot = object.kind().default_slot();
        let _absent = object.replace_slot(slot);
    }
}

/// The parts of its head that an object lacks and inherits.
fn given_head(alloc: Global, setting: Setting, object: &Obj) -> Result<Attributes, AllocError>
    ensures completes { IfOk result (λ given. completed object.now.head given ≡ (completed_in setting.entry object.now).head) }
    ensures fits { IsTrue (fits_head (completed_in setting.entry object.now).head) }
{
    let view = View::uncounted(setting.library, object, setting.implied, setting.over);
    view.know_names();
    view.sources().looked().given(alloc, setting.defaults)
}

/// Copies of inherited objects.
fn copies(
    alloc: Global,
    library: &Library,
    objects: &[&Obj],
    defaults: bool,
) -> Result<Vec<Obj>, AllocError>
    ensures { IfOk result (λ made. made.items ≡ map (λ o. finish defaults (bare o)) (lent objects.now)) }
{
    let mut made = Vec::with_capacity(alloc, objects.len())?;
    for object in objects {
        made.push(copy_bare(alloc, library, object, defaults)?)?;
    }
    Ok(made)
}

/// Copies of the children that an object inherits.
fn inherited(alloc: Global, setting: Setting, object: &Obj) -> Result<Vec<Obj>, AllocError>
    ensures { IfOk result (λ made. made.items ≡ map (λ o. finish setting.entry.defaults (bare o)) (missing (children object.now) (sources_in setting.entry object.now))) }
{
    let view = View::uncounted(setting.library, object, setting.implied, setting.over);
    let taken = view.inherited_children(alloc)?;
    copies(alloc, setting.library, &taken, setting.defaults)
}

/// The names of the children of what an object becomes differ.
fn know_differ(setting: Setting, object: &Obj)
    ensures { NamesDiffer (children (completed_in setting.entry object.now)) }
{
    let view = View::uncounted(setting.library, object, setting.implied, setting.over);
    view.know_names();
}

/// Objects behind others.
fn joined(mut first: Vec<Obj>, mut others: Vec<Obj>) -> Result<Vec<Obj>, AllocError>
    ensures { IfOk result (λ all. all.items ≡ first.items ++ others.items) }
{
    first.append(&mut others)?;
    Ok(first)
}

/// Gives the own children of an object all that they inherit.
#[cycle(completing)]
fn complete_each(
    alloc: Global,
    setting: Setting,
    own: &Obj,
    objects: &mut [Obj],
) -> Result<(), AllocError>
    ensures { OnOk result (objects.new ≡ map (child_in setting.entry own.now) objects.old) }
{
    if objects.is_empty() {
        return Ok(());
    }
    let view = View::uncounted(setting.library, own, setting.implied, setting.over);
    let told = view.tell_words(alloc)?;
    let handed = view.hand_down(alloc, told_by(&told, view.implied_by()))?;
    for object in objects.iter_mut() {
        let below = handed.setting(setting.library, object, setting.defaults);
        complete(alloc, below, object)?;
    }
    Ok(())
}

/// Gives the own children of an object all that they inherit, and puts those behind them that it inherits.
#[cycle(completing)]
fn complete_children(
    alloc: Global,
    setting: Setting,
    object: &mut Obj,
    inherited: Vec<Obj>,
) -> Result<(), AllocError>
    requires { inherited.items ≡ map (λ o. finish setting.defaults (bare o)) (missing (children object.old) (sources_in setting object.old)) }
    ensures { OnOk result (object.new ≡ record object.old { inner = (completed_in setting.entry object.old).inner }) }
{
    know_differ(setting, object);
    let mut children = object.take_children();
    complete_each(alloc, setting, object, children.as_mut_slice())?;
    let all = joined(children, inherited)?;
    object.put_children(all);
    Ok(())
}

/// Gives an object all that it inherits, part by part.
#[cycle(completing)]
fn complete_parts(alloc: Global, setting: Setting, object: &mut Obj) -> Result<(), AllocError>
    ensures { OnOk result (object.new ≡ completed_in setting.entry object.old) }
{
    let given = given_head(alloc, setting, object)?;
    let inherited = inherited(alloc, setting, object)?;
    complete_children(alloc, setting, object, inherited)?;
    object.complete(given);
    Ok(())
}

/// Gives an object all that it inherits, in place. An error only for want of memory: what is left of the object then is not
/// said.
#[cycle(completing)]
pub(crate) fn complete(alloc: Global, setting: Setting, object: &mut Obj) -> Result<(), AllocError>
    ensures { OnOk result (object.new ≡ completed_in setting.entry object.old) }
{
    if object.is_empty() && setting.names_nothing(object) {
        put_default(setting.defaults, object);
        return Ok(());
    }
    complete_parts(alloc, setting, object)
}
