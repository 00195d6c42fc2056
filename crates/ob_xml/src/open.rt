//! An element that is open.

ghost use Rattle.std.specs.Prelude.{◌≡◌, false, Some, IfOk};
ghost use Rattle.ob_object.specs.Fits.{fits_head};
ghost use Rattle.ob_object.specs.Object.{none, children};
ghost use Rattle.ob_object.specs.WellFormed.{is_taken, with_child};
ghost use Rattle.ob_xml.specs.Indexes.{with_name};
ghost use Rattle.std.specs.Prelude.{IsTrue};

use crate::names::Names;
use ob_object::{Attributes, Kind, Obj};
use std::alloc::{AllocError, Global};
use std::marker::Model;

/// An element whose end tag hasn't come, with the names of its children. It is seen as the object so far, which stands in
/// a box, so that the element is moved at little cost.
pub struct Open {
    obj: Box<Obj>,
    names: Names,
}

impl Drop for Open {
    // By one call for each part, so that to drop an element is one call to whoever may have to.
    fn drop(self) {
        let Open { obj, names } = self;
        drop(obj);
        drop(names);
    }
}

impl Model for Open {
    ghost use Rattle.ob_object.specs.Object.{Object, children};
    ghost use Rattle.ob_object.specs.contracts.object.Obj.{the_row};
    ghost use Rattle.ob_xml.specs.Indexes.{IsIndex};

    ghost Value = { Object };

    ghost coded = { the_row.coded };

    ghost view = { λ o. o.obj.value };

    ghost invariant = { λ o. IsIndex o.names (children o.obj.value) };
}

/// Takes the name of an object, if it has one.
fn add_name_of(alloc: Global, names: &mut Names, child: &Obj) -> Result<(), AllocError>
    ensures { IfOk result (λ _. names.new ≡ with_name child.now.head.name names.old) }
{
    match child.name() {
        Some(name) => names.add(alloc, name.as_str().as_bytes()),
        None => Ok(()),
    }
}

/// Want of memory, after which these aren't needed.
fn lost<T: Drop>(_parts: T) -> Result<Open, AllocError>
    ensures { IfOk result (λ _. ⊥) }
{
    Err(AllocError)
}

impl Open {
    pub fn new(alloc: Global, head: Attributes) -> Result<Open, AllocError>
        requires { IsTrue (fits_head head) }
        ensures { IfOk result (λ o. o ≡ record { head = head; inner = none }) }
    {
        match Box::new(alloc, Obj::from_attributes(alloc, head)) {
            Ok(obj) => Ok(Open {
                obj,
                names: Names::new(alloc),
            }),
            Err(failed) => lost(failed),
        }
    }

    pub fn kind(&self) -> Kind
        ensures { result ≡ self.now.head.kind }
    {
        self.obj.kind()
    }

    /// Whether a child has the name.
    pub fn has(&self, name: &[u8]) -> bool
        ensures { result ≡ is_taken (Some name.now) (children self.now) }
    {
        self.names.has(name)
    }

    /// The element with one more child, whose name no child has.
    pub fn with_child(self, alloc: Global, child: Obj) -> Result<Open, AllocError>
        requires { is_taken child.head.name (children self) ≡ false }
        ensures { IfOk result (λ o. o ≡ with_child self child) }
    {
        let Open { mut obj, mut names } = self;
        match add_name_of(alloc, &mut names, &child) {
            Ok(()) => match obj.push_new(child) {
                Ok(()) => Ok(Open { obj, names }),
                Err(child) => lost((obj, names, child)),
            },
            Err(_) => lost((obj, names, child)),
        }
    }

    /// The whole element.
    pub fn into_obj(self) -> Obj
        ensures { result ≡ self }
    {
        let Open { obj, names: _ } = self;
        Box::into_inner(obj)
    }
}
