//! The contracts of a site.
ghost use Rattle.std.specs.Prelude.{◌≡◌, ◌<◌, IfOk, Ok};
ghost use Rattle.ob_contracts.specs.Standard.{standard};
ghost use Rattle.ob_site_rules.specs.Loading.{add_contracts};
ghost use Rattle.ob_object.specs.Paths.{node_path};
ghost use Rattle.ob_site_rules.specs.Writes.{site_contracts};
ghost use Rattle.ob_roles.specs.Sums.{Gives, IsAddedIf};

use ob_contracts::{LibFault, Library, Steps};
use ob_object::Obj;
use std::alloc::{AllocError, Global};
use std::marker::Brand;
use std::sync::ledger::{Blank, Ledger};

// Adds an object under its path, if it is a node.
fn add<L: Ledger>(library: &mut Library, object: &Obj, steps: &mut Steps<L>) -> Result<(), LibFault>
    ensures { IsAddedIf library.old library.new object.now (node_path object.now.head) result }
{
    let Some(path) = object.head().node_path() else {
        return Ok(());
    };
    let Ok(path) = path.copy() else {
        return Err(LibFault::Memory);
    };
    let Ok(contract) = object.copy() else {
        return Err(LibFault::Memory);
    };
    library.add(path, contract, steps)
}

// The standard library with the contracts of a site, by a counter of steps of its own.
fn library_by<L: Ledger>(alloc: Global, root: &Obj, blank: Blank) -> Result<Library, LibFault>
    requires name { blank.name ≡ L.name }
    requires parts { blank.parts ≡ L.parts }
    requires cut { 0 < blank.parts }
    ensures { Gives result (add_contracts (Ok standard) (site_contracts root.now)) }
{
    let mut steps = Steps::<L>::begin(blank);
    let Ok(mut library) = Library::standard(alloc, &mut steps) else {
        return Err(LibFault::Memory);
    };
    let Some(contracts) = root.child("contracts") else {
        return Ok(library);
    };
    for object in contracts.children() {
        match add(&mut library, object, &mut steps) {
            Ok(()) => {}
            Err(fault) => return Err(fault),
        }
    }
    Ok(library)
}

/// The standard library with the contracts of a site, each with what it inherits from those before it, or the
/// first that isn't taken.
pub fn library_of(alloc: Global, root: &Obj) -> Result<Library, LibFault>
    ensures { Gives result (add_contracts (Ok standard) (site_contracts root.now)) }
{
    library_by::<Brand>(alloc, root, Blank::new(1))
}

/// The standard library, by a counter of steps of its own.
pub(crate) fn standard_by<L: Ledger>(alloc: Global, blank: Blank) -> Result<Library, AllocError>
    requires name { blank.name ≡ L.name }
    requires parts { blank.parts ≡ L.parts }
    requires cut { 0 < blank.parts }
    ensures { IfOk result (λ made. made ≡ standard) }
{
    let mut steps = Steps::<L>::begin(blank);
    Library::standard(alloc, &mut steps)
}
