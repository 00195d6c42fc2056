//! The roles of the objects of a root, or why it opens no site.
ghost use Rattle.std.specs.Prelude.{◌≡◌, ◌<◌, ◌^◌, [], None, Ok, IfOk, IfErr};
ghost use Rattle.url.specs.Parts.{Parts};
ghost use Rattle.ob_object.specs.Object.{parts};
ghost use Rattle.ob_contracts.specs.Inherit.{Contracts};
ghost use Rattle.ob_contracts.specs.Standard.{standard, with_added};
ghost use Rattle.ob_site_rules.specs.Loading.{add_contracts, taken_twice, bad_part};
ghost use Rattle.ob_site_rules.specs.Writes.{site_contracts};
ghost use Rattle.ob_site_file.specs.Passes.{site_roles, site_paths, site_parts, IsApart, RefusesMade};

use crate::bad::bad_part;
use crate::fault::LoadFault;
use crate::nodes::nodes_of;
use ob_contracts::Library;
use ob_href::Base;
use ob_object::Obj;
use ob_roles::{all_parts, all_paths, all_roles, kinds_of, library_of, table_of, taken_twice};
use ob_site_rules::Roles;
use std::alloc::{AllocError, Global};

// The standard library with the contracts of a root.
fn contracts_of(alloc: Global, root: &Obj) -> Result<Library, LoadFault>
    ensures ok { IfOk result (λ lib. add_contracts (Ok standard) (site_contracts root.now) ≡ Ok lib) }
    ensures err { (base : Parts) → IfErr result (RefusesMade base root.now) }
{
    match library_of(alloc, root) {
        Ok(library) => Ok(library),
        Err(fault) => Err(LoadFault::of_contract(fault)),
    }
}

// The roles of all objects of a root whose contracts are in a library.
fn roles_in(alloc: Global, library: &Library, root: &Obj) -> Result<Vec<Roles>, AllocError>
    ensures { IfOk result (λ rs. library.now ≡ with_added standard (site_contracts root.now) → rs.items ≡ site_roles root.now) }
{
    let known = kinds_of(alloc, library.contracts())?;
    let table = table_of(alloc, &known, root)?;
    let roles = all_roles(alloc, &table, &known, root)?;
    Ok(roles)
}

// That no path of a root stands twice, or is computed.
fn check_paths(alloc: Global, base: &Base, roles: &[Roles], root: &Obj) -> Result<(), LoadFault>
    requires { parts root.now < 2 ^ 64 }
    ensures ok { IfOk result (λ _. roles.now ≡ site_roles root.now → taken_twice base.now.path [] (site_paths root.now) ≡ None) }
    ensures err { (lib : Contracts) → roles.now ≡ site_roles root.now → add_contracts (Ok standard) (site_contracts root.now) ≡ Ok lib → IfErr result (RefusesMade base.now root.now) }
{
    let path = base.path(alloc)?;
    let paths = all_paths(alloc, roles, root)?;
    match taken_twice(alloc, &path, paths.as_slice())? {
        Some(path) => Err(LoadFault::PathTwice { path }),
        None => Ok(()),
    }
}

// That no part of a root breaks a rule of its roles.
fn check_rules(alloc: Global, roles: &[Roles], root: &Obj) -> Result<(), LoadFault>
    requires { parts root.now < 2 ^ 64 }
    ensures ok { IfOk result (λ _. roles.now ≡ site_roles root.now → bad_part (site_parts root.now) ≡ None) }
    ensures err { (base : Parts) (lib : Contracts) → roles.now ≡ site_roles root.now → add_contracts (Ok standard) (site_contracts root.now) ≡ Ok lib → taken_twice base.path [] (site_paths root.now) ≡ None → IfErr result (RefusesMade base root.now) }
{
    let parts = all_parts(alloc, roles, root)?;
    let listed = parts.as_slice();
    let nodes = nodes_of(alloc, listed)?;
    match bad_part(alloc, &nodes, listed)? {
        Some(offence) => Err(LoadFault::Rule(offence)),
        None => Ok(()),
    }
}

/// What is judged of a root: the library with its contracts, and the roles of its objects.
#[derive(Drop)]
pub(crate) struct Basis {
    pub(crate) library: Library,
    pub(crate) roles: Vec<Roles>,
}

/// The library and the roles of a root that has paths in place of texts that lead to the site, or the first refusal in the
/// order Contract, PathTwice, Rule.
pub(crate) fn judged(alloc: Global, base: &Base, root: &Obj) -> Result<Basis, LoadFault>
    requires { parts root.now < 2 ^ 64 }
    ensures library { IfOk result (λ j. add_contracts (Ok standard) (site_contracts root.now) ≡ Ok j.library) }
    ensures roles { IfOk result (λ j. j.roles.items ≡ site_roles root.now) }
    ensures apart { IfOk result (λ _. IsApart base.now root.now) }
    ensures err { IfErr result (RefusesMade base.now root.now) }
{
    let library = contracts_of(alloc, root)?;
    let roles = roles_in(alloc, &library, root)?;
    check_paths(alloc, base, roles.as_slice(), root)?;
    check_rules(alloc, roles.as_slice(), root)?;
    Ok(Basis { library, roles })
}
