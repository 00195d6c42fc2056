//! What a document opens.
ghost use Rattle.std.specs.Prelude.{◌≡◌, ◌+◌, ◌<◌, ◌^◌, ℕ, Some, None, Ok, map, nat_lt, IsTrue, IfOk, IfErr};
ghost use Rattle.ob_hrefs.specs.Hrefs.{site_path, root_of, bad_href};
ghost use Rattle.ob_object.specs.Object.{parts};
ghost use Rattle.ob_site_rules.specs.Opening.{opening};
ghost use Rattle.ob_site_rules.specs.Shown.{shown_root};
ghost use Rattle.ob_plain_state.specs.States.{entry_of, AreCounted};
ghost use Rattle.ob_site_file.specs.Opened.{Plans, site_of, opened_made};
ghost use Rattle.ob_site_file.specs.Passes.{site_roles, IsRefusal, Refuses};

use crate::derived::Counting;
use crate::fault::LoadFault;
use crate::judging::{Basis, judged};
use crate::plan::{logs_of, plan_of};
use crate::size::is_too_large;
use ob_contracts::Library;
use ob_href::Base;
use ob_hrefs::{bad_href, made_root, root_of};
use ob_object::Obj;
use ob_plain_state::OpenedLog;
use ob_roles::{all_parts, kept_root};
use ob_site_rules::Plan;
use ob_times::Moment;
use ob_values::Text;
use std::alloc::{AllocError, Global};

// Whether the parts of a root can be counted in 64 bits with one more.
fn is_countable(root: &Obj) -> bool
    ensures { IsTrue result → parts root.now + 1 < 2 ^ 64 }
{
    root.parts() < u64::MAX - 1
}

// The URL of a root.
fn base_of(alloc: Global, root: &Obj) -> Result<Base, LoadFault>
    ensures ok { IfOk result (λ base. root_of root.now ≡ Some base) }
    ensures err { (boot : ℕ) → IfErr result (Refuses root.now boot) }
{
    match root_of(alloc, root)? {
        Some(base) => Ok(base),
        None => Err(LoadFault::RootHref),
    }
}

// That each href of a node is a path of the site.
fn check_hrefs(alloc: Global, base: &Base, root: &Obj) -> Result<(), LoadFault>
    requires { parts root.now < 2 ^ 64 }
    ensures ok { IfOk result (λ _. bad_href (site_path base.now) 1 root.now.inner ≡ None) }
    ensures err { (boot : ℕ) → root_of root.now ≡ Some base.now → IfErr result (Refuses root.now boot) }
{
    match bad_href(alloc, base, root.children(), 1)? {
        Some(part) => Err(LoadFault::Href { part }),
        None => Ok(()),
    }
}

/// What a document opens: what is fixed, the library with the contracts of the site, the root with its own objects, and the
/// logs of the histories with all of their records.
#[derive(Drop)]
pub struct Opened {
    pub plan: Plan,
    pub library: Library,
    pub tree: Obj,
    pub logs: Vec<(Text, OpenedLog)>,
}

// What a root opens whose contracts are in a library, and whose objects have these roles.
fn planned(
    alloc: Global,
    base: Base,
    judged: Basis,
    root: Obj,
    boot: Moment,
) -> Result<Opened, AllocError>
    requires { parts root < 2 ^ 64 }
    ensures { IfOk result (λ o. judged.roles.items ≡ site_roles root → Plans base boot root judged.library o) }
{
    let Basis { library, roles } = judged;
    let parts = all_parts(alloc, roles.as_slice(), &root)?;
    let plan = plan_of(alloc, base, &root, parts.as_slice(), boot)?;
    let logs = logs_of(alloc, parts.as_slice())?;
    drop(parts);
    let tree = kept_root(alloc, roles.as_slice(), &root)?;
    Ok(Opened {
        plan,
        library,
        tree,
        logs,
    })
}

// Whether what is opened shows too much.
fn is_large(alloc: Global, opened: &Opened) -> Result<bool, AllocError>
    ensures { IfOk result (λ large. large ≡ nat_lt 200_000 (parts (shown_root (site_of opened.now).plan (site_of opened.now).world.site))) }
{
    let counting = Counting::of(alloc, &opened.library, &opened.plan, opened.logs.as_slice())?;
    is_too_large(alloc, &counting, &opened.tree)
}

// What a root opens that has paths in place of texts that lead to the site, or the first refusal behind those of hrefs.
fn open_made(alloc: Global, base: Base, root: Obj, boot: Moment) -> Result<Opened, LoadFault>
    requires { parts root < 2 ^ 64 }
    ensures ok { IfOk result (λ o. opened_made base boot root ≡ Ok (site_of o)) }
    ensures counted { IfOk result (λ o. AreCounted (map entry_of o.logs.items)) }
    ensures err { IfErr result (IsRefusal (opened_made base boot root)) }
{
    let judged = judged(alloc, &base, &root)?;
    let opened = planned(alloc, base, judged, root, boot)?;
    let large = is_large(alloc, &opened)?;
    if large {
        Err(LoadFault::Size)
    } else {
        Ok(opened)
    }
}

/// What a document's root opens at a moment, or the first refusal in order. A root that can't be counted in 64 bits is
/// refused for want of memory. No more than two copies of the root stand at a time: it is dropped when that with paths
/// stands, and this one when the tree does.
pub fn opening(alloc: Global, root: Obj, boot: Moment) -> Result<Opened, LoadFault>
    ensures opened { IfOk result (λ o. opening root boot ≡ Ok (site_of o)) }
    ensures counted { IfOk result (λ o. AreCounted (map entry_of o.logs.items)) }
    ensures refused { IfErr result (Refuses root boot) }
{
    if !is_countable(&root) {
        return Err(LoadFault::Memory);
    }
    let base = base_of(alloc, &root)?;
    check_hrefs(alloc, &base, &root)?;
    let made = made_root(alloc, &base, &root)?;
    drop(root);
    if !is_countable(&made) {
        return Err(LoadFault::Memory);
    }
    let opened = open_made(alloc, base, made, boot)?;
    Ok(opened)
}
