//! A site from its file.
ghost use Rattle.std.specs.Prelude.{◌≡◌, ◌⊎◌, ℕ, List, Ok, map, take, IfOk, IfErr, IfSome};
ghost use Rattle.ob_site_rules.specs.Opening.{opening};
ghost use Rattle.ob_plain_state.specs.States.{entry_of, AreCounted};
ghost use Rattle.ob_site.specs.Between.{IsShallow};
ghost use Rattle.ob_site_file.specs.Opened.{site_of};
ghost use Rattle.ob_site_file.specs.Passes.{Refuses};
ghost use Rattle.ob_load.specs.Causes.{HasLoadCause};
ghost use Rattle.ob_load.specs.Loads.{IsFromShallow, IsOutside, IsSite, RefusesBytes};

use crate::reading::{document, read_bytes};
use ob_io::Files;
use ob_object::Obj;
use ob_site::Site;
use ob_site_file::{LoadFault, Opened, opening};
use ob_site_open::state_of;
use ob_times::Moment;
use ob_values::Text;
use std::alloc::{AllocError, Global};

/// A site as it is opened, and the xmlns of its document.
#[derive(Drop)]
pub struct Loaded {
    pub ns: Option<Text>,
    pub site: Site,
}

// The site of what some root of at most 32 levels opened at some moment.
fn site_of(alloc: Global, opened: Opened) -> Result<Site, AllocError>
    requires opens { IsFromShallow (site_of opened) }
    requires counted { AreCounted (map entry_of opened.logs.items) }
    ensures { IfOk result (λ site. site ≡ site_of opened) }
{
    let state = state_of(alloc, opened)?;
    Ok(Site::open(state))
}

// The site that a document's root opens at a moment.
fn site_at(alloc: Global, root: Obj, boot: Moment) -> Result<Site, LoadFault>
    requires { IsShallow root }
    ensures site { IfOk result (λ site. opening root boot ≡ Ok site) }
    ensures refused { IfErr result (Refuses root boot) }
{
    let _head = root.head();
    let opened = opening(alloc, root, boot)?;
    let site = site_of(alloc, opened)?;
    Ok(site)
}

// The site that a document's bytes open at a moment.
fn load_bytes(alloc: Global, bytes: Vec<u8>, boot: Moment) -> Result<Loaded, LoadFault>
    ensures site { IfOk result (λ loaded. IsSite bytes.items boot loaded.ns loaded.site) }
    ensures refused { IfErr result (RefusesBytes bytes.items boot) }
{
    let doc = document(alloc, &bytes)?;
    drop(bytes);
    let (ns, root) = doc.into_parts();
    match site_at(alloc, root, boot) {
        Ok(site) => Ok(Loaded { ns, site }),
        Err(fault) => Err(fault),
    }
}

/// The site that the file of a name opens at a moment, or the first refusal in the order of `LoadFault`.
///
/// It asks for one byte more than a document may have, so that a longer file is refused as too big.
pub fn load<F: Files>(
    alloc: Global,
    files: &mut F,
    name: &str,
    boot: Moment,
) -> Result<Loaded, LoadFault>
    ensures same { (n : List ℕ) → F.content files.new n ≡ F.content files.old n }
    ensures cause { HasLoadCause (F.faults files.old) (F.faults files.new) result }
    ensures site { IfOk result (λ loaded. IfSome (F.content files.old name.now) (λ whole. IsSite (take 16_777_217 whole) boot loaded.ns loaded.site)) }
    ensures refused { IfErr result (λ fault. IfSome (F.content files.old name.now) (λ whole. IsOutside fault ⊎ RefusesBytes (take 16_777_217 whole) boot fault)) }
{
    let bytes = read_bytes(alloc, files, name)?;
    let loaded = load_bytes(alloc, bytes, boot)?;
    Ok(loaded)
}
