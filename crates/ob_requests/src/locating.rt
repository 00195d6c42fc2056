//! The path that a text leads to.
ghost use Rattle.std.specs.Prelude.{◌≡◌, IfOk};
ghost use Rattle.ob_site_rules.specs.Locating.{locate};

use ob_href::{HrefFault, locate};
use ob_site_rules::Plan;
use ob_values::Text;
use std::alloc::{AllocError, Global};

/// The path that a text leads to from the root's URL, if it leads to one. An error only for want of memory.
///
/// Source: oBIX 1.1, chapter 6 (Naming).
#[tactic(auto, using(crate::proofs::Leading::leads, crate::proofs::Leading::no_url, crate::proofs::Leading::elsewhere, crate::proofs::Leading::part_of))]
pub fn locate_path(alloc: Global, plan: &Plan, text: &Text) -> Result<Option<Text>, AllocError>
    ensures { IfOk result (λ path. path ≡ locate plan.now.base text.now) }
{
    if plan.base.keeps(text.as_str()) {
        return Ok(Some(text.copy()?));
    }
    match locate(alloc, &plan.base, text.as_str()) {
        Ok(path) => Ok(Some(path)),
        Err(HrefFault::Memory) => Err(AllocError),
        Err(HrefFault::NotUrl) => Ok(None),
        Err(HrefFault::OtherOrigin) => Ok(None),
        Err(HrefFault::Fragment) => Ok(None),
    }
}
