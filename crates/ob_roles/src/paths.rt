//! The first path that is there already.
ghost use Rattle.std.specs.Prelude.{◌≡◌, ◌||◌, ◌++◌, ◌∷◌, [], codes, bytes_eq, take, length, is_some, IsTrue, IfOk};
ghost use Rattle.std.specs.Ordering.{nat_cmp};
ghost use Rattle.std.specs.Cmp.Lexicographic.{slice_cmp};
ghost use Rattle.std.specs.BTreeSet.{contains};
ghost use Rattle.ob_values.specs.XmlText.{is_printable};
ghost use Rattle.ob_site_rules.specs.Paths.{behind};
ghost use Rattle.ob_site_rules.specs.State.{is_among};
ghost use Rattle.ob_site_rules.specs.Loading.{is_computed, taken_twice};

use ob_values::Text;
use std::alloc::{AllocError, Global};
use std::collections::BTreeSet;

fn begins(text: &[u8], front: &[u8]) -> bool
    ensures { result ≡ bytes_eq (take (length front.now) text.now) front.now }
{
    text.len() >= front.len() && &text[..front.len()] == front
}

/// Whether a path is the root's with this text behind it.
fn is_behind(alloc: Global, root: &Text, tail: &str, path: &Text) -> Result<bool, AllocError>
    requires { IsTrue (is_printable tail.now) }
    ensures { IfOk result (λ yes. yes ≡ bytes_eq (root.now ++ tail.now) path.now) }
{
    let whole = root.followed_by(alloc, tail)?;
    Ok(whole.as_str() == path.as_str())
}

/// Whether a path begins with the root's with this text behind it.
#[tactic(auto, using(crate::proofs::Twice::behind_is))]
fn begins_behind(alloc: Global, root: &Text, tail: &str, path: &Text) -> Result<bool, AllocError>
    requires { IsTrue (is_printable tail.now) }
    ensures { IfOk result (λ yes. yes ≡ is_some (behind (root.now ++ tail.now) path.now)) }
{
    let whole = root.followed_by(alloc, tail)?;
    Ok(begins(path.as_str().as_bytes(), whole.as_str().as_bytes()))
}

/// Whether a path is one of the four that the root's alone computes.
fn is_fixed(alloc: Global, root: &Text, path: &Text) -> Result<bool, AllocError>
    ensures { IfOk result (λ yes. yes ≡ is_among path.now ((root.now ++ codes "about") ∷ (root.now ++ codes "batch") ∷ (root.now ++ codes "watchService") ∷ (root.now ++ codes "watchService/make") ∷ [])) }
{
    let about = is_behind(alloc, root, "about", path)?;
    let batch = is_behind(alloc, root, "batch", path)?;
    let service = is_behind(alloc, root, "watchService", path)?;
    let make = is_behind(alloc, root, "watchService/make", path)?;
    Ok(about || batch || service || make)
}

/// Whether the root's path computes a path.
fn is_computed(alloc: Global, root: &Text, path: &Text) -> Result<bool, AllocError>
    ensures { IfOk result (λ yes. yes ≡ is_computed root.now path.now) }
{
    let fixed = is_fixed(alloc, root, path)?;
    let watch = begins_behind(alloc, root, "watch/", path)?;
    let alarm = begins_behind(alloc, root, "alarm/", path)?;
    Ok(fixed || watch || alarm)
}

// Whether a path is computed, or among those seen.
fn is_there(seen: &BTreeSet<Text>, computed: bool, path: &Text) -> bool
    ensures { result ≡ (computed || contains (slice_cmp nat_cmp) seen.now path.now) }
{
    computed || seen.contains(path)
}

/// The first of paths that is computed, or stood before. An error only for want of memory.
pub fn taken_twice(alloc: Global, root: &Text, paths: &[Text]) -> Result<Option<Text>, AllocError>
    ensures { IfOk result (λ twice. twice ≡ taken_twice root.now [] paths.now) }
{
    let mut seen = BTreeSet::new(alloc);
    for path in paths {
        let computed = is_computed(alloc, root, path)?;
        let there = is_there(&seen, computed, path);
        let path = path.copy()?;
        if there {
            return Ok(Some(path));
        }
        seen.insert(path)?;
    }
    Ok(None)
}
