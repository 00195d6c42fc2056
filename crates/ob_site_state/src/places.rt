//! Where what has a path stands in a list.
ghost use Rattle.std.specs.Prelude.{◌≡◌, cond, is_some, Some, OnOk, IfOk};
ghost use Rattle.std.specs.Str.{bytes_eq};
ghost use Rattle.std.specs.BTreeMap.{get_by_text};
ghost use Rattle.ob_alarms.specs.Lists.{first_place};
ghost use Rattle.ob_site_rules.specs.Build.{Path};
ghost use Rattle.ob_site_state.specs.Roles.{has_source, is_at, stands_at};

use ob_site_rules::PointRule;
use ob_values::Text;
use std::alloc::{AllocError, Global};
use std::collections::BTreeMap;

/// Puts the place to which a path leads.
fn put_place(
    alloc: Global,
    places: &mut BTreeMap<String, usize>,
    path: &Text,
    place: usize,
) -> Result<(), AllocError>
    ensures { OnOk result ((p : Path) → get_by_text places.new p ≡ cond (bytes_eq path.now p) (Some place) (get_by_text places.old p)) }
{
    let key = String::from_str(alloc, path.as_str())?;
    places.insert(key, place)?;
    Ok(())
}

/// Whether a path leads to a place.
pub(crate) fn leads(places: &BTreeMap<String, usize>, path: &Text) -> bool
    ensures { result ≡ is_some (get_by_text places.now path.now) }
{
    places.get(path.as_str()).is_some()
}

/// The place of the first rule of each source.
pub(crate) fn rules_by_source(
    alloc: Global,
    rules: &[PointRule],
) -> Result<BTreeMap<String, usize>, AllocError>
    ensures { IfOk result (λ places. (p : Path) → get_by_text places p ≡ first_place (has_source p) rules.now) }
{
    let mut places = BTreeMap::new(alloc);
    let count = rules.len();
    for done in 0..count {
        let place = count - 1 - done;
        put_place(alloc, &mut places, &rules[place].source, place)?;
    }
    Ok(places)
}

/// The place of the first of some paths that is the one.
pub(crate) fn paths_by_path(
    alloc: Global,
    paths: &[Text],
) -> Result<BTreeMap<String, usize>, AllocError>
    ensures { IfOk result (λ places. (p : Path) → get_by_text places p ≡ first_place (is_at p) paths.now) }
{
    let mut places = BTreeMap::new(alloc);
    let count = paths.len();
    for done in 0..count {
        let place = count - 1 - done;
        put_place(alloc, &mut places, &paths[place], place)?;
    }
    Ok(places)
}

/// The place of the first history of each path.
pub(crate) fn histories_by_path(
    alloc: Global,
    histories: &[(Text, Option<Text>)],
) -> Result<BTreeMap<String, usize>, AllocError>
    ensures { IfOk result (λ places. (p : Path) → get_by_text places p ≡ first_place (stands_at p) histories.now) }
{
    let mut places = BTreeMap::new(alloc);
    let count = histories.len();
    for done in 0..count {
        let place = count - 1 - done;
        put_place(alloc, &mut places, &histories[place].0, place)?;
    }
    Ok(places)
}
