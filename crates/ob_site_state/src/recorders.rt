//! Which histories record a node.
ghost use Rattle.std.specs.Prelude.{◌≡◌, ◌++◌, ◌∷◌, [], None, cond, OnOk, IfOk};
ghost use Rattle.std.specs.Str.{bytes_eq};
ghost use Rattle.std.specs.BTreeMap.{get_by_text};
ghost use Rattle.ob_site_rules.specs.Build.{Path};
ghost use Rattle.ob_site_state.specs.Roles.{all_places, is_of, places_at};

use ob_values::Text;
use std::alloc::{AllocError, Global};
use std::collections::BTreeMap;

/// The places that are kept for a path.
pub(crate) fn places_at<'a>(places: &'a BTreeMap<String, Vec<usize>>, path: &Text) -> &'a [usize]
    ensures { result.now ≡ places_at places.now path.now }
{
    match places.get(path.as_str()) {
        Some(own) => own.as_slice(),
        None => &[],
    }
}

/// Takes out the places that are kept for a path.
fn take_places(alloc: Global, places: &mut BTreeMap<String, Vec<usize>>, path: &Text) -> Vec<usize>
    ensures own { result.items ≡ places_at places.old path.now }
    ensures others { (p : Path) → get_by_text places.new p ≡ cond (bytes_eq path.now p) None (get_by_text places.old p) }
{
    match places.remove(path.as_str()) {
        Some(own) => own,
        None => Vec::new(alloc),
    }
}

/// Puts a place behind those that are kept for a path.
fn put_behind(
    alloc: Global,
    places: &mut BTreeMap<String, Vec<usize>>,
    path: &Text,
    place: usize,
) -> Result<(), AllocError>
    ensures { OnOk result ((p : Path) → places_at places.new p ≡ cond (bytes_eq path.now p) (places_at places.old p ++ place ∷ []) (places_at places.old p)) }
{
    let mut own = take_places(alloc, places, path);
    own.push(place)?;
    let key = String::from_str(alloc, path.as_str())?;
    places.insert(key, own)?;
    Ok(())
}

/// Puts the place of a history behind those of its source, if it has one.
fn put_recorder(
    alloc: Global,
    places: &mut BTreeMap<String, Vec<usize>>,
    history: &(Text, Option<Text>),
    place: usize,
) -> Result<(), AllocError>
    ensures { OnOk result ((p : Path) → places_at places.new p ≡ cond (is_of p history.now) (places_at places.old p ++ place ∷ []) (places_at places.old p)) }
{
    match &history.1 {
        Some(source) => put_behind(alloc, places, source, place),
        None => Ok(()),
    }
}

/// The places of the histories of each source, in order.
pub(crate) fn recorders_by_source(
    alloc: Global,
    histories: &[(Text, Option<Text>)],
) -> Result<BTreeMap<String, Vec<usize>>, AllocError>
    ensures { IfOk result (λ places. (p : Path) → places_at places p ≡ all_places (is_of p) histories.now) }
{
    let mut places = BTreeMap::new(alloc);
    for place in 0..histories.len() {
        put_recorder(alloc, &mut places, &histories[place], place)?;
    }
    Ok(places)
}
