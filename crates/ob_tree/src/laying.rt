//! An object, laid out in document order.
ghost use Rattle.std.specs.Prelude.{◌≡◌, [], ◌∷◌, ◌++◌, length, map, Some, None, cond, is_some, IfOk, OnOk, MatchResult};
ghost use Rattle.std.specs.Str.{bytes_eq};
ghost use Rattle.std.specs.BTreeMap.{get_by_text};
ghost use Rattle.ob_object.specs.Paths.{node_path};
ghost use Rattle.ob_tree.specs.Paths.{place_of, first_twice, Path};
ghost use Rattle.ob_tree.specs.Laid.{heads_of, spots_of, leaf, said};

use crate::spot::Spot;
use ob_object::Obj;
use ob_values::Text;
use std::alloc::{AllocError, Global};
use std::collections::BTreeMap;

/// Puts a copy of an object last, without its children.
fn put_leaf(alloc: Global, into: &mut Vec<Obj>, object: &Obj) -> Result<(), AllocError>
    ensures { OnOk result (into.new.items ≡ into.old.items ++ leaf object.now.head ∷ []) }
{
    let head = object.head().copy()?;
    match into.push(Obj::from_attributes(alloc, head)) {
        Ok(()) => Ok(()),
        Err(_leaf) => Err(AllocError),
    }
}

/// Puts an object and all that is in it last, each without its children.
pub(crate) fn lay_leaves(alloc: Global, into: &mut Vec<Obj>, object: &Obj) -> Result<(), AllocError>
    ensures { OnOk result (into.new.items ≡ into.old.items ++ map leaf (heads_of object.now)) }
{
    put_leaf(alloc, into, object)?;
    for child in object.children() {
        lay_leaves(alloc, into, child)?;
    }
    Ok(())
}

/// Puts last where an object and all that is in it stand, which is in the object of this number.
pub(crate) fn lay_spots(
    into: &mut Vec<Spot>,
    parent: Option<usize>,
    object: &Obj,
) -> Result<(), AllocError>
    ensures { OnOk result (into.new.items ≡ into.old.items ++ spots_of (length into.old.items) parent object.now) }
{
    let at = into.len();
    let len = object.len();
    into.push(Spot {
        parent,
        len,
        end: at,
    })?;
    for child in object.children() {
        lay_spots(into, Some(at), child)?;
    }
    let end = into.len();
    into[at] = Spot { parent, len, end };
    Ok(())
}

/// Whether a node has that path.
pub(crate) fn is_known(places: &BTreeMap<String, usize>, path: &Text) -> bool
    ensures { result ≡ is_some (get_by_text places.now path.now) }
{
    places.get(path.as_str()).is_some()
}

/// Puts where the node of a path stands.
pub(crate) fn put_place(
    alloc: Global,
    places: &mut BTreeMap<String, usize>,
    path: &Text,
    place: usize,
) -> Result<(), AllocError>
    ensures { OnOk result ((p : Path) → get_by_text places.new p ≡ cond (bytes_eq path.now p) (Some place) (get_by_text places.old p)) }
{
    let key = String::from_str(alloc, path.as_str())?;
    places.insert(key, place)?;
    Ok(())
}

/// Where the node of each path stands, the first of those that have it, or else the first path that a
/// node before it has.
pub(crate) fn places_of(
    alloc: Global,
    leaves: &[Obj],
) -> Result<Result<BTreeMap<String, usize>, Text>, AllocError>
    ensures { IfOk result (λ found. MatchResult found
        (λ places. (first_twice [] (map node_path (said leaves.now)) ≡ None) × ((p : Path) → get_by_text places p ≡ place_of p (map node_path (said leaves.now))))
        (λ path. first_twice [] (map node_path (said leaves.now)) ≡ Some path)) }
{
    let mut places = BTreeMap::new(alloc);
    for (place, leaf) in leaves.iter().enumerate() {
        if let Some(path) = leaf.head().node_path() {
            if is_known(&places, path) {
                let path = path.copy()?;
                return Ok(Err(path));
            }
            put_place(alloc, &mut places, path, place)?;
        }
    }
    Ok(Ok(places))
}
