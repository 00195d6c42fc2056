//! What is shown of upstreams.
ghost use Rattle.std.specs.Prelude.{◌≡◌, [], true, IfOk, OnOk, None, option_map};
ghost use Rattle.ob_object.specs.Object.{children};
ghost use Rattle.ob_watching.specs.WatchOuts.{without_name};
ghost use Rattle.ob_super.specs.Names.{are_apart, names};
ghost use Rattle.ob_super.specs.Trees.{bare_one, placed, list_head, subtree, tree};
ghost use Rattle.ob_super.specs.InHand as in_hand;

use crate::place::{ROOT, list_path, object_path};
use crate::upstream::{Followed, Upstream};
use ob_client::Mirror;
use ob_object::{Attributes, Kind, Obj, Status};
use ob_values::Text;
use std::alloc::{AllocError, Global};

// A copy of an object without hrefs at any depth.
fn copy_bare(alloc: Global, object: &Obj) -> Result<Obj, AllocError>
    ensures { IfOk result (λ o. o ≡ bare_one object.now) }
{
    let own = object.head();
    let head = own.copy_with(own.slot())?;
    let mut made = Obj::from_attributes(alloc, head);
    for child in object.children() {
        let copy = copy_bare(alloc, child)?;
        made.push_last(copy)?;
    }
    Ok(made)
}

/// An object that is held, as it stands at a place of the tree: under this path, without a name, and with no hrefs inside.
pub(crate) fn placed(alloc: Global, object: &Obj, path: Text) -> Result<Obj, AllocError>
    ensures { IfOk result (λ o. o ≡ placed path object.now) }
{
    let mut made = copy_bare(alloc, object)?;
    made.put_href(Some(path));
    match made.put_name(None) {
        Ok(()) => Ok(made),
        Err(_name) => unreachable!(),
    }
}

/// What is held under an upstream's href at a place, at its path.
pub(crate) fn placed_at(
    alloc: Global,
    upstream: &Upstream,
    mirror: &Mirror,
    place: usize,
) -> Result<Option<Obj>, AllocError>
    ensures { IfOk result (λ o. o ≡ option_map (λ e. e.object) (in_hand.entry_of (in_hand.upstream upstream.now) mirror.now.held place)) }
{
    let Some(href) = upstream.hrefs.get(place) else {
        return Ok(None);
    };
    let Some(object) = mirror.get(href.as_str()) else {
        return Ok(None);
    };
    let path = object_path(alloc, &upstream.name, place)?;
    Ok(Some(placed(alloc, object, path)?))
}

// The head of the list of an upstream, without its name.
fn list_head(alloc: Global, name: &Text, is_up: bool) -> Result<Attributes, AllocError>
    ensures { IfOk result (λ h. h ≡ record (list_head name.now is_up) { name = None }) }
{
    let mut head = Attributes::empty(alloc, Kind::List);
    head.put_href(Some(list_path(alloc, name)?));
    head.put_status(Some(if is_up { Status::Ok } else { Status::Down }));
    Ok(head)
}

// Puts the objects that are held last.
fn push_held(
    alloc: Global,
    upstream: &Upstream,
    mirror: &Mirror,
    list: &mut Obj,
) -> Result<(), AllocError>
    requires { children list.old ≡ [] }
    ensures { OnOk result (list.new ≡ in_hand.with_held (in_hand.upstream upstream.now) mirror.now.held list.old) }
{
    for place in 0..upstream.hrefs.len() {
        if let Some(copy) = placed_at(alloc, upstream, mirror, place)? {
            list.push_last(copy)?;
        }
    }
    Ok(())
}

/// The list of an upstream, without its name.
pub(crate) fn subtree<L>(alloc: Global, followed: &Followed<L>) -> Result<Obj, AllocError>
    ensures { IfOk result (λ o. o ≡ without_name (subtree (in_hand.view followed.now))) }
{
    let upstream = &followed.upstream;
    let head = list_head(alloc, &upstream.name, followed.live.is_some())?;
    let mut list = Obj::from_attributes(alloc, head);
    if let Some(live) = &followed.live {
        push_held(alloc, upstream, &live.watch.mirror, &mut list)?;
    }
    Ok(list)
}

// The list of an upstream, under its name.
fn named_subtree<L>(alloc: Global, followed: &Followed<L>) -> Result<Obj, AllocError>
    ensures { IfOk result (λ o. o ≡ subtree (in_hand.view followed.now)) }
{
    let mut list = subtree(alloc, followed)?;
    let name = followed.upstream.name.copy()?;
    match list.put_name(Some(name)) {
        Ok(()) => Ok(list),
        Err(_name) => unreachable!(),
    }
}

/// The whole tree.
pub(crate) fn tree<L>(alloc: Global, all: &[Followed<L>]) -> Result<Obj, AllocError>
    requires { are_apart (names all.now) ≡ true }
    ensures { IfOk result (λ o. o ≡ tree (in_hand.views all.now)) }
{
    let mut head = Attributes::empty(alloc, Kind::Obj);
    head.put_href(Some(Text::from_ascii(alloc, ROOT)?));
    let mut root = Obj::from_attributes(alloc, head);
    for followed in all {
        let list = named_subtree(alloc, followed)?;
        root.push_last(list)?;
    }
    Ok(root)
}
