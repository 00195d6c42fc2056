//! Contracts of a site that are made anew, where parts of some are written.
ghost use Rattle.std.specs.Prelude.{◌≡◌, ◌<◌, ◌≤◌, Some, None, length, OnOk, OnErr};
ghost use Rattle.ob_object.specs.Object.{Object, parts};
ghost use Rattle.ob_contracts.specs.Inherit.{result_of};
ghost use Rattle.ob_contracts.specs.Renewing.{MayRenew, with_contract};
ghost use Rattle.ob_contracts.specs.Standard.{standard, with_added};
ghost use Rattle.ob_contracts.specs.Ties.{AreTied};
ghost use Rattle.ob_tree.specs.Shown.{part_at};
ghost use Rattle.ob_site_rules.specs.Writes.{site_contracts};
ghost use Rattle.ob_site_state.specs.OwnContracts.{CanRemake, StandAt};

use crate::own_contracts::OwnContracts;
use ob_contracts::{Library, Steps};
use ob_ground::{Ground, Told};
use ob_tree::{NodeId, Tree};
use std::alloc::{AllocError, Global};
use std::sync::ledger::Ledger;

/// Makes the contract of a place anew from the own object at a node.
fn remake_node<L: Ledger>(
    library: &mut Library,
    place: usize,
    tree: &Tree,
    node: NodeId,
    steps: &mut Steps<L>,
) -> Result<(), AllocError>
    requires place { place < length library.old }
    requires within { node.number < parts tree.now.root }
    requires small { (x : Object) → part_at node.number tree.now.root ≡ Some x → parts (result_of library.old x None None) ≤ 512 }
    ensures { OnOk result ((x : Object) → part_at node.number tree.now.root ≡ Some x → library.new ≡ with_contract place (result_of library.old x None None) library.old) }
{
    let own = tree.copy(library.allocator(), node)?;
    let _old = library.remake(place, &own, steps)?;
    Ok(())
}

/// Makes the contracts anew that are marked, one after another. The marks of the site's contracts are the last ones.
fn remake_marked<L: Ledger>(
    library: &mut Library,
    tree: &Tree,
    nodes: &[NodeId],
    marks: &[bool],
    steps: &mut Steps<L>,
) -> Result<(), AllocError>
    requires { CanRemake library.old tree.now.root nodes.now marks.now }
    ensures { OnOk result (library.new ≡ with_added standard (site_contracts tree.now.root)) }
{
    let first = marks.len() - nodes.len();
    for next in 0..nodes.len() {
        let place = first + next;
        if marks[place] {
            remake_node(library, place, tree, nodes[next], steps)?;
        }
    }
    Ok(())
}

/// Makes anew the contracts of a site that are written, and those that stand on them; and finds anew what the library tells those
/// objects of the tree for which it told something. Want of memory leaves another library.
pub(crate) fn renew<L: Ledger>(
    alloc: Global,
    ground: &mut Ground,
    own: &OwnContracts,
    written: &[bool],
    steps: &mut Steps<L>,
) -> Result<(), AllocError>
    requires may { MayRenew standard ground.old.library (site_contracts ground.old.tree.root) (length standard) written.now }
    requires tied { AreTied ground.old.library own.now.ties (site_contracts ground.old.tree.root) }
    requires stand { StandAt ground.old.tree.root own.now.nodes.items (site_contracts ground.old.tree.root) }
    ensures ok { OnOk result (ground.new ≡ record ground.old { library = with_added standard (site_contracts ground.old.tree.root) }) }
    ensures tree { ground.new.tree ≡ ground.old.tree }
{
    let nodes = own.nodes.as_slice();
    let first = ground.library().contracts().len() - nodes.len();
    let marks = own.ties.behind(alloc, first, written)?;
    let none = Told::bare(alloc, Library::new(alloc));
    let (mut library, words) = ground.replace(none).into_parts();
    remake_marked(&mut library, ground.tree(), nodes, marks.as_slice(), steps)?;
    let told = ground.told_again(alloc, library, &words, steps)?;
    let _none = ground.replace(told);
    Ok(())
}
