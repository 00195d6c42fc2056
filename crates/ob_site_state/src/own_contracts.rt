//! The contracts of a site in place: the node of each, and which others each names.
ghost use Rattle.std.specs.Prelude.{◌≡◌, ◌<◌, ℕ, codes, [], false, true, None, Some, IfOk, IfSome, OnOk, OnErr};
ghost use Rattle.ob_object.specs.Object.{Object, parts};
ghost use Rattle.ob_contracts.specs.Ties.{AreTied, HasOneMore};
ghost use Rattle.ob_tree.specs.Laid.{paths};
ghost use Rattle.ob_tree.specs.Paths.{place_of, first_twice};
ghost use Rattle.ob_tree.specs.Shown.{part_at};
ghost use Rattle.ob_site_rules.specs.Build.{Path};
ghost use Rattle.ob_site_rules.specs.Writes.{site_contracts, is_in_contract};
ghost use Rattle.ob_shown_laws.specs.Contracted.{is_inside};
ghost use Rattle.ob_site_state.specs.OwnContracts.{AreWritten, StandAt};

use ob_contracts::{Library, Ties};
use ob_ground::Ground;
use ob_tree::{NodeId, Tree};
use std::alloc::{AllocError, Global};

/// The contracts of a site, in the order of adding: the node of each, and which contracts each names itself.
///
/// They never change: a write sets a slot alone.
pub struct OwnContracts {
    pub nodes: Vec<NodeId>,
    pub ties: Ties,
}

impl Drop for OwnContracts {
    // By one call for each part, so that to drop it is one call to whoever may have to.
    fn drop(self) {
        let OwnContracts { nodes, ties } = self;
        drop(nodes);
        drop(ties);
    }
}

/// Puts the row of the contract at a node.
fn put_row(ties: &mut Ties, library: &Library, tree: &Tree, node: NodeId) -> Result<(), AllocError>
    requires { node.number < parts tree.now.root }
    ensures { OnOk result ((x : Object) → part_at node.number tree.now.root ≡ Some x → HasOneMore library.now x ties.old ties.new) }
{
    let own = tree.copy(library.allocator(), node)?;
    ties.put(library, &own)
}

/// Which contracts those at these nodes name.
fn ties_of(library: &Library, tree: &Tree, nodes: &[NodeId]) -> Result<Ties, AllocError>
    requires { StandAt tree.now.root nodes.now (site_contracts tree.now.root) }
    ensures { IfOk result (λ ties. AreTied library.now ties (site_contracts tree.now.root)) }
{
    let mut ties = Ties::new(library.allocator());
    for node in nodes {
        put_row(&mut ties, library, tree, *node)?;
    }
    Ok(ties)
}

/// The nodes of the contracts of a site: those of the children of the root's own child `contracts`.
fn nodes_of(alloc: Global, ground: &Ground) -> Result<Vec<NodeId>, AllocError>
    ensures { IfOk result (λ nodes. StandAt ground.now.tree.root nodes.items (site_contracts ground.now.tree.root)) }
{
    let root = NodeId { number: 0 };
    match ground.child(root, "contracts") {
        Some(contracts) => ground.tree().child_nodes(alloc, contracts),
        None => Ok(Vec::new(alloc)),
    }
}

/// Whether an object may be another one or in it: where the answer is no, it isn't.
fn may_be_inside(tree: &Tree, node: NodeId, round: NodeId) -> bool
    requires within { node.number < parts tree.now.root }
    requires round { round.number < parts tree.now.root }
    ensures { result ≡ false → is_inside node.number round.number tree.now.root ≡ false }
{
    tree.place(node, round).is_some() || tree.len() >= 4_294_967_296
}

/// Whether a node may be in the root's own child `contracts`: where the answer is no, it is in no contract of the site.
fn may_be_in_contracts(ground: &Ground, node: NodeId) -> bool
    requires within { node.number < parts ground.now.tree.root }
    requires differ { first_twice [] (paths ground.now.tree.root) ≡ None }
    ensures { result ≡ false → (p : Path) → place_of p (paths ground.now.tree.root) ≡ Some node.number → is_in_contract p ground.now.tree.root ≡ false }
{
    let root = NodeId { number: 0 };
    match ground.child(root, "contracts") {
        Some(contracts) => may_be_inside(ground.tree(), node, contracts),
        None => false,
    }
}

impl OwnContracts {
    /// Those of a library and a tree. An error only for want of memory.
    pub(crate) fn of(alloc: Global, ground: &Ground) -> Result<OwnContracts, AllocError>
        ensures stand { IfOk result (λ made. StandAt ground.now.tree.root made.nodes.items (site_contracts ground.now.tree.root)) }
        ensures tied { IfOk result (λ made. AreTied ground.now.library made.ties (site_contracts ground.now.tree.root)) }
    {
        let nodes = nodes_of(alloc, ground)?;
        let ties = ties_of(ground.library(), ground.tree(), nodes.as_slice())?;
        Ok(OwnContracts { nodes, ties })
    }

    /// Of each contract whether a node is in it, where the node is in one; and else none. It takes a byte for each contract.
    pub(crate) fn written(
        &self,
        alloc: Global,
        ground: &Ground,
        node: NodeId,
    ) -> Result<Option<Vec<bool>>, AllocError>
        requires within { node.number < parts ground.now.tree.root }
        requires differ { first_twice [] (paths ground.now.tree.root) ≡ None }
        requires stand { StandAt ground.now.tree.root self.now.nodes.items (site_contracts ground.now.tree.root) }
        ensures some { IfOk result (λ found. IfSome found (λ written. AreWritten node.number ground.now.tree.root self.now.nodes.items written.items)) }
        ensures none { IfOk result (λ found. found ≡ None → (p : Path) → place_of p (paths ground.now.tree.root) ≡ Some node.number → is_in_contract p ground.now.tree.root ≡ false) }
    {
        if !may_be_in_contracts(ground, node) {
            return Ok(None);
        }
        let mut written = Vec::new(alloc);
        for contract in self.nodes.as_slice() {
            written.push(may_be_inside(ground.tree(), node, *contract))?;
        }
        Ok(Some(written))
    }
}
