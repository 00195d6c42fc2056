//! The nodes outside the contracts of a site, as sources name them by their paths.
ghost use Rattle.std.specs.Prelude.{◌≡◌, ◌++◌, ◌∷◌, ◌&&◌, ◌||◌, [], bytes_eq, ℕ, List, map, is_some, option_map, IfOk};
ghost use Rattle.ob_object.specs.Kinds.{has_values};
ghost use Rattle.ob_site_rules.specs.Loading.{Part as SitePart, node_there, is_number_kind};
ghost use Rattle.ob_roles.specs.SiteParts.{part as site_part};
ghost use Rattle.ob_site_file.specs.Sought.{Sees, has_path, kind_under, or_this};

use ob_object::Kind;
use ob_roles::Part;
use ob_values::Text;
use std::alloc::{AllocError, Global};
use std::collections::{BTreeMap, BTreeSet};

// The paths of nodes with values.
type Values = BTreeSet<Text>;

// The kind of the first node with a number at each path.
type Numbers = BTreeMap<Text, Kind>;

/// The nodes outside the contracts that a source may name.
pub(crate) struct Nodes {
    values: Values,
    numbers: Numbers,
}

impl Drop for Nodes {
    // By one call for each part.
    fn drop(self) {
        let Nodes { values, numbers } = self;
        drop(values);
        drop(numbers);
    }
}

fn is_number_kind(kind: Kind) -> bool
    ensures { result ≡ is_number_kind kind }
{
    kind.same(Kind::Int) || kind.same(Kind::Real)
}

// Puts the path of a node of a kind, if that has values.
fn put_value(values: &mut Values, kind: Kind, path: &Text) -> Result<(), AllocError>
    ensures { IfOk result (λ _. (p : List ℕ) → has_path values.new p ≡ ((has_values kind && bytes_eq path.now p) || has_path values.old p)) }
{
    if kind.has_values() {
        let path = path.copy()?;
        values.insert(path)?;
    }
    Ok(())
}

// Puts the kind of a node, if it is that of a number, and no node with a number was there.
fn put_number(numbers: &mut Numbers, kind: Kind, path: &Text) -> Result<(), AllocError>
    ensures { IfOk result (λ _. (p : List ℕ) → kind_under numbers.new p ≡ or_this (kind_under numbers.old p) (is_number_kind kind && bytes_eq path.now p) kind) }
{
    if is_number_kind(kind) && !numbers.contains_key(path) {
        let path = path.copy()?;
        numbers.insert(path, kind)?;
    }
    Ok(())
}

impl Nodes {
    // Puts a part behind those that are seen, if it is a node outside the contracts.
    fn put(&mut self, part: &Part) -> Result<(), AllocError>
        ensures { IfOk result (λ _. (ps : List SitePart) → Sees self.old ps → Sees self.new (ps ++ site_part part.now ∷ [])) }
    {
        if part.inside {
            return Ok(());
        }
        if let Some(path) = part.own.head().node_path() {
            put_value(&mut self.values, part.own.kind(), path)?;
            put_number(&mut self.numbers, part.own.kind(), path)?;
        }
        Ok(())
    }

    /// Whether a node with a value has this path.
    pub(crate) fn has_value(&self, path: &Text) -> bool
        ensures { (ps : List SitePart) → Sees self.now ps → result ≡ is_some (node_there has_values ps path.now) }
    {
        self.values.contains(path)
    }

    /// The kind of the node with a number that has this path.
    pub(crate) fn number_kind(&self, path: &Text) -> Option<Kind>
        ensures { (ps : List SitePart) → Sees self.now ps → result ≡ option_map (λ o. o.head.kind) (node_there is_number_kind ps path.now) }
    {
        self.numbers.get(path).copied()
    }
}

/// The nodes among parts.
pub(crate) fn nodes_of(alloc: Global, parts: &[Part]) -> Result<Nodes, AllocError>
    ensures { IfOk result (λ nodes. Sees nodes (map site_part parts.now)) }
{
    let mut nodes = Nodes {
        values: BTreeSet::new(alloc),
        numbers: BTreeMap::new(alloc),
    };
    for part in parts {
        nodes.put(part)?;
    }
    Ok(nodes)
}
