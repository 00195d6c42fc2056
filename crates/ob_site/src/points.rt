//! The writable points of a site.
ghost use Rattle.std.specs.Prelude.{◌≡◌, option_map, option_copied};
ghost use Rattle.ob_points.specs.Points.{point_at};
ghost use Rattle.ob_site.specs.Bare.{is_bare};
ghost use Rattle.ob_site_rules.specs.Build.{leaf};
ghost use Rattle.ob_site_rules.specs.Shown.{node_of};

use ob_object::Obj;
use ob_site_state::State;
use ob_tree::Tree;
use ob_values::Text;

/// The own object at a path, without its children.
fn own_at<'a>(tree: &'a Tree, path: &Text) -> Option<&'a Obj>
    ensures { option_copied result ≡ option_map (λ o. leaf o.head) (node_of path.now tree.now.root) }
{
    match tree.get(path) {
        Some(node) => Some(tree.own(node)),
        None => None,
    }
}

/// The own object of the writable point at a path, without its children; None at every other path.
pub(crate) fn point<'a>(state: &'a State, path: &Text) -> Option<&'a Obj>
    ensures { option_copied result ≡ point_at state.now.plan state.now.now path.now }
{
    if state.is_point(path) {
        own_at(state.tree(), path)
    } else {
        None
    }
}

/// Whether a path is that of an own node whose values no history records and no rule looks at.
pub(crate) fn is_bare(state: &State, path: &Text) -> bool
    ensures { result ≡ is_bare state.now.plan state.now.now path.now }
{
    own_at(state.tree(), path).is_some()
        && state.recorders(path).is_empty()
        && state.rule_of(path).is_none()
}
