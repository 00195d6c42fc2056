//! The node at a path.
ghost use Rattle.std.specs.Prelude.{◌≡◌};
ghost use Rattle.std.specs.Option.{option_copied};
ghost use Rattle.ob_site_rules.specs.Shown.{node_of};

use crate::paths::is_path;
use ob_object::Obj;
use ob_values::Text;

/// The node at a path in an object, itself or what is in it at any depth.
pub fn node_of<'a>(object: &'a Obj, path: &Text) -> Option<&'a Obj>
    ensures { option_copied result ≡ node_of path.now object.now }
{
    if is_path(path, object.head().node_path()) {
        return Some(object);
    }
    for child in object.children() {
        let found = node_of(child, path);
        if found.is_some() {
            return found;
        }
    }
    None
}
