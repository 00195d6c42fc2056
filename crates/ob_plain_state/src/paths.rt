//! Paths of nodes.
ghost use Rattle.std.specs.Prelude.{◌≡◌};
ghost use Rattle.std.specs.Option.{option_copied};
ghost use Rattle.ob_object.specs.Paths.{is_path};

use ob_values::Text;

/// Whether a path is that of a node, which may have none.
pub fn is_path(path: &Text, other: Option<&Text>) -> bool
    ensures { result ≡ is_path path.now (option_copied other.entry) }
{
    match other {
        Some(other) => other.as_str() == path.as_str(),
        None => false,
    }
}
