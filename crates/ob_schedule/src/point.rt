//! Writable points, and objects at places.
ghost use Rattle.std.specs.Prelude.{◌≡◌, ◌<◌, length, slice_get, Some};

use ob_object::{Kind, Obj};
use ob_values::Text;

/// A writable point.
#[derive(Clone, Copy)]
pub(crate) struct Point<'a> {
    pub(crate) path: &'a Text,
    /// The kind of its values.
    pub(crate) kind: Kind,
}

/// The object at a place.
pub(crate) fn object_at(objects: &[Obj], place: usize) -> &Obj
    requires { place < length objects.now }
    ensures { slice_get objects.now place ≡ Some result.now }
{
    &objects[place]
}
