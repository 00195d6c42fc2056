//! What bytes spell.
ghost use Rattle.std.specs.Prelude.{◌≡◌};

use ob_object::Obj;
use ob_values::Text;

/// A document: the xmlns of its root, if it has one, and the root.
pub struct Doc {
    pub ns: Option<Text>,
    pub root: Obj,
}

impl Drop for Doc {
    // By one call for each part, so that to drop a document is one call to whoever may have to.
    fn drop(self) {
        let Doc { ns, root } = self;
        drop(ns);
        drop(root);
    }
}

impl Doc {
    /// The xmlns and the root.
    pub fn into_parts(self) -> (Option<Text>, Obj)
        ensures { result ≡ (self.ns, self.root) }
    {
        let Doc { ns, root } = self;
        (ns, root)
    }
}
