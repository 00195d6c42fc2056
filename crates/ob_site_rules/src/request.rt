//! What is asked of a site.
use ob_object::Obj;
use ob_values::{Text, Verb};

/// A request: what is to be done, to the object that a text names, with an object as input.
///
/// Source: oBIX 1.1, chapter 10 (Networking): Read, Write and Invoke.
pub struct Request {
    /// Read, write, invoke or delete.
    pub verb: Verb,
    /// The href of the target, as it was asked.
    pub target: Text,
    /// The input, if one came.
    pub body: Option<Obj>,
}

impl Drop for Request {
    // By one call for each part, so that to drop it is one call to whoever may have to.
    fn drop(self) {
        let Request {
            verb: _,
            target,
            body,
        } = self;
        drop(target);
        drop(body);
    }
}
