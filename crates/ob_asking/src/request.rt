//! What a client asks.
use ob_object::Obj;
use ob_values::{Text, Verb};

/// A request: what is to be done, the target, and an input if there is one.
#[derive(Drop)]
pub struct Request {
    pub verb: Verb,
    pub target: Text,
    pub body: Option<Obj>,
}
