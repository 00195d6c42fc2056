//! Documents: from bytes that come in pieces to an object, and back to its canonical text.
//!
//! A `Decoder` is fed the bytes of a document, cut anywhere, and gives the object that they spell, or
//! the place and the cause of the first construct that is refused. It keeps only the bytes of the
//! construct that isn't whole yet. What is refused, and where, is `Judged` of `specs/Judged.antt`.
//! `encode` and `write` give an object's canonical text.
#![tactic(auto)]

mod decoder;
mod doc;
mod going;
mod judge;
mod laws;
mod meaning;
mod names;
mod open;
mod reading;
mod refused;
mod state;
mod words;

pub use decoder::Decoder;
pub use doc::Doc;
pub use laws::{fault_stays, one_verdict};
pub use ob_encoding::{encode, write};
pub use refused::{Refused, Why};
