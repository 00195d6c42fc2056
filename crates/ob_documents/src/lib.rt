//! Documents by their grammar: which bytes spell which object, said over the constructs of XML and the attributes of
//! objects, apart from any reader; that the canonical text of an object spells it; that what a decoder gives is exactly
//! what the bytes spell; and that an object is read back from its canonical text. `read` reads a whole document.
#![tactic(auto)]

mod grammar;
mod held;
mod laws;
mod whole;

pub use grammar::{one_document, text_spells};
pub use held::is_held;
pub use laws::{carried, held_carried, only, only_a_name_fails, read_back, spelled};
pub use whole::read;
