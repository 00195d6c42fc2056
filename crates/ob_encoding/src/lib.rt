//! What XML writes of objects: the names of the kinds, the attributes that objects of each kind have, what an attribute's
//! text says of an object, and the canonical text, one spelling for each object.
//!
//! `read_part` reads one attribute by the readers of `ob_values`, and `Part::put` puts it into the head of an object.
//! `encode` writes an element with its attributes in a fixed order and its children within; decoders read the same object
//! back from it.
#![tactic(auto)]

mod attribute;
mod element;
mod escape;
mod field;
mod kind;
mod laws;
mod names;
mod part;
mod status;
mod words;

pub use element::{encode, write};
pub use field::{Field, TextField, ValueField, WordsField, read_known};
pub use kind::{is_word, read_kind};
pub use laws::one_part;
pub use names::{kind_name, status_word};
pub use part::{Part, PartFault, read_part};
pub use status::read_status;
pub use words::read_words;
