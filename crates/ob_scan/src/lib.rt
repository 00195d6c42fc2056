//! The constructs of an XML text, one at a time.
//!
//! `next_piece` gives the construct at a place of the bytes: a tag's name, an attribute, an end, a
//! comment; or says that more bytes are needed, or why it is refused. What stands where is the grammar
//! of `specs/Constructs.antt`. `expand` gives the text that the value of an attribute stands for.
#![tactic(auto)]

mod attribute;
mod character;
mod declaration;
mod laws;
mod markup;
mod piece;
mod reading;
mod scan;
mod stop;
mod value;
mod wait;

pub use character::Progress;
pub use laws::{judged_once, one_text, well_found};
pub use piece::{Found, Piece, Place, ScanFault, Why};
pub use reading::{Ends, behind_spaces};
pub use scan::next_piece;
pub use stop::Stop;
pub use value::{RawFault, expand, plain};
pub use wait::Wait;
