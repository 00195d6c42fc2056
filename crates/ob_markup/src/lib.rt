//! The markup of documents in the productions of XML 1.0, and that the scanner finds, refuses and waits for exactly what
//! they say; a whole document in them, and that the grammar of documents is the same.
//!
//! No code but laws. What the profile narrows of the standard is said at each production in `specs/`.
#![tactic(auto)]

mod laws;

pub use laws::{
    asks_for_more, documents_agree, documents_judged, finds_pieces, refuses_at_the_end,
    refuses_others, values_stand, worked_rows,
};
