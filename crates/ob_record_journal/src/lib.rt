//! The entries of a record as those of a journal: RECORD, as it stands at rest, is the record of a run with the byte 0 in the
//! place of its last line feed.
#![tactic(auto)]

mod blocks;
mod closed;
mod laws;
mod saying;
mod writing;

pub use blocks::Blocks;
pub use closed::write_closed;
pub use laws::record_at_rest;
pub use saying::{Said, SayingFault, read_said};
pub use writing::{WritingFault, write_whole};
