//! Records of runs: which requests a site was asked, when, and what it told; and whether such a run is legal.
//!
//! `specs/Parts.antt` and `specs/Runs.antt` have the grammar of a record. [`read_record`] reads one, [`write_entry`] writes
//! an entry, and [`audit`] steps a machine through a run and says whether each reply is that of the machine. [`record_run`]
//! writes the record of a run while it goes on: its first lines, and then an entry for each request of a link that goes to
//! the machine. `specs/Recording.antt` says of a link what is asked, as the service of links does, and what is written.
#![tactic(auto)]

mod asking;
mod auditing;
mod block;
mod decode;
mod fault;
mod laws;
mod link;
mod parts;
mod read;
mod run;
mod sifting;
mod write;

pub use auditing::{Verdict, audit};
pub use block::block_len;
pub use fault::RecordFault;
pub use laws::{one_fault, one_run, spelled_is_unbroken, worked_rows};
pub use link::record_run;
pub use read::read_record;
pub use run::{Entry, Run, Told};
pub use sifting::Sieve;
pub use write::{write_boot, write_entry};
