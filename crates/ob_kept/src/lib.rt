//! A site that outlives its process.
//!
//! [`Kept`] is a site of which all that changes is on the disk before anyone is told, as entries of a record; it is a machine,
//! which a desk shares. [`reopen`] opens one with its record: the entries are done again, one after the other.
//! [`compact`] writes a record with fewer entries by which the site goes on as by the old one (`specs/Compacting.antt`).
//! `specs/Redone.antt` says what an entry does, `specs/Saying.antt` what a file leads to, `specs/Restarting.antt` what a restart is,
//! and `specs/Keeping.antt` what a crash at any moment may leave.
#![tactic(auto)]

mod choice;
mod compacting;
mod fault;
mod kept;
mod laws;
mod recorder;
mod redone;
mod reopening;
mod serving;

pub use compacting::{Compacted, compact};
pub use fault::{CompactFault, ReopenFault};
pub use kept::Kept;
pub use laws::{each_front_is_kept, each_run_keeps_watches, restarts_keep_numbers, watch_gone};
pub use recorder::Recorder;
pub use reopening::{Reopened, reopen};
pub use serving::serve_port;
