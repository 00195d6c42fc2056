//! The dialogues of a client: the requests of `watch` and `console`, each computed from the replies before it, over
//! links that are dialled, and the lines that they print.
//!
//! `specs/Stages.antt` says what is asked, `specs/Taking.antt` what a reply gives, `specs/Printing.antt` what is printed,
//! `specs/Turns.antt` a whole dialogue, and `specs/Links.antt` what `converse` does to its links.
#![tactic(auto)]

mod driver;
mod ending;
mod laws;
mod lines;
mod link;
mod plan;
mod request;
mod stage;
mod taking;
mod talk;

pub use driver::converse;
pub use ending::{Ending, Peer, frame_word};
pub use laws::completes;
pub use plan::{DialoguePlan, Hrefs, Topic};
