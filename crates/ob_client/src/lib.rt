//! A client of a server: the calls over a link, and what a client of a watch holds that replays the replies on it.
//!
//! A `Session` writes requests and reads their replies (`specs/Sessions.antt`). A `Mirror` holds what the replies on a watch
//! leave, by the definition that the laws of watches cite too (`ob_watching`, `specs/Replay.antt`); what its calls answer
//! stands in `specs/Mirrors.antt`, how what it holds is shown in `specs/Shown.antt`.
#![tactic(auto)]

mod call_fault;
mod entries;
mod kept;
mod mirror;
mod mirror_fault;
mod news;
mod session;
mod table;

pub use call_fault::CallFault;
pub use mirror::Mirror;
pub use mirror_fault::MirrorFault;
pub use session::Session;
