//! The command line of `obix`: the words behind the program's name, and the command that they are.
//!
//! `read_command` says for each list of words which command it is, or what their first offence is. It opens no file, and takes
//! memory for the URL and the texts of a client's command alone. `page` is the help on a command, and `VERSION` the program's version.
#![tactic(auto)]

mod argument;
mod client;
mod command;
mod form;
mod lines;
mod number;
mod pages;
mod record;
mod schedule;
mod server;
mod slip;
mod storm;
mod supervise;
mod text;
mod version;

pub use client::{Console, Watch};
pub use command::{Command, read_command};
pub use form::{Asked, Verb};
pub use pages::page;
pub use record::{Audit, Compact};
pub use schedule::Scheduled;
pub use server::{Keep, Output, Serve, Stdio};
pub use slip::Slip;
pub use storm::Storm;
pub use supervise::Supervise;
pub use version::VERSION;
