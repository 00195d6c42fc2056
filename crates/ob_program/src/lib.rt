//! The program `obix` over an outside that is handed in: `run`, whose contract is about bytes.
//!
//! `stdio SITE` opens the site of a file and answers the requests of the source on the sink, and `serve SITE HOST PORT` those
//! of links on threads; `keep SITE RECORD HOST PORT` is `serve` whose site outlives the process, and `compact
//! SITE RECORD NEW` writes it a shorter record. `check FILE` reads a document and writes its canonical text. `watch` and `console` are clients.
//! `storm SEED CLIENTS REQUESTS` asks a site of its own. `schedule SITE FILE` is `stdio SITE` with weekly schedules, and
//! `super CONFIG` answers from a tree of what several servers show. `help` and `--version` write a text.
#![tactic(auto)]

mod audit;
mod check;
mod client;
mod compact;
mod document;
mod exit;
mod form;
mod keep;
mod outside;
mod points;
mod program;
mod schedule;
mod serve;
mod stdio;
mod storm;
mod supervise;
mod telling;
mod text;
mod words;

pub use exit::Exit;
pub use program::run;
