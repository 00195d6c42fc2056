//! Connections: the requests that come over a link are answered by a machine, one after the other.
//!
//! `sort_request` says which requests go to the site and what answers the others; `serve_link` frames, sorts, asks and
//! writes until the link ends; `serve_alone` does so with a machine that nobody else asks, and `serve_by` with an answerer. `serve` has workers serve
//! the links of doors, each in a thread of its own, under passes that `split_passes` makes and `join_workers` joins;
//! `serve_port` does all of it for the doors of a port. The machine is any whose requests and replies are the site's.
#![tactic(auto)]

mod alone;
mod answering;
mod end;
mod laws;
mod link;
mod next;
mod passes;
mod port;
mod refusal;
mod service;
mod sort;
mod worker;

pub use alone::serve_alone;
pub use answering::{Answerer, serve_by};
pub use end::{Break, LinkEnd, Pause, Stop};
pub use laws::{one_end, one_sorting};
pub use link::{end_at, end_of, read_piece, serve_link};
pub use next::{Next, take_next};
pub use passes::{join_workers, joined_is_whole, split_passes};
pub use port::{PortServed, Staff, serve_port};
pub use service::{Serving, TimedLink, TimedPort};
pub use sort::{Sorted, sort_request};
pub use worker::{Served, Worker, WorkerEnd, serve};
