//! The outside as the system has it: streams, files and the clock, the files of journals, and over TCP links, doors, a port
//! and a dialer.
//!
//! They count each error. A source tells what std tells, which is nothing of a file, a socket or a terminal; all others tell
//! nothing. A read or a write that is interrupted is tried again. A peer that is silent, or takes nothing, for too long is a
//! fault of its link.
#![tactic(auto)]

mod cause;
mod crowd;
mod dialer;
mod disk;
mod door;
mod host;
mod link;
mod port;
mod refusal;
mod standard;
mod wait_time;

pub use crowd::Crowd;
pub use dialer::TcpDialer;
pub use disk::{DiskDevices, DiskFile};
pub use door::TcpDoor;
pub use host::without_brackets;
pub use link::TcpLink;
pub use port::TcpPort;
pub use refusal::Refusal;
pub use standard::{DiskFiles, StdSink, StdSource, SystemClock};
pub use wait_time::WaitTime;

/// Links, doors, ports, dialers and clocks may go to another thread.
pub fn crosses_threads<R: Sync + 'static>() {
    is_send::<TcpLink<'static, R>>();
    is_send::<TcpDoor<'static, R>>();
    is_send::<TcpPort<'static, R>>();
    is_send::<TcpDialer<'static, R>>();
    is_send::<SystemClock<'static, R>>();
}

fn is_send<T: Send>() {}
