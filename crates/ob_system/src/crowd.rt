//! What the doors of a port and their links know of each other.

use libc::net::{POLLIN, SHUT_RD, poll, shutdown};
use libc::types::pollfd;
use std::os::fd::RawFd;
use std::sync::atomic::{AtomicBool, AtomicI32, AtomicU32, Ordering};

/// What the doors of a port and their links know of each other: how many wait at the door to accept, whether the port is
/// closed, and on which socket it listens.
#[derive(Drop)]
pub struct Crowd {
    at_door: AtomicU32,
    is_closed: AtomicBool,
    listener: AtomicI32,
}

/// No descriptor: `poll` passes it over.
const NONE: i32 = -1;

impl Crowd {
    /// Of a port that doesn't listen yet.
    pub fn new() -> Crowd {
        Crowd {
            at_door: AtomicU32::new(0),
            is_closed: AtomicBool::new(false),
            listener: AtomicI32::new(NONE),
        }
    }

    /// The port listens on this socket from now on.
    pub(crate) fn listen_on(&self, listener: RawFd) {
        self.listener.store(listener, Ordering::SeqCst);
    }

    /// One more waits at the door.
    pub(crate) fn come(&self) {
        let _ = self.at_door.fetch_add(1, Ordering::SeqCst);
    }

    /// One of those at the door has gone.
    pub(crate) fn go(&self) {
        let _ = self.at_door.fetch_sub(1, Ordering::SeqCst);
    }

    /// Whether the port is closed.
    pub(crate) fn is_closed(&self) -> bool {
        self.is_closed.load(Ordering::SeqCst)
    }

    /// Closes the port: who waits in `accept` is woken, who dials is refused, and links end at their next look.
    pub(crate) fn close(&self) {
        self.is_closed.store(true, Ordering::SeqCst);
        // On Linux this ends each `accept` on the socket with EINVAL. Where it fails, the next connection does.
        let _ = shutdown(self.listener.load(Ordering::SeqCst), SHUT_RD);
    }

    /// Whether somebody has dialled, and nobody waits at the door to accept.
    pub(crate) fn keeps_waiting(&self) -> bool {
        if self.at_door.load(Ordering::SeqCst) > 0 {
            return false;
        }
        let mut looks = [pollfd {
            fd: self.listener.load(Ordering::SeqCst),
            events: POLLIN,
            revents: 0,
        }];
        poll(&mut looks, 0) > 0
    }
}
