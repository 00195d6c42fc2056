//! What an error of `accept` is about.

use std::io;

/// What an error of `accept` is about.
#[derive(Clone, Copy, PartialEq, Eq, Drop)]
pub enum Refusal {
    /// The one connection that was to be accepted.
    Connection,
    /// The system has no descriptor or no memory for one more.
    Room,
    /// The door itself.
    Door,
}

// Linux's numbers, on x86-64 and aarch64.
const EPERM: i32 = 1;

const ENOMEM: i32 = 12;

const ENFILE: i32 = 23;

const EMFILE: i32 = 24;

const ENONET: i32 = 64;

const EPROTO: i32 = 71;

const ENOPROTOOPT: i32 = 92;

const EOPNOTSUPP: i32 = 95;

const ENETDOWN: i32 = 100;

const ENETUNREACH: i32 = 101;

const ECONNABORTED: i32 = 103;

const ECONNRESET: i32 = 104;

const ENOBUFS: i32 = 105;

const ETIMEDOUT: i32 = 110;

const EHOSTDOWN: i32 = 112;

const EHOSTUNREACH: i32 = 113;

impl Refusal {
    /// What this error is about. Linux's accept(2) hands on errors that are pending on the new connection, and EPERM where
    /// a firewall forbids it.
    pub fn of(fault: &io::Error) -> Refusal {
        match fault.raw_os_error() {
            Some(
                EPERM
                | ENONET
                | EPROTO
                | ENOPROTOOPT
                | EOPNOTSUPP
                | ENETDOWN
                | ENETUNREACH
                | ECONNABORTED
                | ECONNRESET
                | ETIMEDOUT
                | EHOSTDOWN
                | EHOSTUNREACH,
            ) => Refusal::Connection,
            Some(ENOMEM | ENFILE | EMFILE | ENOBUFS) => Refusal::Room,
            _ => Refusal::Door,
        }
    }
}
