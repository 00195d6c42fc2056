//! How long a call waits for the peer, and when all that is asked of it has to have ended.

use std::io;
use std::io::ErrorKind;
use std::rt::Clock as Timer;
use std::time::{Duration, Instant};

/// How many seconds an accepted peer may be silent, or take nothing: more than the lease that a watch begins with.
pub(crate) const SILENCE_S: u64 = 75;

/// How many seconds are waited in all for a whole request or reply, and in all until what was written is taken.
pub(crate) const TURN_S: u64 = 300;

/// How many seconds a link between requests is silent before it gives way to somebody who waits at the door.
pub(crate) const IDLE_S: u64 = 5;

/// After how many seconds a call that waits looks at the timer and at the others of its port, and a write tells how much was
/// taken until then.
pub(crate) const LOOK_S: u64 = 1;

/// How long a call waits, and those before it in its direction have waited.
#[derive(Clone, Copy, Drop)]
pub struct WaitTime {
    begun: Instant,
    before: Duration,
}

impl WaitTime {
    /// Of a call that begins now. Fails where those before it have used up the time.
    pub fn new<R: Timer>(timer: &R, before: Duration) -> io::Result<WaitTime> {
        if before.as_secs() >= TURN_S {
            return Err(io::Error::from(ErrorKind::TimedOut));
        }
        let begun = Instant::now(timer)?;
        Ok(WaitTime { begun, before })
    }

    /// How long the call has waited. With a timer that fails the time is up.
    fn so_far<R: Timer>(&self, timer: &R) -> Duration {
        self.begun.elapsed(timer).unwrap_or(Duration::MAX)
    }

    /// Whether the call may wait on for a peer that may be silent for so many seconds.
    pub fn is_left<R: Timer>(&self, timer: &R, silence_s: u64) -> bool {
        let so_far = self.so_far(timer);
        so_far.as_secs() < silence_s && self.before.saturating_add(so_far).as_secs() < TURN_S
    }

    /// Whether the call has waited for so many seconds.
    pub fn has_lasted<R: Timer>(&self, timer: &R, seconds: u64) -> bool {
        self.so_far(timer).as_secs() >= seconds
    }

    /// How long all of them have waited.
    pub fn total<R: Timer>(&self, timer: &R) -> Duration {
        self.before.saturating_add(self.so_far(timer))
    }
}

/// When all that is asked of a peer has to have ended.
#[derive(Clone, Copy, Drop)]
pub struct Deadline {
    /// From when on the time counts; None where the timer couldn't be read.
    begun: Option<Instant>,
    limit: Duration,
}

impl Deadline {
    /// So many milliseconds from now on.
    pub fn after<R: Timer>(timer: &R, ms: u32) -> Deadline {
        Deadline {
            begun: Instant::now(timer).ok(),
            limit: Duration::from_millis(u64::from(ms)),
        }
    }

    /// How much time is left. With a timer that fails there is none.
    pub fn left<R: Timer>(&self, timer: &R) -> Duration {
        let Some(begun) = &self.begun else {
            return Duration::ZERO;
        };
        match begun.elapsed(timer) {
            Ok(gone) => self.limit.saturating_sub(gone),
            Err(_) => Duration::ZERO,
        }
    }
}
