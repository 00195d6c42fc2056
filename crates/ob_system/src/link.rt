//! Links over TCP.
ghost use Rattle.std.specs.Prelude.{◌≡◌, IfOk, None};
ghost use Rattle.std.specs.Io.{ReadsAtMost, WritesAtMost};

use crate::crowd::Crowd;
use crate::standard::{read_some, write_some};
use crate::wait_time::{Deadline, IDLE_S, LOOK_S, WaitTime};
use ob_io::{Failed, Link};
use std::io;
use std::io::ErrorKind;
use std::net::{Shutdown, TcpStream};
use std::rt::Clock as Timer;
use std::time::{Duration, Instant};

/// How many seconds a peer is listened to when all is written to it.
const LINGER_S: u64 = 2;

/// How many bytes of what it then sends are dropped.
const LEFTOVER: usize = 4_194_304;

const PIECE: usize = 4_096;

/// A connection over TCP. A write that takes nothing is a fault, and so is a call that waits too long: for a peer that is
/// silent or takes nothing, or, with the calls since the last one in the other direction, for 300 seconds in all. A link of a
/// port is between requests where nothing was read since it was accepted or last written to: then a read is a fault, too, once
/// it has waited 5 seconds while somebody else waits at the door in vain. Where the port is closed, all calls that wait are. A link
/// with a deadline has no call that ends well after it.
#[derive(Drop)]
pub struct TcpLink<'a, R> {
    stream: TcpStream,
    timer: &'a R,
    /// How many seconds the peer may be silent.
    silence_s: u64,
    /// The others of its port, where it was accepted.
    crowd: Option<&'a Crowd>,
    /// Whether nothing was read since it was accepted or last written to.
    is_between: bool,
    /// How long reads have waited since the last write.
    read_wait: Duration,
    /// How long writes have waited since the last read.
    write_wait: Duration,
    /// When all calls have to have ended, where that is limited.
    deadline: Option<Deadline>,
    pub(crate) read_faults: u64,
    pub(crate) write_faults: u64,
}

impl<'a, R: Timer> TcpLink<'a, R> {
    /// A link over this connection, which no longer waits to fill a packet (TCP_NODELAY), and whose peer may be silent for
    /// so many seconds; of a port whose others are `crowd`. Fails where the system refuses that.
    pub fn new(
        stream: TcpStream,
        timer: &'a R,
        silence_s: u64,
        crowd: Option<&'a Crowd>,
    ) -> io::Result<TcpLink<'a, R>>
        ensures { IfOk result (λ link. (link.read_faults ≡ 0) × (link.write_faults ≡ 0)) }
    {
        stream.set_nodelay(true)?;
        stream.set_read_timeout(Some(Duration::from_secs(LOOK_S)))?;
        stream.set_write_timeout(Some(Duration::from_secs(LOOK_S)))?;
        Ok(TcpLink {
            stream,
            timer,
            silence_s,
            crowd,
            is_between: true,
            read_wait: Duration::ZERO,
            write_wait: Duration::ZERO,
            deadline: None,
            read_faults: 0,
            write_faults: 0,
        })
    }

    /// All calls from now on have to end by then.
    pub(crate) fn end_by(&mut self, deadline: Deadline)
        ensures { (self.new.read_faults ≡ self.old.read_faults) × (self.new.write_faults ≡ self.old.write_faults) }
    {
        self.deadline = Some(deadline);
    }

    /// How long its calls may wait.
    fn patience(&self, is_between: bool) -> Patience<'a, R> {
        Patience {
            timer: self.timer,
            silence_s: self.silence_s,
            crowd: self.crowd,
            is_between,
            deadline: self.deadline,
        }
    }

    /// How many reads have failed so far.
    pub fn read_fault_count(&self) -> u64
        ensures { result ≡ self.now.read_faults }
    {
        self.read_faults
    }

    /// How many writes have failed so far.
    pub fn write_fault_count(&self) -> u64
        ensures { result ≡ self.now.write_faults }
    {
        self.write_faults
    }

    /// Ends the connection so that its peer sees all that was written. A connection that is closed over bytes that nobody
    /// read is reset, and the peer's system then drops what it still held: so writing ends first, and what the peer sends
    /// until it ends too is read and dropped, for `LINGER_S` seconds and `LEFTOVER` bytes at most. A link of which a call
    /// failed is closed at once.
    pub(crate) fn hang_up(mut self) {
        if self.read_faults > 0 || self.write_faults > 0 {
            return;
        }
        let Ok(begun) = Instant::now(self.timer) else {
            return;
        };
        if self.stream.shutdown(Shutdown::Write).is_err() {
            return;
        }
        let mut piece = [0u8; PIECE];
        let mut dropped = 0;
        for _ in 0..LEFTOVER {
            let Ok(gone) = begun.elapsed(self.timer) else {
                return;
            };
            let left = Duration::from_secs(LINGER_S).saturating_sub(gone);
            // No time left is refused.
            if self.stream.set_read_timeout(Some(left)).is_err() {
                return;
            }
            let Ok(count) = read_some(&mut self.stream, &mut piece) else {
                return;
            };
            dropped = count.saturating_add(dropped);
            if count == 0 || dropped >= LEFTOVER {
                return;
            }
        }
    }
}

/// How long calls on a link may wait for its peer.
#[derive(Clone, Copy, Drop)]
struct Patience<'a, R> {
    timer: &'a R,
    silence_s: u64,
    crowd: Option<&'a Crowd>,
    /// Whether the call is a read between requests.
    is_between: bool,
    deadline: Option<Deadline>,
}

impl<'a, R: Timer> Patience<'a, R> {
    /// Lets the stream wait until the deadline, where there is one, or the next look before it. Fails where the time is up.
    fn limit(&self, stream: &TcpStream) -> io::Result<()> {
        let Some(deadline) = &self.deadline else {
            return Ok(());
        };
        let left = deadline.left(self.timer);
        let look = Some(left.min(Duration::from_secs(LOOK_S)));
        // No time left is refused.
        stream.set_read_timeout(look)?;
        stream.set_write_timeout(look)
    }

    /// Whether a call that has waited so may wait on.
    fn is_left(&self, wait: &WaitTime) -> bool {
        wait.is_left(self.timer, self.silence_s) && !self.gives_way(wait)
    }

    /// Whether it ends for others: the port is closed, or somebody waits at its door in vain while this link is idle.
    fn gives_way(&self, wait: &WaitTime) -> bool {
        let Some(crowd) = self.crowd else {
            return false;
        };
        crowd.is_closed()
            || (self.is_between && wait.has_lasted(self.timer, IDLE_S) && crowd.keeps_waiting())
    }

    /// A read that waits as long as it may, and adds to how long reads have waited.
    fn read(
        &self,
        waited: &mut Duration,
        stream: &mut TcpStream,
        buf: &mut [u8],
    ) -> io::Result<usize>
        ensures { ReadsAtMost result buf.new }
    {
        let wait = WaitTime::new(self.timer, *waited)?;
        for _ in 0..u64::MAX {
            self.limit(stream)?;
            match read_some(stream, buf) {
                Err(fault) if fault.kind() == ErrorKind::WouldBlock && self.is_left(&wait) => {}
                read => {
                    *waited = wait.total(self.timer);
                    return read;
                }
            }
        }
        Err(io::Error::from(ErrorKind::TimedOut))
    }

    /// A write that waits as long as it may, and adds to how long writes have waited.
    fn write(
        &self,
        waited: &mut Duration,
        stream: &mut TcpStream,
        piece: &[u8],
    ) -> io::Result<usize>
        ensures { WritesAtMost result piece.now }
    {
        let wait = WaitTime::new(self.timer, *waited)?;
        for _ in 0..u64::MAX {
            self.limit(stream)?;
            match write_some(stream, piece) {
                Err(fault) if fault.kind() == ErrorKind::WouldBlock && self.is_left(&wait) => {}
                written => {
                    *waited = wait.total(self.timer);
                    return written;
                }
            }
        }
        Err(io::Error::from(ErrorKind::TimedOut))
    }
}

impl<'a, R: Timer> Link for TcpLink<'a, R> {
    ghost left = { λ s. None };

    ghost taken = { λ s. None };

    ghost held = { λ s. None };

    ghost read_faults = { λ s. s.read_faults };

    ghost write_faults = { λ s. s.write_faults };

    fn read(&mut self, buf: &mut [u8]) -> Result<usize, Failed> {
        let patience = self.patience(self.is_between);
        match patience.read(&mut self.read_wait, &mut self.stream, buf) {
            Ok(count) => {
                self.write_wait = Duration::ZERO;
                self.is_between = false;
                Ok(count)
            }
            Err(_) => {
                self.read_faults = self.read_faults.saturating_add(1);
                Err(Failed)
            }
        }
    }

    fn write(&mut self, piece: &[u8]) -> Result<usize, Failed> {
        let patience = self.patience(false);
        let written = patience.write(&mut self.write_wait, &mut self.stream, piece);
        if let Ok(count) = written
            && count > 0
        {
            self.read_wait = Duration::ZERO;
            self.is_between = true;
            return Ok(count);
        }
        self.write_faults = self.write_faults.saturating_add(1);
        Err(Failed)
    }

    fn within(&mut self, ms: u32) {
        self.end_by(Deadline::after(self.timer, ms));
    }
}
