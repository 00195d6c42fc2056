//! Doors over TCP.
ghost use Rattle.std.specs.Prelude.{◌≡◌, IfOk, IfSome, None};

use crate::crowd::Crowd;
use crate::link::TcpLink;
use crate::refusal::Refusal;
use crate::wait_time::SILENCE_S;
use ob_io::{Door, Failed};
use std::net::TcpListener;
use std::rt::Clock as Timer;
use std::thread;
use std::time::Duration;

/// A door on a place that a port listens on. Where one door is closed, so are all of its port. A connection that broke before it
/// was accepted is passed over, and where the system has no room for one more the door waits until it has.
#[derive(Drop)]
pub struct TcpDoor<'a, R> {
    listener: TcpListener,
    timer: &'a R,
    crowd: &'a Crowd,
    is_closed: bool,
    pub(crate) handed: u64,
    pub(crate) returned: u64,
    pub(crate) faults: u64,
}

impl<'a, R: Timer> TcpDoor<'a, R> {
    /// A door that has not failed, has handed out no link and has none back.
    pub fn new(listener: TcpListener, timer: &'a R, crowd: &'a Crowd) -> TcpDoor<'a, R>
        ensures { (result.handed ≡ 0) × (result.returned ≡ 0) × (result.faults ≡ 0) }
    {
        TcpDoor {
            listener,
            timer,
            crowd,
            is_closed: false,
            handed: 0,
            returned: 0,
            faults: 0,
        }
    }

    /// The next connection that stands, or none where the port is closed.
    fn next(&self) -> Result<Option<TcpLink<'a, R>>, Failed>
        ensures { IfOk result (λ next. IfSome next (λ link. (link.read_faults ≡ 0) × (link.write_faults ≡ 0))) }
    {
        for _ in 0..u64::MAX {
            let accepted = self.listener.accept();
            if self.crowd.is_closed() {
                return Ok(None);
            }
            match accepted {
                Ok((stream, _)) => {
                    let crowd = Some(self.crowd);
                    if let Ok(link) = TcpLink::new(stream, self.timer, SILENCE_S, crowd) {
                        return Ok(Some(link));
                    }
                }
                Err(fault) => match Refusal::of(&fault) {
                    Refusal::Connection => {}
                    Refusal::Room => thread::sleep(self.timer, Duration::from_millis(PAUSE_MS)),
                    Refusal::Door => return Err(Failed),
                },
            }
        }
        Err(Failed)
    }
}

/// After how many milliseconds a door that found no room for one more connection looks again.
const PAUSE_MS: u64 = 100;

impl<'a, R: Timer> Door for TcpDoor<'a, R> {
    type L = TcpLink<'a, R>;

    ghost faults = { λ s. s.faults };

    ghost handed = { λ s. s.handed };

    ghost returned = { λ s. s.returned };

    ghost is_closed = { λ s. s.is_closed };

    ghost visits = { λ s. None };

    fn accept(&mut self) -> Result<Option<TcpLink<'a, R>>, Failed> {
        self.crowd.come();
        let next = self.next();
        self.crowd.go();
        match next {
            Ok(Some(link)) => {
                self.handed = self.handed.saturating_add(1);
                Ok(Some(link))
            }
            Ok(None) => {
                self.is_closed = true;
                Ok(None)
            }
            Err(Failed) => {
                self.faults = self.faults.saturating_add(1);
                Err(Failed)
            }
        }
    }

    fn back(&mut self, link: TcpLink<'a, R>) {
        link.hang_up();
        self.returned = self.returned.saturating_add(1);
    }

    fn close(&mut self) {
        self.is_closed = true;
        self.crowd.close();
    }
}
