//! Ports over TCP.
ghost use Rattle.std.specs.Prelude.{◌≡◌, IfSome, None};

use crate::cause::cause_of;
use crate::crowd::Crowd;
use crate::door::TcpDoor;
use crate::host::without_brackets;
use ob_io::{Cause, Failed, Port};
use std::net::{Net, TcpListener, TcpStream};
use std::os::fd::AsRawFd;
use std::rt::Clock as Timer;

/// A port of this machine.
#[derive(Drop)]
pub struct TcpPort<'a, R> {
    net: &'a R,
    crowd: &'a Crowd,
    listener: Option<TcpListener>,
    opened: u64,
    returned: u64,
    faults: u64,
    refusal: Cause,
}

impl<'a, R: Net<Listener = TcpListener, Stream = TcpStream> + Timer> TcpPort<'a, R> {
    /// A port that doesn't listen yet and has not failed, whose doors and links know of each other by `crowd`.
    pub fn new(net: &'a R, crowd: &'a Crowd) -> TcpPort<'a, R>
        ensures net { result.net ≡ net.entry }
        ensures unused { (result.opened ≡ 0) × (result.returned ≡ 0) × (result.faults ≡ 0) }
    {
        TcpPort {
            net,
            crowd,
            listener: None,
            opened: 0,
            returned: 0,
            faults: 0,
            refusal: Cause::Untold,
        }
    }

    /// How many calls have failed so far, as `faults` of its trait counts them.
    pub fn fault_count(&self) -> u64
        ensures { result ≡ self.now.faults }
    {
        self.faults
    }

    /// A door on the place that it listens on.
    fn open(&self) -> Option<TcpDoor<'a, R>>
        ensures { IfSome result (λ door. (door.handed ≡ 0) × (door.returned ≡ 0) × (door.faults ≡ 0)) }
    {
        let Some(listener) = &self.listener else {
            return None;
        };
        match listener.try_clone() {
            Ok(listener) => Some(TcpDoor::new(listener, self.net, self.crowd)),
            Err(_) => None,
        }
    }
}

impl<'a, R: Net<Listener = TcpListener, Stream = TcpStream> + Timer + Sync> Port
    for TcpPort<'a, R> {
    type D = TcpDoor<'a, R>;

    ghost faults = { λ s. s.faults };

    ghost refusal = { λ s. s.refusal };

    ghost opened = { λ s. s.opened };

    ghost returned = { λ s. s.returned };

    ghost listens = { λ s. None };

    ghost doors = { λ s. None };

    fn listen(&mut self, host: &str, port: u16) -> Result<(), Failed> {
        match TcpListener::bind(self.net, (without_brackets(host), port)) {
            Ok(listener) => {
                self.crowd.listen_on(listener.as_raw_fd());
                self.listener = Some(listener);
                Ok(())
            }
            Err(fault) => {
                self.faults = self.faults.saturating_add(1);
                self.refusal = cause_of(fault.kind(), Cause::Untold, Cause::Untold);
                Err(Failed)
            }
        }
    }

    fn last_cause(&self) -> Cause {
        self.refusal
    }

    fn door(&mut self) -> Result<TcpDoor<'a, R>, Failed> {
        match self.open() {
            Some(door) => {
                self.opened = self.opened.saturating_add(1);
                Ok(door)
            }
            None => {
                self.faults = self.faults.saturating_add(1);
                self.refusal = Cause::Untold;
                Err(Failed)
            }
        }
    }

    fn back(&mut self, door: TcpDoor<'a, R>) {
        self.returned = self.returned.saturating_add(1);
        if door.faults > 0 {
            self.faults = self.faults.saturating_add(1);
            self.refusal = Cause::Untold;
        }
    }
}
