//! Dialers over TCP.
ghost use Rattle.std.specs.Prelude.{◌≡◌, ◌≤◌, IfOk, None, false, true};
ghost use Rattle.ob_io.specs.Faults.{Rose};

use crate::host::without_brackets;
use crate::link::TcpLink;
use crate::wait_time::{Deadline, TURN_S};
use ob_io::{Dialer, Failed};
use std::io;
use std::io::ErrorKind;
use std::net::{Net, TcpListener, TcpStream, ToSocketAddrs};
use std::rt::Clock as Timer;

/// Dials over TCP.
#[derive(Drop)]
pub struct TcpDialer<'a, R> {
    net: &'a R,
    rose: bool,
    faults: u64,
}

impl<'a, R: Net<Listener = TcpListener, Stream = TcpStream> + Timer> TcpDialer<'a, R> {
    /// A dialer that has not failed yet.
    pub fn new(net: &'a R) -> TcpDialer<'a, R>
        ensures net { result.net ≡ net.entry }
        ensures unused { (result.rose ≡ false) × (result.faults ≡ 0) }
    {
        TcpDialer {
            net,
            rose: false,
            faults: 0,
        }
    }

    /// How many calls have failed so far, as `faults` of its trait counts them.
    pub fn fault_count(&self) -> u64
        ensures { result ≡ self.now.faults }
    {
        self.faults
    }

    /// Whether the count of failed calls rose in the last call.
    pub fn has_risen(&self) -> bool
        ensures { result ≡ self.now.rose }
    {
        self.rose
    }

    /// A connection to a port of a host. The server may be silent for as long as a whole request may take it: it answers when
    /// it has a worker free.
    fn connect(&self, host: &str, port: u16) -> io::Result<TcpLink<'a, R>>
        ensures { IfOk result (λ link. (link.read_faults ≡ 0) × (link.write_faults ≡ 0)) }
    {
        match TcpStream::connect(self.net, (without_brackets(host), port)) {
            Ok(stream) => TcpLink::new(stream, self.net, TURN_S, None),
            Err(fault) => Err(fault),
        }
    }

    /// The same, where the dial and the calls on the link have to end by then. The system's own limits stand for the look-up of
    /// the host.
    fn connect_by(&self, host: &str, port: u16, deadline: Deadline) -> io::Result<TcpLink<'a, R>>
        ensures { IfOk result (λ link. (link.read_faults ≡ 0) × (link.write_faults ≡ 0)) }
    {
        let stream = self.reach(host, port, &deadline)?;
        let mut link = TcpLink::new(stream, self.net, TURN_S, None)?;
        link.end_by(deadline);
        Ok(link)
    }

    /// A stream to the first address of the host that answers. Each address has its share of the time that is left.
    fn reach(&self, host: &str, port: u16, deadline: &Deadline) -> io::Result<TcpStream> {
        let addresses = (without_brackets(host), port).to_socket_addrs(self.net)?;
        let mut untried = addresses.len() as u32;
        let mut last = io::Error::from(ErrorKind::NotFound);
        for address in addresses {
            let left = deadline.left(self.net);
            let share = left.checked_div(untried).unwrap_or(left);
            untried = untried.saturating_sub(1);
            match TcpStream::connect_timeout(self.net, &address, share) {
                Ok(stream) => return Ok(stream),
                Err(fault) => last = fault,
            }
        }
        Err(last)
    }

    /// Counts a dial that failed.
    fn fail(&mut self) -> Failed
        ensures later { self.old.faults ≤ self.new.faults }
        ensures rose { Rose self.old.faults self.new.faults × (self.new.rose ≡ true) }
    {
        self.rose = true;
        self.faults = self.faults.saturating_add(1);
        Failed
    }
}

impl<'a, R: Net<Listener = TcpListener, Stream = TcpStream> + Timer> Dialer for TcpDialer<'a, R> {
    type L = TcpLink<'a, R>;

    ghost faults = { λ s. s.faults };

    ghost rose = { λ s. s.rose };

    ghost dials = { λ s. None };

    ghost visits = { λ s. None };

    fn dial(&mut self, host: &str, port: u16) -> Result<TcpLink<'a, R>, Failed> {
        match self.connect(host, port) {
            Ok(link) => {
                self.rose = false;
                Ok(link)
            }
            Err(_) => Err(self.fail()),
        }
    }

    fn dial_within(&mut self, host: &str, port: u16, ms: u32) -> Result<TcpLink<'a, R>, Failed> {
        match self.connect_by(host, port, Deadline::after(self.net, ms)) {
            Ok(link) => {
                self.rose = false;
                Ok(link)
            }
            Err(_) => Err(self.fail()),
        }
    }

    fn back(&mut self, link: TcpLink<'a, R>) {
        self.rose = link.read_faults > 0 || link.write_faults > 0;
        if self.rose {
            self.faults = self.faults.saturating_add(1);
        }
    }
}
