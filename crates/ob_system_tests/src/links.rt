//! Both ends of a link over loopback, in one thread; when a wait ends; what an error of `accept` is about; brackets.
use ob_io::{Cause, Dialer, Door, Link, Port, send};
use ob_system::{Crowd, Refusal, TcpDialer, TcpDoor, TcpLink, TcpPort, WaitTime, without_brackets};
use std::io;
use std::rt::Clock as Timer;
use std::time::{Duration, Instant};

/// Lets a port listen on loopback, and gives the number.
fn listen_somewhere<P: Port>(port: &mut P) -> Option<u16> {
    for free in 42_000..42_100 {
        if port.listen("127.0.0.1", free).is_ok() {
            return Some(free);
        }
    }
    None
}

/// Whether the next read of a link gives these bytes, which are 8 at most.
fn reads<L: Link>(link: &mut L, bytes: &[u8]) -> bool {
    let mut piece = [0u8; 8];
    let Ok(length) = link.read(&mut piece) else {
        return false;
    };
    match piece.get(..length) {
        Some(read) => read == bytes,
        None => false,
    }
}

/// Whether a door takes a link back in less than a minute: it waits two seconds for what the peer still sends.
fn takes_back<D: Door>(rt: &HostRuntime, door: &mut D, link: D::L) -> bool {
    let begun = Instant::now(rt);
    door.back(link);
    let Ok(begun) = begun else {
        return false;
    };
    match begun.elapsed(rt) {
        Ok(gone) => gone.as_secs() < 60,
        Err(_) => false,
    }
}

/// Whether an answer over bytes that weren't read comes whole, and the end behind it, though the near end stays open.
fn answers<D: Door>(rt: &HostRuntime, door: &mut D, mut far: D::L, near: &mut D::L) -> bool {
    let are_sent = send(near, b"more").is_ok() && send(&mut far, b"pong").is_ok();
    let is_back = takes_back(rt, door, far);
    are_sent && is_back && reads(near, b"pong") && reads(near, b"")
}

/// Whether what the near end writes is what the door's end reads, and so back.
fn carries<D: Door>(rt: &HostRuntime, door: &mut D, near: &mut D::L) -> bool {
    let Ok(Some(mut far)) = door.accept() else {
        return false;
    };
    let is_carried = send(near, b"ping").is_ok() && reads(&mut far, b"ping");
    let is_answered = answers(rt, door, far, near);
    is_carried && is_answered
}

/// Whether a link that is dialled carries bytes to a door.
fn dials<'a>(
    rt: &'a HostRuntime,
    door: &mut TcpDoor<'a, HostRuntime>,
    dialer: &mut TcpDialer<'a, HostRuntime>,
    number: u16,
) -> bool {
    let Ok(mut near) = dialer.dial("127.0.0.1", number) else {
        return false;
    };
    let is_carried = carries(rt, door, &mut near);
    dialer.back(near);
    is_carried
}

/// Whether a link to a port that listens carries bytes.
fn opens<'a>(
    rt: &'a HostRuntime,
    port: &mut TcpPort<'a, HostRuntime>,
    dialer: &mut TcpDialer<'a, HostRuntime>,
    number: u16,
) -> bool {
    let Ok(mut door) = port.door() else {
        return false;
    };
    let is_carried = dials(rt, &mut door, dialer, number);
    port.back(door);
    is_carried
}

/// Whether both ends of a link read what the other one writes, and nothing is a fault.
fn ends_meet<'a>(rt: &'a HostRuntime, crowd: &'a Crowd) -> bool {
    let mut port = TcpPort::new(rt, crowd);
    let mut dialer = TcpDialer::new(rt);
    let is_carried = match listen_somewhere(&mut port) {
        Some(number) => opens(rt, &mut port, &mut dialer, number),
        None => false,
    };
    is_carried && (dialer.has_risen(), dialer.fault_count(), port.fault_count()) == (false, 0, 0)
}

#[test]
fn what_one_end_writes_the_other_reads(rt: HostRuntime) {
    let crowd = Crowd::new();
    assert!(rt;
        ends_meet(&rt, &crowd),
        "or no port from 42000 to 42099 is free"
    );
}

/// Whether the door's end is closed over a byte that it didn't read, so that its system resets the connection.
fn resets<'a>(door: &mut TcpDoor<'a, HostRuntime>, near: &mut TcpLink<'a, HostRuntime>) -> bool {
    let Ok(Some(far)) = door.accept() else {
        return false;
    };
    let is_sent = send(near, b"p").is_ok();
    drop(far);
    is_sent
}

/// Whether each call on a link whose peer is gone is a fault.
fn counts_faults(near: &mut TcpLink<'_, HostRuntime>) -> bool {
    let mut piece = [0u8; 8];
    near.read(&mut piece).is_err()
        && (near.read_fault_count(), near.write_fault_count()) == (1, 0)
        && near.write(b"p").is_err()
        && (near.read_fault_count(), near.write_fault_count()) == (1, 1)
}

/// Whether a dialer counts a link whose peer is gone.
fn is_reset<'a>(
    door: &mut TcpDoor<'a, HostRuntime>,
    dialer: &mut TcpDialer<'a, HostRuntime>,
    number: u16,
) -> bool {
    let Ok(mut near) = dialer.dial("127.0.0.1", number) else {
        return false;
    };
    let is_counted = resets(door, &mut near) && counts_faults(&mut near);
    dialer.back(near);
    is_counted && (dialer.has_risen(), dialer.fault_count()) == (true, 1)
}

/// Whether a port that another one has is a fault, and a door of a port that doesn't listen.
fn is_taken(rt: &HostRuntime, number: u16) -> bool {
    let crowd = Crowd::new();
    let mut second = TcpPort::new(rt, &crowd);
    second.listen("127.0.0.1", number).is_err()
        && second.last_cause() == Cause::InUse
        && second.door().is_err()
        && second.last_cause() == Cause::Untold
        && second.listen("192.0.2.1", number).is_err()
        && second.last_cause() == Cause::NotHere
        && second.fault_count() == 3
}

/// Whether links to a door are counted that are reset, and the port is another one's.
fn counts_resets<'a>(
    rt: &'a HostRuntime,
    port: &mut TcpPort<'a, HostRuntime>,
    dialer: &mut TcpDialer<'a, HostRuntime>,
    number: u16,
) -> bool {
    let Ok(mut door) = port.door() else {
        return false;
    };
    is_reset(&mut door, dialer, number) && is_taken(rt, number)
}

/// The number of a port at which nobody listens any more, where what went before was counted.
fn listened_at<'a>(
    rt: &'a HostRuntime,
    crowd: &'a Crowd,
    dialer: &mut TcpDialer<'a, HostRuntime>,
) -> Option<u16> {
    let mut port = TcpPort::new(rt, crowd);
    let number = listen_somewhere(&mut port)?;
    if counts_resets(rt, &mut port, dialer, number) {
        return Some(number);
    }
    None
}

#[test]
fn faults_are_counted(rt: HostRuntime) {
    let crowd = Crowd::new();
    let mut dialer = TcpDialer::new(&rt);
    let Some(number) = listened_at(&rt, &crowd, &mut dialer) else {
        panic!(rt; "not counted, or no port from 42000 to 42099 is free")
    };
    assert!(rt; dialer.dial("127.0.0.1", number).is_err());
    assert!(rt; (dialer.has_risen(), dialer.fault_count()) == (true, 2));
    assert!(rt; dialer.dial("[::1", number).is_err());
}

/// Whether a read of a link that a door handed out is a fault within a quarter of a minute, though its peer may be silent for
/// longer.
fn gives_way(rt: &HostRuntime, far: &mut TcpLink<'_, HostRuntime>) -> bool {
    let begun = Instant::now(rt);
    let mut piece = [0u8; 8];
    let is_fault = far.read(&mut piece).is_err() && far.read_fault_count() == 1;
    let Ok(begun) = begun else {
        return false;
    };
    match begun.elapsed(rt) {
        Ok(gone) => is_fault && gone.as_secs() < 15,
        Err(_) => false,
    }
}

/// Whether a link whose peer says nothing gives way to another one that waits at the door.
fn waits<'a>(
    rt: &'a HostRuntime,
    door: &mut TcpDoor<'a, HostRuntime>,
    dialer: &mut TcpDialer<'a, HostRuntime>,
    number: u16,
) -> bool {
    let Ok(silent) = dialer.dial("127.0.0.1", number) else {
        return false;
    };
    let Ok(Some(mut far)) = door.accept() else {
        return false;
    };
    let Ok(other) = dialer.dial("127.0.0.1", number) else {
        return false;
    };
    let gives_way = gives_way(rt, &mut far);
    drop(silent);
    drop(other);
    gives_way
}

/// Whether a call on a link whose peer says nothing is a fault by its deadline, each time that it gets one, and not before.
fn keeps_time(rt: &HostRuntime, near: &mut TcpLink<'_, HostRuntime>) -> bool {
    let begun = Instant::now(rt);
    let mut piece = [0u8; 8];
    let is_first = near.read(&mut piece).is_err() && near.read_fault_count() == 1;
    near.within(1_500);
    let is_second = near.read(&mut piece).is_err() && near.read_fault_count() == 2;
    let Ok(begun) = begun else {
        return false;
    };
    match begun.elapsed(rt) {
        Ok(gone) => is_first && is_second && gone.as_millis() >= 1_700 && gone.as_secs() < 15,
        Err(_) => false,
    }
}

/// Whether a link that was dialled with a limit of a fifth of a second keeps it, while its peer says nothing.
fn is_limited<'a>(
    rt: &'a HostRuntime,
    door: &mut TcpDoor<'a, HostRuntime>,
    dialer: &mut TcpDialer<'a, HostRuntime>,
    number: u16,
) -> bool {
    let Ok(mut near) = dialer.dial_within("127.0.0.1", number, 200) else {
        return false;
    };
    let Ok(Some(far)) = door.accept() else {
        return false;
    };
    let is_limited = keeps_time(rt, &mut near);
    drop(far);
    is_limited
}

/// Whether a port that is closed lets nobody in any more: its doors hand out nothing, and who dials is refused.
fn is_shut<'a>(
    port: &mut TcpPort<'a, HostRuntime>,
    door: &mut TcpDoor<'a, HostRuntime>,
    dialer: &mut TcpDialer<'a, HostRuntime>,
    number: u16,
) -> bool {
    let Ok(mut other) = port.door() else {
        return false;
    };
    door.close();
    matches!(&other.accept(), Ok(None))
        && matches!(&door.accept(), Ok(None))
        && dialer.dial("127.0.0.1", number).is_err()
}

/// Whether a port gives way, and is shut.
fn is_left<'a>(rt: &'a HostRuntime, crowd: &'a Crowd) -> bool {
    let mut port = TcpPort::new(rt, crowd);
    let mut dialer = TcpDialer::new(rt);
    let Some(number) = listen_somewhere(&mut port) else {
        return false;
    };
    let Ok(mut door) = port.door() else {
        return false;
    };
    let waits = waits(rt, &mut door, &mut dialer, number);
    let is_limited = is_limited(rt, &mut door, &mut dialer, number);
    waits && is_limited && is_shut(&mut port, &mut door, &mut dialer, number)
}

#[test]
fn links_end_in_time_and_a_closed_port_lets_nobody_in(rt: HostRuntime) {
    let crowd = Crowd::new();
    assert!(rt;
        is_left(&rt, &crowd),
        "or no port from 42000 to 42099 is free"
    );
}

/// A timer that stands still.
#[derive(Clone, Copy, Drop)]
struct At(u64);

impl Timer for At {
    fn monotonic(&self) -> io::Result<Duration> {
        Ok(Duration::from_secs(self.0))
    }

    fn since_1970(&self) -> io::Result<Duration> {
        Ok(Duration::from_secs(self.0))
    }
}

/// Whether a call ends after so many seconds, when calls before have waited `before` and the peer may be silent for `silence`.
fn ends_after(before: u16, silence: u16, end: u16) -> bool {
    let Ok(wait) = WaitTime::new(&At(1_000), Duration::from_secs(u64::from(before))) else {
        return false;
    };
    let (silence, end) = (u64::from(silence), 1_000 + u64::from(end));
    wait.is_left(&At(end - 1), silence)
        && !wait.is_left(&At(end), silence)
        && wait.total(&At(end)).as_secs() == u64::from(before) + end - 1_000
}

#[test]
fn a_wait_ends(rt: HostRuntime) {
    for (before, silence, end) in [
        (0, 75, 75),
        (225, 75, 75),
        (226, 75, 74),
        (299, 75, 1),
        (0, 300, 300),
    ] {
        assert!(rt; ends_after(before, silence, end), "after {before} s");
    }
    assert!(rt; WaitTime::new(&At(1_000), Duration::from_secs(300)).is_err());
}

/// Whether the error of this number is about that.
fn is_about(code: i32, about: Refusal) -> bool {
    Refusal::of(&io::Error::from_raw_os_error(code)) == about
}

#[test]
fn errors_of_accept_are_told_apart(rt: HostRuntime) {
    // EPROTO, ECONNABORTED, EMFILE, ENOBUFS, EBADF, EINVAL
    for (code, about) in [
        (71, Refusal::Connection),
        (103, Refusal::Connection),
        (24, Refusal::Room),
        (105, Refusal::Room),
        (9, Refusal::Door),
        (22, Refusal::Door),
    ] {
        assert!(rt; is_about(code, about), "{code}");
    }
}

#[test]
fn brackets_are_left_out(rt: HostRuntime) {
    for (host, bare) in [
        ("[::1]", "::1"),
        ("::1", "::1"),
        ("[::1", "[::1"),
        ("h", "h"),
        ("", ""),
    ] {
        assert!(rt; without_brackets(host) == bare, "{host}");
    }
}
