//! How a run ends.
ghost use Rattle.std.specs.Prelude.{◌≡◌};

/// How a run ends.
#[derive(Clone, Copy, PartialEq, Eq)]
pub enum Exit {
    Ok,
    /// The words are no command.
    Usage,
    /// The file's bytes are no document, or open no site.
    Refused,
    /// The file or the source could not be read.
    ReadFault,
    WriteFault,
    /// The source's bytes from a place on begin no request.
    Frame,
    /// The source ended inside a request.
    Truncated,
    /// A dial failed, or a call on the link that was given back last.
    LinkFault,
    /// A server's reply isn't one that the dialogue can go on with.
    Peer,
    /// The port could not listen or gave no door, or a door failed.
    PortFault,
    ClockFault,
    /// 2^40 bytes were taken from the source.
    Budget,
    Memory,
    /// A record isn't legal, and that was printed.
    Illegal,
    /// A record isn't legal from what the site file opens, so no site goes on from it.
    IllegalRecord,
    /// The record's file can't be opened, or a call of its device has failed.
    RecordFault,
}

impl Exit {
    ghost use Rattle.ob_program.specs.Exits.{status_of};

    /// The number that the program ends with.
    pub fn status(self) -> u8
        ensures { result ≡ status_of self }
    {
        match self {
            Exit::Ok => 0,
            Exit::Usage => 1,
            Exit::Refused => 2,
            Exit::ReadFault => 3,
            Exit::WriteFault => 4,
            Exit::Frame => 5,
            Exit::Truncated => 6,
            Exit::LinkFault => 7,
            Exit::Peer => 8,
            Exit::PortFault => 9,
            Exit::ClockFault => 10,
            Exit::Budget => 11,
            Exit::Memory => 12,
            Exit::Illegal => 13,
            Exit::IllegalRecord => 13,
            Exit::RecordFault => 14,
        }
    }
}
