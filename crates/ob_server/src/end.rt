//! Why a link's service ends.
use ob_http::FrameFault;

/// Why a link's service ended.
#[derive(Clone, Copy, PartialEq, Eq, Drop)]
pub enum LinkEnd {
    /// The link ended where a request does.
    Closed,
    /// A request asked for the end.
    Asked,
    /// The link ended inside a request.
    Truncated,
    /// What follows so many bytes was refused for this fault, which isn't Memory.
    BadFrame(FrameFault, u64),
    /// The link could not be read.
    ReadFault,
    /// The link could not be written.
    WriteFault,
    /// The clock told no moment.
    ClockFault,
    /// As many bytes were taken as one link may give: 1,099,511,627,776.
    Budget,
    /// There was no memory.
    Memory,
}

/// Why a request was not answered in full.
#[derive(Clone, Copy, Drop)]
pub enum Break {
    WriteFault,
    ClockFault,
    Memory,
}

/// Why no more requests are answered.
#[derive(Clone, Copy, Drop)]
pub enum Stop {
    Asked,
    BadFrame(FrameFault),
    Broke(Break),
}

/// Why no piece was read.
#[derive(Clone, Copy, Drop)]
pub enum Pause {
    Ended,
    ReadFault,
    Memory,
}
