//! Calls of the outside that fail.
use std::alloc::Global;

/// A part of the outside. Twins of the clock, doors and links are numbered from 0.
#[derive(Clone, Copy, PartialEq, Eq)]
pub(crate) enum Part {
    Files,
    Source,
    Sink,
    Errors,
    Clock,
    Twin(u64),
    Port,
    Door(u64),
    Dialer,
    /// The file of the record: the first call opens it, and each byte that is written counts as a call.
    Record,
    /// The file of a new record, in the same way.
    New,
    Link(u64),
}

/// Every part, of twins and doors the first three, of links the first four.
pub(crate) const PARTS: [Part; 19] = [
    Part::Files,
    Part::Source,
    Part::Sink,
    Part::Errors,
    Part::Clock,
    Part::Twin(0),
    Part::Twin(1),
    Part::Twin(2),
    Part::Port,
    Part::Door(0),
    Part::Door(1),
    Part::Door(2),
    Part::Dialer,
    Part::Record,
    Part::New,
    Part::Link(0),
    Part::Link(1),
    Part::Link(2),
    Part::Link(3),
];

/// A call that fails: of what part, and which of its calls, the first being 0.
#[derive(Clone, Copy)]
pub(crate) struct Failing {
    pub(crate) part: Part,
    pub(crate) call: u64,
}

impl Part {
    /// Its name.
    pub(crate) fn word(self) -> &'static str {
        match self {
            Part::Files => "files",
            Part::Source => "source",
            Part::Sink => "sink",
            Part::Errors => "errors",
            Part::Clock => "clock",
            Part::Twin(_) => "twin",
            Part::Port => "port",
            Part::Door(_) => "door",
            Part::Dialer => "dialer",
            Part::Record => "record",
            Part::New => "new",
            Part::Link(_) => "link",
        }
    }
}

/// The numbers of the calls of a part that fail.
pub(crate) fn plan(alloc: Global, failing: Option<Failing>, part: Part) -> Vec<u64> {
    let mut calls = Vec::new(alloc);
    if let Some(failing) = failing
        && failing.part == part
    {
        let _ = calls.push(failing.call);
    }
    calls
}

/// The numbers of the calls of the clock's twins that fail, those of the first twin last.
pub(crate) fn twin_plans(alloc: Global, failing: Option<Failing>) -> Vec<Vec<u64>> {
    let mut plans = Vec::new(alloc);
    for twin in [2, 1, 0] {
        let _ = plans.push(plan(alloc, failing, Part::Twin(twin)));
    }
    plans
}
