//! How runs went.
use crate::failing::{Failing, Part};
use ob_rows::push_bytes;
use std::alloc::AllocError;

/// What a fault of a link does to a run.
#[derive(Clone, Copy, PartialEq, Eq)]
pub(crate) enum LinkFaults {
    /// It ends it.
    End,
    /// It changes what is written to links, which come to doors.
    Cut,
    /// It changes what is shown, as does a dial that fails.
    Show,
}

/// How a run went: its status, what is told on standard error, what is written, what is written to links, and what the file of
/// a record has come to.
pub(crate) struct Ran {
    pub(crate) status: u8,
    pub(crate) line: Vec<u8>,
    pub(crate) output: Vec<u8>,
    pub(crate) links: Vec<u8>,
    pub(crate) record: Vec<u8>,
}

impl Drop for Ran {
    // By one call for each part.
    fn drop(self) {
        let Ran {
            status: _,
            line,
            output,
            links,
            record,
        } = self;
        drop(line);
        drop(output);
        drop(links);
        drop(record);
    }
}

// The output up to the number behind `served`.
fn unnumbered(output: &[u8]) -> &[u8] {
    let word = b"served ";
    match output.windows(7).position(|seven| seven == word.as_slice()) {
        Some(place) => output.get(..place).unwrap_or(output),
        None => output,
    }
}

impl Ran {
    /// Whether the two went alike.
    pub(crate) fn is(&self, other: &Ran) -> bool {
        self.status == other.status
            && self.line.as_slice() == other.line.as_slice()
            && self.output.as_slice() == other.output.as_slice()
            && self.links.as_slice() == other.links.as_slice()
            && self.record.as_slice() == other.record.as_slice()
    }

    // Whether it has a front of what the other one has written, the number behind `served` aside.
    fn is_front(&self, whole: &Ran) -> bool {
        unnumbered(&whole.output).starts_with(unnumbered(&self.output))
    }

    // Whether it has this status and line, and a front of what the other one has written.
    fn is_ended(&self, whole: &Ran, status: u8, line: &str) -> bool {
        self.status == status && self.line.as_slice() == line.as_bytes() && self.is_front(whole)
    }

    // The same, and a front of what the other one has written to links, unless there may be several at once.
    fn is_cut(&self, whole: &Ran, faults: LinkFaults, status: u8, line: &str) -> bool {
        self.is_ended(whole, status, line)
            && (faults == LinkFaults::Show || whole.links.starts_with(&self.links))
    }

    // The same of a file that can't be read, whose name stands in the line.
    fn is_unread(&self, whole: &Ran, faults: LinkFaults) -> bool {
        let (front, end) = ("obix: read fault: ", ": not allowed\n");
        self.status == 3
            && self.line.starts_with(front.as_bytes())
            && self.line.ends_with(end.as_bytes())
            && self.line.len() > front.len() + end.len()
            && self.is_front(whole)
            && (faults == LinkFaults::Show || whole.links.starts_with(&self.links))
    }

    // Whether it ended as the other one.
    fn is_ended_as(&self, whole: &Ran) -> bool {
        self.status == whole.status && self.line.as_slice() == whole.line.as_slice()
    }

    // Whether it went as the other one, but for what is told on standard error.
    fn is_untold(&self, whole: &Ran) -> bool {
        self.status == whole.status
            && self.output.as_slice() == whole.output.as_slice()
            && self.links.as_slice() == whole.links.as_slice()
            && whole.line.starts_with(&self.line)
    }

    // Whether it went as the other one, but for what is written to links.
    fn is_unanswered(&self, whole: &Ran) -> bool {
        self.status == whole.status
            && self.line.as_slice() == whole.line.as_slice()
            && self.output.as_slice() == whole.output.as_slice()
    }

    /// Whether this is how a run goes that otherwise goes so, where a call of a part of the outside fails: the status and
    /// the line are those of what failed, and what is written is a front. A link that comes to a door changes nothing but
    /// what is written to links, and standard error nothing but what is told there. A run that shows which links are broken
    /// ends as it does otherwise.
    pub(crate) fn is_broken(&self, whole: &Ran, failing: Failing, faults: LinkFaults) -> bool {
        match failing.part {
            Part::Files => self.is_unread(whole, faults),
            Part::Source => self.is_cut(whole, faults, 3, "obix: read fault\n"),
            Part::Sink => self.is_cut(whole, faults, 4, "obix: write fault\n"),
            Part::Errors => self.is_untold(whole),
            Part::Clock => self.is_cut(whole, faults, 10, "obix: clock fault\n"),
            Part::Twin(_) => self.is_ended(whole, 10, "obix: clock fault\n"),
            Part::Port => self.is_cut(whole, faults, 9, "obix: port fault: not allowed\n"),
            Part::Door(_) => self.is_ended(whole, 9, "obix: port fault\n"),
            Part::Record | Part::New => match failing.call {
                0 => self.is_cut(whole, faults, 14, "obix: record fault: locked\n"),
                _ => self.is_cut(whole, faults, 14, "obix: record fault: full\n"),
            },
            Part::Dialer | Part::Link(_) => match faults {
                LinkFaults::End => self.is_cut(whole, faults, 7, "obix: link fault\n"),
                LinkFaults::Cut => self.is_unanswered(whole),
                LinkFaults::Show => self.is_ended_as(whole),
            },
        }
    }

    /// Tells it: the status, the line behind a blank if there is one, ` / ` and the output, and behind ` / ` what was written
    /// to links, if anything was, and the file of a record, if there is one. An error only for want of memory.
    pub(crate) fn tell(&self, told: &mut String) -> Result<(), AllocError> {
        let status = self.status;
        write!(told, "{status}")?;
        if !self.line.is_empty() {
            told.push_str(" ")?;
        }
        push_bytes(told, &self.line)?;
        told.push_str(" / ")?;
        push_bytes(told, &self.output)?;
        if !self.links.is_empty() {
            told.push_str(" / ")?;
        }
        push_bytes(told, &self.links)?;
        if !self.record.is_empty() {
            told.push_str(" / ")?;
        }
        push_bytes(told, &self.record)
    }
}
