//! The ends of a command that reads a file of a form of its own.
ghost use Rattle.std.specs.Prelude.{◌≡◌, option_copied, IfOk};

use crate::document::DocumentFault;
use crate::exit::Exit;
use crate::stdio::StdioEnd;
use crate::words::{offence_words, refusal_words};
use ob_io::RefusedFile;
use ob_parts::Offence;
use ob_schedule::ScheduleRule;
use ob_super::ConfigRule;
use ob_xml::Refused;
use std::alloc::{AllocError, Global};

/// How a command ended that reads a file of a form of its own, with what is printed of it.
#[derive(Drop)]
pub(crate) enum FormEnd {
    /// As `stdio` does.
    Stdio(StdioEnd),
    /// The file is no document.
    NoDocument(Refused),
    /// It is a document that is no config: its first part that offends, and the rule that it breaks.
    Config(Offence<ConfigRule>),
    /// It is a document that is no file of schedules.
    Schedule(Offence<ScheduleRule>),
}

impl FormEnd {
    ghost use Rattle.ob_program.specs.Form.{plain, end_of_document};
    ghost use Rattle.ob_program.specs.Stdio.{exit_of};
    ghost use Rattle.ob_program.specs.Words.{form_words};

    /// The end where the file gives no document.
    pub(crate) fn of_document(fault: DocumentFault) -> FormEnd
        ensures { result ≡ end_of_document fault }
    {
        match fault {
            DocumentFault::Refused(refused) => FormEnd::NoDocument(refused),
            DocumentFault::Failed => FormEnd::Stdio(StdioEnd::ReadFault),
            DocumentFault::Memory => FormEnd::Stdio(StdioEnd::Memory),
        }
    }

    /// The exit that it leads to.
    pub(crate) fn exit(&self) -> Exit
        ensures { result ≡ exit_of (plain self.now) }
    {
        match self {
            FormEnd::Stdio(end) => end.exit(),
            FormEnd::NoDocument(_) => Exit::Refused,
            FormEnd::Config(_) | FormEnd::Schedule(_) => Exit::Refused,
        }
    }

    /// The words that tell it on `errors`, where its line has some. This file could not be read last.
    pub(crate) fn words(
        &self,
        alloc: Global,
        refused: Option<&RefusedFile>,
    ) -> Result<Vec<u8>, AllocError>
        ensures { IfOk result (λ words. words.items ≡ form_words (option_copied refused.entry) self.now) }
    {
        match self {
            FormEnd::Stdio(end) => end.words(alloc, refused),
            FormEnd::NoDocument(refused) => refusal_words(alloc, *refused),
            FormEnd::Config(offence) => {
                offence_words(alloc, "Config", offence.part, offence.rule.word())
            }
            FormEnd::Schedule(offence) => {
                offence_words(alloc, "Schedule", offence.part, offence.rule.word())
            }
        }
    }
}
