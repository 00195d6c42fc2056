// Checking the document of a file.
ghost use Rattle.std.specs.Prelude.{◌≡◌, ◌≢◌, ◌≤◌, ◌++◌, option_copied, IfOk};
ghost use Rattle.ob_io.specs.Faults.{Rose};
ghost use Rattle.ob_xml.specs.declared.doc.Doc.{Doc};
ghost use Rattle.ob_program.specs.Check.{printed, ChecksFile, HasFault, CheckRan};
ghost use Rattle.ob_program.specs.Telling.{errors_told};

use crate::document::{DocumentFault, read_file};
use crate::exit::Exit;
use crate::telling::tell;
use crate::words::{file_words, refusal_words};
use ob_io::{Files, RefusedFile, Sink, write_all};
use ob_xml::{Doc, Refused, encode};
use std::alloc::{AllocError, Global};

/// How a check ends.
#[derive(Clone, Copy, PartialEq, Eq)]
pub(crate) enum CheckEnd {
    /// The canonical document was written.
    Printed,
    /// The file's bytes are no document.
    Refused(Refused),
    ReadFault,
    WriteFault,
    Memory,
}

impl CheckEnd {
    ghost use Rattle.ob_program.specs.Check.{exit_of_check};
    ghost use Rattle.ob_program.specs.Words.{check_words};

    /// The exit that it leads to.
    fn exit(&self) -> Exit
        ensures { result ≡ exit_of_check self.now }
    {
        match self {
            CheckEnd::Printed => Exit::Ok,
            CheckEnd::Refused(_) => Exit::Refused,
            CheckEnd::ReadFault => Exit::ReadFault,
            CheckEnd::WriteFault => Exit::WriteFault,
            CheckEnd::Memory => Exit::Memory,
        }
    }

    /// The words that tell it on `errors`, where its line has some. This file could not be read last.
    fn words(&self, alloc: Global, unread: Option<&RefusedFile>) -> Result<Vec<u8>, AllocError>
        ensures { IfOk result (λ words. words.items ≡ check_words (option_copied unread.entry) self.now) }
    {
        match self {
            CheckEnd::Refused(refused) => refusal_words(alloc, *refused),
            CheckEnd::ReadFault => file_words(alloc, unread),
            CheckEnd::Printed | CheckEnd::WriteFault | CheckEnd::Memory => Ok(Vec::new(alloc)),
        }
    }
}

/// What isn't needed any more.
fn let_go<T: Drop>(_printed: T) {}

/// The canonical text of a document, and a line feed.
fn print(alloc: Global, doc: Doc) -> Result<Vec<u8>, AllocError>
    ensures { IfOk result (λ text. text.items ≡ printed doc) }
{
    let encoded = encode(alloc, doc.ns.as_ref(), &doc.root);
    let_go(doc);
    let mut text = encoded?;
    text.extend_from_slice(b"\n")?;
    Ok(text)
}

/// Writes the canonical text of a file's document and a line feed.
fn check<F: Files, K: Sink>(alloc: Global, name: &str, files: &mut F, sink: &mut K) -> CheckEnd
    ensures checks { ChecksFile (F.content files.old name.now) (K.held sink.old) (K.held sink.new) result }
    ensures judged { HasFault (F.content files.old name.now) result }
    ensures read_fault { result ≡ CheckEnd.ReadFault → Rose (F.faults files.old) (F.faults files.new) }
    ensures write_fault { result ≡ CheckEnd.WriteFault → Rose (K.faults sink.old) (K.faults sink.new) }
    ensures unwritten { result ≢ CheckEnd.Printed → result ≢ CheckEnd.WriteFault → sink.new ≡ sink.old }
{
    let doc = match read_file(alloc, name, files) {
        Ok(doc) => doc,
        Err(DocumentFault::Refused(refused)) => return CheckEnd::Refused(refused),
        Err(DocumentFault::Failed) => return CheckEnd::ReadFault,
        Err(DocumentFault::Memory) => return CheckEnd::Memory,
    };
    let Ok(text) = print(alloc, doc) else {
        return CheckEnd::Memory;
    };
    match write_all(sink, &text) {
        Ok(()) => CheckEnd::Printed,
        Err(_) => CheckEnd::WriteFault,
    }
}

/// Writes the canonical text of a file's document and a line feed, and tells on `errors` what went wrong.
pub(crate) fn run_check<F: Files, K: Sink, E: Sink>(
    alloc: Global,
    name: &str,
    files: &mut F,
    sink: &mut K,
    errors: &mut E,
) -> Exit
    ensures ran { CheckRan (F.content files.old name.now) (F.faults files.old) (F.faults files.new)
        (K.held sink.old) (K.held sink.new) (K.faults sink.old) (K.faults sink.new) (F.refused files.new)
        (errors_told (E.held errors.old) (E.faults errors.old)) (errors_told (E.held errors.new) (E.faults errors.new)) result }
    ensures refused { result ≡ Exit.Refused → sink.new ≡ sink.old }
{
    ob_xml::one_verdict();
    ob_documents::spelled();
    let end = check(alloc, name, files, sink);
    let exit = end.exit();
    let words = end.words(alloc, files.last_refused());
    tell(alloc, errors, exit, words);
    exit
}
