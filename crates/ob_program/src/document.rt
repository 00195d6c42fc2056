// A document from the bytes of a file.
ghost use Rattle.std.specs.Prelude.{◌≢◌, ◌≤◌, ℕ, List, Err, IsErrOf};
ghost use Rattle.ob_io.specs.Faults.{Rose};
ghost use Rattle.ob_program.specs.Reading.{IsCauseOf, Reads, ReadsFile};

use ob_io::{FileFault, Files};
use ob_xml::{Decoder, Doc, Refused, Why};
use std::alloc::Global;

/// Why no document was read.
#[derive(Clone, Copy, PartialEq, Eq)]
pub enum DocumentFault {
    /// The bytes are none.
    Refused(Refused),
    /// The file can't be read.
    Failed,
    Memory,
}

/// The most bytes that a document has.
const MAX_LEN: u64 = 16_777_216;

/// How many bytes are read of at once.
const PIECE: usize = 65_536;

/// What is told of a refusal.
fn fault_of(refused: Refused) -> DocumentFault
    ensures told { (bytes : List ℕ) → IsCauseOf bytes refused → Reads bytes (Err result) }
    ensures read { result ≢ DocumentFault.Failed }
{
    match refused.why {
        Why::Memory => DocumentFault::Memory,
        _ => DocumentFault::Refused(refused),
    }
}

/// The document that the bytes spell, or the first construct that is refused.
fn read_document(alloc: Global, bytes: &[u8]) -> Result<Doc, DocumentFault>
    ensures reads { Reads bytes.now result }
    ensures read { IsErrOf result DocumentFault.Failed → ⊥ }
{
    ob_xml::fault_stays();
    let mut decoder = Decoder::new(alloc);
    let mut rest = bytes;
    while !rest.is_empty() {
        let (piece, behind) = rest.split_at(rest.len().min(PIECE));
        if let Err(refused) = decoder.feed(piece) {
            return Err(fault_of(refused));
        }
        rest = behind;
    }
    match decoder.finish() {
        Ok(doc) => Ok(doc),
        Err(refused) => Err(fault_of(refused)),
    }
}

/// The document that a file holds.
pub fn read_file<F: Files>(alloc: Global, name: &str, files: &mut F) -> Result<Doc, DocumentFault>
    ensures reads { ReadsFile (F.content files.old name.now) result }
    ensures later { F.faults files.old ≤ F.faults files.new }
    ensures failed { IsErrOf result DocumentFault.Failed → Rose (F.faults files.old) (F.faults files.new) }
{
    match files.read_file(alloc, name, MAX_LEN + 1) {
        Ok(bytes) => read_document(alloc, &bytes),
        Err(FileFault::Failed) => Err(DocumentFault::Failed),
        Err(FileFault::Memory) => Err(DocumentFault::Memory),
    }
}
