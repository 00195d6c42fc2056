//! The document that a file holds.
ghost use Rattle.std.specs.Prelude.{◌≡◌, ℕ, List, take, IfOk, IfErr, IfSome};
ghost use Rattle.ob_documents.specs.Spelling.{Spells};
ghost use Rattle.ob_site.specs.Between.{IsShallow};
ghost use Rattle.ob_load.specs.Causes.{HasLoadCause};
ghost use Rattle.ob_load.specs.Loads.{IsOutside, IsUnspelled};

use ob_documents::{carried, read};
use ob_io::{FileFault, Files};
use ob_site_file::LoadFault;
use ob_xml::{Doc, Why};
use std::alloc::Global;

/// One byte more than a document may have, so that a longer file is told apart.
const MOST: u64 = 16_777_217;

/// The bytes of the file of a name.
pub(crate) fn read_bytes<F: Files>(
    alloc: Global,
    files: &mut F,
    name: &str,
) -> Result<Vec<u8>, LoadFault>
    ensures same { (n : List ℕ) → F.content files.new n ≡ F.content files.old n }
    ensures cause { HasLoadCause (F.faults files.old) (F.faults files.new) result }
    ensures bytes { IfOk result (λ bytes. IfSome (F.content files.old name.now) (λ whole. bytes.items ≡ take 16_777_217 whole)) }
    ensures outside { IfErr result IsOutside }
{
    match files.read_file(alloc, name, MOST) {
        Ok(bytes) => Ok(bytes),
        Err(FileFault::Failed) => Err(LoadFault::Read),
        Err(FileFault::Memory) => Err(LoadFault::Memory),
    }
}

/// The document that bytes spell. It has at most 32 levels.
pub(crate) fn document(alloc: Global, bytes: &[u8]) -> Result<Doc, LoadFault>
    ensures spelled { IfOk result (λ doc. Spells bytes.now doc.ns doc.root) }
    ensures shallow { IfOk result (λ doc. IsShallow doc.root) }
    ensures unspelled { IfErr result (IsUnspelled bytes.now) }
{
    carried();
    match read(alloc, bytes) {
        Ok(doc) => Ok(doc),
        Err(refused) => match refused.why {
            Why::Memory => Err(LoadFault::Memory),
            _ => Err(LoadFault::Document(refused)),
        },
    }
}
