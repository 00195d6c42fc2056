//! Whole documents.
ghost use Rattle.std.specs.Prelude.{◌≡◌, ◌≢◌, ℕ, List, Option, Err, true, IfOk, IfErr};
ghost use Rattle.ob_object.specs.Object.{Object};
ghost use Rattle.ob_documents.specs.Spelling.{Spells};
ghost use Rattle.ob_xml.specs.declared.refused.Why.TheVariants.{Memory};
ghost use Rattle.ob_xml.specs.Decoding.{IsCause};

use crate::laws::{only, spelled};
use ob_xml::{Decoder, Doc, Refused, fault_stays, one_verdict};
use std::alloc::Global;

/// The refusal, after which what was read so far isn't needed.
fn refused<T: Drop>(_read: T, refused: Refused) -> Result<Doc, Refused>
    ensures { result ≡ Err refused }
{
    Err(refused)
}

/// The document that the bytes spell. Where they spell none, the first refused construct with its place and cause; want of
/// memory is told at the number of bytes.
///
/// It takes time in proportion to the bytes, times the logarithm of the number of siblings, and memory in proportion to the
/// object.
pub fn read(alloc: Global, text: &[u8]) -> Result<Doc, Refused>
    ensures spelled { IfOk result (λ doc. Spells text.now doc.ns doc.root) }
    ensures refused { IfErr result (λ r. IsCause text.now true r) }
    ensures unspelled { IfErr result (λ r. r.why ≢ Memory → (ns : Option (List ℕ)) (o : Object) → Spells text.now ns o → ⊥) }
{
    one_verdict();
    fault_stays();
    only();
    spelled();
    let mut decoder = Decoder::new(alloc);
    match decoder.feed(text) {
        Ok(()) => decoder.finish(),
        Err(fault) => refused(decoder, fault),
    }
}
