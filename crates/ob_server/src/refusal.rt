//! The bodies of answers that refuse.
ghost use Rattle.std.specs.Prelude.{◌≡◌, IfOk};
ghost use Rattle.ob_server.specs.Refusal.{refusal_body};
ghost use Rattle.ob_xml.specs.Words.{refusal_words};

use ob_xml::Refused;
use std::alloc::{AllocError, Global};

/// The body of the answer to a document that is refused.
pub(crate) fn document_refusal(alloc: Global, refused: Refused) -> Result<Vec<u8>, AllocError>
    ensures { IfOk result (λ text. text.items ≡ refusal_body (refusal_words refused)) }
{
    let words = refused.words(alloc)?;
    let mut text = Vec::new(alloc);
    text.extend_from_slice(b"refused: ")?;
    text.extend_from_slice(words.as_bytes())?;
    text.extend_from_slice(b"\n")?;
    Ok(text)
}
