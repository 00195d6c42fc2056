//! Objects and their texts.
use ob_encoding::encode;
use ob_object::Obj;
use ob_rows::push_bytes;
use ob_values::Text;
use ob_xml::Decoder;
use std::alloc::{AllocError, Global};

/// The object that a text is, if it is a document.
pub(crate) fn object(alloc: Global, said: &str) -> Option<Obj> {
    let mut decoder = Decoder::new(alloc);
    if decoder.feed(said.as_bytes()).is_err() {
        return None;
    }
    match decoder.finish() {
        Ok(doc) => {
            let (_, root) = doc.into_parts();
            Some(root)
        }
        Err(_) => None,
    }
}

/// Writes the canonical text of an object behind `told`.
pub(crate) fn push_object(
    alloc: Global,
    ns: Option<&Text>,
    object: &Obj,
    told: &mut String,
) -> Result<(), AllocError> {
    let bytes = encode(alloc, ns, object)?;
    push_bytes(told, bytes.as_slice())
}
