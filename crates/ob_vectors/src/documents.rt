//! Documents: what each text is refused for and where, or the canonical text of what it spells.
use crate::spelled::push_object;
use ob_rows::{Row, Table};
use ob_xml::{Decoder, Doc, Refused};
use std::alloc::{AllocError, Global};

// The refusal of a decoder that refuses one more piece for the same, or else one at a place that no document has.
fn still(mut decoder: Decoder, refused: Refused) -> Refused {
    let again = decoder.feed(b"<obj/>");
    drop(decoder);
    match again {
        Err(other) if other == refused => refused,
        _ => Refused {
            at: u64::MAX,
            why: refused.why,
        },
    }
}

/// What a decoder answers to all pieces, and to one more where it refuses one of them.
pub(crate) fn read(alloc: Global, pieces: &[&[u8]]) -> Result<Doc, Refused> {
    let mut decoder = Decoder::new(alloc);
    for piece in pieces {
        if let Err(refused) = decoder.feed(piece) {
            return Err(still(decoder, refused));
        }
    }
    decoder.finish()
}

/// What a decoder answers to a text that comes in pieces of so many bytes, but of at least one.
pub(crate) fn read_by(alloc: Global, text: &[u8], size: usize) -> Result<Doc, Refused> {
    let mut decoder = Decoder::new(alloc);
    for piece in text.chunks(size.max(1)) {
        if let Err(refused) = decoder.feed(piece) {
            return Err(still(decoder, refused));
        }
    }
    decoder.finish()
}

/// Writes the refusal, or the canonical text of the document, behind `told`.
pub(crate) fn tell(
    alloc: Global,
    answer: Result<Doc, Refused>,
    told: &mut String,
) -> Result<(), AllocError> {
    match answer {
        Ok(doc) => push_object(alloc, doc.ns.as_ref(), &doc.root, told),
        Err(refused) => write!(told, "{refused}"),
    }
}

// What is told of a text that comes by single bytes.
fn told_by_bytes(alloc: Global, text: &[u8]) -> Result<String, AllocError> {
    let mut told = String::new(alloc);
    tell(alloc, read_by(alloc, text, 1), &mut told)?;
    Ok(told)
}

/// Rows of texts, each read whole and by single bytes, with its refusal or its canonical text.
#[derive(Drop)]
pub(crate) struct Documents;

impl Table for Documents {
    fn answer(&mut self, alloc: Global, asked: Row, told: &mut String) -> Result<(), AllocError> {
        tell(alloc, read(alloc, &[asked.bytes]), told)?;
        let by_bytes = told_by_bytes(alloc, asked.bytes)?;
        if by_bytes.as_str() == told.as_str() {
            Ok(())
        } else {
            write!(told, " and by single bytes {by_bytes}")
        }
    }
}
