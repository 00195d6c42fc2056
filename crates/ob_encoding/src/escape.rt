//! Text between the quotes of an attribute.
ghost use Rattle.std.specs.Prelude.{◌≡◌, ◌++◌, OnOk, MatchOption, ◌∷◌, []};
ghost use Rattle.ob_encoding.specs.Escaped.{escape, escaped};
ghost use Rattle.ob_encoding.specs.Written.{IsFront};

use std::alloc::AllocError;

/// Appends bytes, or leaves the buffer as it is.
pub(crate) fn append(bytes: &[u8], out: &mut Vec<u8>) -> Result<(), AllocError>
    ensures written { OnOk result (out.new.items ≡ out.old.items ++ bytes.now) }
    ensures front { IsFront out.old.items out.new.items }
{
    out.extend_from_slice(bytes)
}

/// The reference for a byte that can't stand between quotes, or that a reader would take for a space.
fn reference_for(byte: u8) -> Option<&'static [u8]>
    ensures { MatchOption result (escape byte ≡ byte ∷ []) (λ reference. escape byte ≡ reference.now) }
{
    match byte {
        b'&' => Some(b"&amp;"),
        b'<' => Some(b"&lt;"),
        b'"' => Some(b"&quot;"),
        b'\t' => Some(b"&#9;"),
        b'\n' => Some(b"&#10;"),
        b'\r' => Some(b"&#13;"),
        _ => None,
    }
}

/// Appends a text with its references: runs of bytes that stand for themselves are copied whole.
pub(crate) fn append_escaped(text: &[u8], out: &mut Vec<u8>) -> Result<(), AllocError>
    ensures written { OnOk result (out.new.items ≡ out.old.items ++ escaped text.now) }
    ensures front { IsFront out.old.items out.new.items }
{
    let mut start = 0;
    for (i, byte) in text.iter().enumerate() {
        if let Some(reference) = reference_for(*byte) {
            append(&text[start..i], out)?;
            append(reference, out)?;
            start = i + 1;
        }
    }
    append(&text[start..], out)
}
