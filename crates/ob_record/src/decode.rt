//! An entry from its parts: target and body are read.
ghost use Rattle.std.specs.Prelude.{◌≡◌, ◌++◌, true, false, IfOk, IfSome, IfNone, option_map};
ghost use Rattle.ob_values.specs.XmlText.{IsXmlText};
ghost use Rattle.ob_encoding.specs.Canonical.{canonical_text};
ghost use Rattle.std.specs.declared.option.Option.{Option};
ghost use Rattle.ob_object.specs.Object.{Object};
ghost use Rattle.ob_record.specs.declared.run.Entry.{Entry};
ghost use Rattle.ob_record.specs.Parts.{parts_of_slices, AreSmall};
ghost use Rattle.ob_record.specs.Runs.{body_text, reply_bytes, parts_of, entry_text, BeginsNone, IsBody, IsEntry};

use crate::parts::{Slices, take_parts};
use crate::run::{Entry, Told};
use ob_documents::{carried, one_document, read, text_spells};
use ob_encoding::encode;
use ob_object::Obj;
use ob_site_rules::Request;
use ob_times::Moment;
use ob_values::{Bytes, Text, TextFault};
use ob_xml::Why;
use std::alloc::{AllocError, Global};

/// The text of a target, or None where the bytes are none that XML can carry.
fn target_of(alloc: Global, bytes: &[u8]) -> Result<Option<Text>, AllocError>
    ensures found { IfOk result (λ found. IfSome found (λ text. (text ≡ bytes.now) × IsXmlText text)) }
    ensures none { IfOk result (λ found. IfNone found (IsXmlText bytes.now → ⊥)) }
{
    match Text::from_utf8(alloc, bytes) {
        Ok(text) => Ok(Some(text)),
        Err(TextFault::NotUtf8) => Ok(None),
        Err(TextFault::NotXmlChar { at: _ }) => Ok(None),
        Err(TextFault::Memory) => Err(AllocError),
    }
}

/// Whether the bytes are the canonical text of an object, without an xmlns.
fn is_canonical(alloc: Global, object: &Obj, bytes: &[u8]) -> Result<bool, AllocError>
    ensures yes { IfOk result (λ yes. yes ≡ true → bytes.now ≡ canonical_text None object.now) }
    ensures no { IfOk result (λ yes. yes ≡ false → bytes.now ≡ canonical_text None object.now → ⊥) }
{
    let text = encode(alloc, None, object)?;
    Ok(text.as_slice() == bytes)
}

/// The object, where the bytes are its canonical text, without an xmlns.
fn if_canonical(alloc: Global, object: Obj, bytes: &[u8]) -> Result<Option<Obj>, AllocError>
    ensures found { IfOk result (λ found. IfSome found (λ o. (o ≡ object) × (bytes.now ≡ canonical_text None o))) }
    ensures other { IfOk result (λ found. IfNone found (bytes.now ≡ canonical_text None object → ⊥)) }
{
    let canonical = is_canonical(alloc, &object, bytes)?;
    if canonical {
        return Ok(Some(object));
    }
    Ok(None)
}

/// The object whose canonical text the bytes are, or None where they are that of none.
fn object_of(alloc: Global, bytes: &[u8]) -> Result<Option<Obj>, AllocError>
    ensures found { IfOk result (λ found. IfSome found (λ o. IsBody (Some o) × (bytes.now ≡ canonical_text None o))) }
    ensures none { IfOk result (λ found. IfNone found ((o : Object) → IsBody (Some o) → bytes.now ≡ canonical_text None o → ⊥)) }
{
    carried();
    text_spells();
    one_document();
    match read(alloc, bytes) {
        Ok(doc) => {
            let parts = doc.into_parts();
            if_canonical(alloc, parts.1, bytes)
        }
        Err(refused) => match refused.why {
            Why::Memory => Err(AllocError),
            _ => Ok(None),
        },
    }
}

/// The body whose text the bytes are, which is none where there are no bytes; or None where they are that of no body.
fn body_of(alloc: Global, bytes: &[u8]) -> Result<Option<Option<Obj>>, AllocError>
    ensures found { IfOk result (λ found. IfSome found (λ body. IsBody body × (bytes.now ≡ body_text body))) }
    ensures none { IfOk result (λ found. IfNone found ((body : Option Object) → IsBody body → bytes.now ≡ body_text body → ⊥)) }
{
    if bytes.is_empty() {
        return Ok(Some(None));
    }
    match object_of(alloc, bytes)? {
        Some(object) => Ok(Some(Some(object))),
        None => Ok(None),
    }
}

/// What was told, copied.
fn told_of(alloc: Global, reply: Option<&[u8]>) -> Result<Told, AllocError>
    ensures { IfOk result (λ told. reply_bytes told ≡ option_map (λ r. r.now) reply.entry) }
{
    match reply {
        Some(bytes) => {
            let bytes = bytes.to_vec(alloc)?;
            Ok(Told::Reply(Bytes::new(bytes)))
        }
        None => Ok(Told::NoMemory),
    }
}

/// The entry that has these parts, or None where none has.
fn entry_of(alloc: Global, parts: Slices<'_>) -> Result<Option<Entry>, AllocError>
    requires { AreSmall (parts_of_slices parts) }
    ensures found { IfOk result (λ found. IfSome found (λ e. IsEntry e × (parts_of_slices parts.entry ≡ parts_of e))) }
    ensures none { IfOk result (λ found. IfNone found ((e : Entry) → IsEntry e → parts_of_slices parts.entry ≡ parts_of e → ⊥)) }
{
    let Some(moment) = Moment::new(parts.moment) else {
        return Ok(None);
    };
    let Some(target) = target_of(alloc, parts.target)? else {
        return Ok(None);
    };
    let Some(body) = body_of(alloc, parts.body)? else {
        return Ok(None);
    };
    let request = Request {
        verb: parts.verb,
        target,
        body,
    };
    let reply = told_of(alloc, parts.reply)?;
    Ok(Some(Entry {
        moment,
        request,
        reply,
    }))
}

/// The entry that stands first in the bytes, and what follows it; None where no run has the entry that does.
pub(crate) fn next_entry(alloc: Global, bytes: &[u8]) -> Result<Option<(Entry, &[u8])>, AllocError>
    ensures found { IfOk result (λ found. IfSome found (λ x. IsEntry x.0 × (bytes.now ≡ entry_text x.0 ++ x.1.now))) }
    ensures none { IfOk result (λ found. IfNone found (BeginsNone bytes.now)) }
{
    let Some((parts, rest)) = take_parts(bytes) else {
        return Ok(None);
    };
    match entry_of(alloc, parts)? {
        Some(entry) => Ok(Some((entry, rest))),
        None => Ok(None),
    }
}
