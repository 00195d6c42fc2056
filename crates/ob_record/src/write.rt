//! Writing a record.
ghost use Rattle.std.specs.Prelude.{◌≡◌, ◌++◌, IfOk, OnOk, [], option_map, length, unwrap_or};
ghost use Rattle.ob_record.specs.Parts as spec;
ghost use Rattle.ob_record.specs.Parts.{number_word, size_word, parts_text, parts_of_slices};
ghost use Rattle.ob_record.specs.Runs.{body_text, entry_text, head_text, reply_bytes};

use crate::parts::Slices;
use crate::run::{Entry, Told};
use itoa::Buffer;
use ob_encoding::encode;
use ob_object::Obj;
use ob_times::Moment;
use ob_values::Verb;
use std::alloc::{AllocError, Global};

/// Puts a number in decimal behind the text, and the byte that ends it.
fn push_number(text: &mut Vec<u8>, number: u64, end: u8) -> Result<(), AllocError>
    ensures { OnOk result (text.new.items ≡ text.old.items ++ number_word number end) }
{
    let mut buffer = Buffer::new();
    text.extend_from_slice(buffer.format(number).as_bytes())?;
    text.push(end)?;
    Ok(())
}

/// The name of a verb, with a space behind it.
fn verb_word(verb: Verb) -> &'static [u8]
    ensures { result.now ≡ spec.verb_word verb }
{
    match verb {
        Verb::Get => b"GET ",
        Verb::Put => b"PUT ",
        Verb::Post => b"POST ",
    }
}

/// Puts the size of a reply behind the text, or a dash where there is none, and a line feed.
fn push_size(text: &mut Vec<u8>, reply: Option<&[u8]>) -> Result<(), AllocError>
    ensures { OnOk result (text.new.items ≡ text.old.items ++ size_word (option_map (λ r. length r.now) reply.entry)) }
{
    match reply {
        Some(reply) => push_number(text, reply.len() as u64, b'\n'),
        None => {
            text.extend_from_slice(b"-\n")?;
            Ok(())
        }
    }
}

/// The bytes of a reply; none where there is none.
fn bytes_of(reply: Option<&[u8]>) -> &[u8]
    ensures { result.now ≡ unwrap_or (option_map (λ r. r.now) reply.entry) [] }
{
    match reply {
        Some(reply) => reply,
        None => b"",
    }
}

/// Puts the line of an entry behind the text.
fn push_line(text: &mut Vec<u8>, parts: Slices<'_>) -> Result<(), AllocError>
    ensures { OnOk result (text.new.items ≡ text.old.items ++ spec.line_text (parts_of_slices parts.entry)) }
{
    push_number(text, parts.moment, b' ')?;
    text.extend_from_slice(verb_word(parts.verb))?;
    push_number(text, parts.target.len() as u64, b' ')?;
    push_number(text, parts.body.len() as u64, b' ')?;
    push_size(text, parts.reply)
}

/// The text of an entry of these parts.
fn text_of(alloc: Global, parts: Slices<'_>) -> Result<Vec<u8>, AllocError>
    ensures { IfOk result (λ text. text.items ≡ parts_text (parts_of_slices parts.entry)) }
{
    let mut text = Vec::new(alloc);
    push_line(&mut text, parts)?;
    text.extend_from_slice(parts.target)?;
    text.extend_from_slice(parts.body)?;
    text.extend_from_slice(bytes_of(parts.reply))?;
    text.extend_from_slice(b"\n")?;
    Ok(text)
}

/// The canonical text of a body; none has none.
fn body_bytes(alloc: Global, body: &Option<Obj>) -> Result<Vec<u8>, AllocError>
    ensures { IfOk result (λ text. text.items ≡ body_text body.now) }
{
    match body {
        Some(object) => encode(alloc, None, object),
        None => Ok(Vec::new(alloc)),
    }
}

/// What was told, where it wasn't want of memory.
fn told_bytes(told: &Told) -> Option<&[u8]>
    ensures { option_map (λ r. r.now) result ≡ reply_bytes told.now }
{
    match told {
        Told::Reply(bytes) => Some(bytes.as_slice()),
        Told::NoMemory => None,
    }
}

/// An entry as it stands in a record. An error only for want of memory.
pub fn write_entry(alloc: Global, entry: &Entry) -> Result<Vec<u8>, AllocError>
    ensures { IfOk result (λ text. text.items ≡ entry_text entry.now) }
{
    let body = body_bytes(alloc, &entry.request.body)?;
    let parts = Slices {
        moment: entry.moment.ms(),
        verb: entry.request.verb,
        target: entry.request.target.as_str().as_bytes(),
        body: &body,
        reply: told_bytes(&entry.reply),
    };
    text_of(alloc, parts)
}

/// The first two lines of the record of a run that begins at a moment. An error only for want of memory.
pub fn write_boot(alloc: Global, boot: Moment) -> Result<Vec<u8>, AllocError>
    ensures { IfOk result (λ text. text.items ≡ head_text boot) }
{
    let mut text = Vec::new(alloc);
    text.extend_from_slice(b"obix-record 1\nboot ")?;
    push_number(&mut text, boot.ms(), b'\n')?;
    Ok(text)
}
