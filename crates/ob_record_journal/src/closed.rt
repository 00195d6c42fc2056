//! Entries as a journal appends them: blocks, each with a closed gate behind it.
ghost use Rattle.std.specs.Prelude.{◌≡◌, ◌↔◌, ◌++◌, [], ◌∷◌, true, IfOk, IfNone, IfSome};
ghost use Rattle.ob_object.specs.Object.{in_row};
ghost use Rattle.ob_documents.specs.Held.{IsShallow};
ghost use Rattle.ob_record.specs.Blocks.{block_text};
ghost use Rattle.ob_record.specs.Runs as runs;
ghost use Rattle.ob_record.specs.Runs.{IsBody, IsEntry, parts_of};
ghost use Rattle.ob_record.specs.declared.run.Told.TheVariants as told;
ghost use Rattle.ob_record_journal.specs.Runs.{opening_line};

use ob_documents::{held_carried, is_held};
use ob_encoding::encode;
use ob_object::Obj;
use ob_record::{Entry, Told, write_boot, write_entry};
use ob_site_rules::Request;
use ob_times::Moment;
use ob_values::Bytes;
use std::alloc::{AllocError, Global};

/// How many bytes the first line of a record has.
const FIRST_LINE: usize = 14;

/// The most levels of a document.
const LEVELS: u64 = 32;

/// The most bytes of a body in a record.
const BODY_LIMIT: usize = 16_777_216;

/// Whether none of the objects, which stand in so many others, and none in them stands in 32.
fn are_shallow(objects: &[Obj], level: u64) -> bool
    ensures { result ≡ true ↔ IsShallow level (in_row objects.now) }
{
    for object in objects {
        if level >= LEVELS || !are_shallow(object.children(), level + 1) {
            return false;
        }
    }
    true
}

/// Whether a record can have a body: it has at most 32 levels, and its canonical text at most 16,777,216 bytes.
fn is_carried(alloc: Global, body: &Option<Obj>) -> Result<bool, AllocError>
    ensures { IfOk result (λ yes. yes ≡ true ↔ IsBody body.now) }
{
    let Some(object) = body else {
        return Ok(true);
    };
    if !are_shallow(object.children(), 1) {
        return Ok(false);
    }
    is_held(object);
    held_carried();
    let text = encode(alloc, None, object)?;
    Ok(text.len() <= BODY_LIMIT)
}

/// A body, copied.
fn copy_body(body: &Option<Obj>) -> Result<Option<Obj>, AllocError>
    ensures { IfOk result (λ copy. copy ≡ body.now) }
{
    match body {
        Some(object) => Ok(Some(object.copy()?)),
        None => Ok(None),
    }
}

/// The text of the entry of a request, and of its reply's bytes, at a moment.
fn entry_text(
    alloc: Global,
    moment: Moment,
    request: &Request,
    reply: &[u8],
) -> Result<Vec<u8>, AllocError>
    ensures { IfOk result (λ text. text.items ≡ runs.entry_text (record { moment = moment; request = request.now; reply = told.Reply reply.now })) }
{
    let target = request.target.copy()?;
    let body = copy_body(&request.body)?;
    let reply = reply.to_vec(alloc)?;
    let entry = Entry {
        moment,
        request: Request {
            verb: request.verb,
            target,
            body,
        },
        reply: Told::Reply(Bytes::new(reply)),
    };
    write_entry(alloc, &entry)
}

/// The second line of the record of a run that begins at a moment; nothing where none is given.
fn opening_text(alloc: Global, boot: Option<Moment>) -> Result<Vec<u8>, AllocError>
    ensures { IfOk result (λ text. text.items ≡ opening_line boot) }
{
    match boot {
        Some(boot) => {
            let head = write_boot(alloc, boot)?;
            head[FIRST_LINE..].to_vec(alloc)
        }
        None => Ok(Vec::new(alloc)),
    }
}

/// The block of an entry with the byte 0 behind it, as a journal appends it; behind the line of the opening at a moment, where
/// one is given.
///
/// None exactly where no record can have the entry: its body has more than 32 levels, or its canonical text more than
/// 16,777,216 bytes. An error only for want of memory.
pub fn write_closed(
    alloc: Global,
    boot: Option<Moment>,
    moment: Moment,
    request: &Request,
    reply: &[u8],
) -> Result<Option<Vec<u8>>, AllocError>
    ensures entry { IfOk result (λ block. IfSome block (λ text. IsEntry (record { moment = moment; request = request.now; reply = told.Reply reply.now }))) }
    ensures none { IfOk result (λ block. IfNone block (IsBody request.now.body → ⊥)) }
    ensures text { IfOk result (λ block. IfSome block (λ text. text.items ≡ block_text boot (parts_of (record { moment = moment; request = request.now; reply = told.Reply reply.now })) ++ 0 ∷ [])) }
{
    moment.ms();
    request.target.as_str();
    if !is_carried(alloc, &request.body)? {
        return Ok(None);
    }
    let mut block = opening_text(alloc, boot)?;
    let text = entry_text(alloc, moment, request, reply)?;
    // The last byte is the line feed, in whose place a closed gate stands.
    block.extend_from_slice(&text[..text.len() - 1])?;
    block.push(0)?;
    Ok(Some(block))
}
