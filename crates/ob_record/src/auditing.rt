//! The audit of a run.
ghost use Rattle.std.specs.Prelude.{◌≡◌, ◌≢◌, IfSome, IfNone};
ghost use Rattle.ob_record.specs.Legal.{StepsEntry, Audits};
ghost use Rattle.ob_record.specs.Runs.{Recorded, Records};

use crate::decode::next_entry;
use crate::run::{Entry, Run, Told};
use ob_documents::{one_document, text_spells};
use ob_encoding::encode;
use ob_machine::Machine;
use ob_object::Obj;
use ob_site_rules::Request;
use ob_values::Bytes;
use std::alloc::{AllocError, Global};

/// What an audit finds.
#[derive(Drop)]
pub enum Verdict {
    /// Each of so many replies is that of the machine.
    Legal { entries: u64 },
    /// The reply of the entry at this place, from 0, is the first that isn't, and this is the text that it should have had.
    Illegal { entry: u64, expected: Bytes },
}

/// The text, where it isn't these bytes.
fn differing(text: Vec<u8>, bytes: &[u8]) -> Option<Bytes>
    ensures same { IfNone result (bytes.now ≡ text.items) }
    ensures other { IfSome result (λ expected. (expected ≡ text.items) × (bytes.now ≢ text.items)) }
{
    if text.as_slice() == bytes {
        return None;
    }
    Some(Bytes::new(text))
}

/// Steps the machine through an entry. It answers the text that the reply should have had, where it has another. An entry
/// without a reply changes nothing.
fn step_entry<M: Machine<Request = Request, Reply = Obj>>(
    alloc: Global,
    machine: &mut M,
    entry: &Entry,
) -> Result<Option<Bytes>, AllocError>
    ensures { StepsEntry M.act machine.old machine.new entry.now result }
{
    entry.moment.ms();
    match &entry.reply {
        Told::Reply(told) => {
            let reply = machine.step(&entry.request, entry.moment)?;
            let text = encode(alloc, None, &reply)?;
            Ok(differing(text, told.as_slice()))
        }
        Told::NoMemory => Ok(None),
    }
}

/// Steps a machine through a run, entry by entry: the run is legal from the machine's state exactly where the verdict is
/// `Legal`. Replies are compared as bytes, one after the other, and never read. An error only for want of memory, and then
/// the machine has done some first entries.
///
/// `Illegal` names the first entry whose bytes aren't the canonical text, without an xmlns, of the machine's reply. An entry
/// for which memory was wanting is legal, and changes nothing.
pub fn audit<M: Machine<Request = Request, Reply = Obj>>(
    alloc: Global,
    machine: &mut M,
    run: &Run,
) -> Result<Verdict, AllocError>
    ensures { (recorded : Recorded) → Records run.now recorded → Audits M.act machine.old machine.new recorded.entries result }
{
    text_spells();
    one_document();
    run.is_record();
    let entries = run.len();
    let mut rest = run.entries();
    'entries: for place in 0..entries {
        let Some(found) = next_entry(alloc, rest)? else {
            unreachable!()
        };
        let (entry, more) = found;
        let stepped = step_entry(alloc, machine, &entry);
        drop(entry);
        match stepped {
            Ok(None) => {}
            Ok(Some(expected)) => {
                return Ok(Verdict::Illegal {
                    entry: place,
                    expected,
                });
            }
            Err(fault) => return Err(fault),
        }
        rest = more;
    }
    Ok(Verdict::Legal { entries })
}
