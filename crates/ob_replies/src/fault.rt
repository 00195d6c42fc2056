//! Refusals.
ghost use Rattle.std.specs.Prelude.{◌≡◌, IfOk, Some};
ghost use Rattle.ob_site_rules.specs.Faults.{err, fault_is, fault_display};

use crate::contract::Contract;
use ob_object::{Attributes, Kind, Obj, Words};
use ob_site_rules::Fault;
use ob_values::Text;
use std::alloc::{AllocError, Global};

// The contract of a refusal, if it has one.
fn contract_of(alloc: Global, fault: Fault) -> Result<Option<Words>, AllocError>
    ensures { IfOk result (λ words. words ≡ fault_is fault) }
{
    let contract = match fault {
        Fault::NoSuchObject => Contract::BadUriErr,
        Fault::NotSupported | Fault::OtherShape | Fault::NotWatchable | Fault::NotInBatch => {
            Contract::UnsupportedErr
        }
        Fault::NotWritable => Contract::PermissionErr,
        _ => return Ok(None),
    };
    Ok(Some(contract.words(alloc)?))
}

// What a refusal says.
fn display_of(alloc: Global, fault: Fault) -> Result<Text, AllocError>
    ensures { IfOk result (λ text. text ≡ fault_display fault) }
{
    let words = match fault {
        Fault::NoSuchObject => "no such object",
        Fault::NotSupported => "verb not supported here",
        Fault::OtherShape => "input has another shape",
        Fault::NotWatchable => "cannot be watched",
        Fault::NotInBatch => "not inside a batch",
        Fault::NotWritable => "not writable",
        Fault::OtherKind => "kind differs",
        Fault::BelowMin => "below min",
        Fault::AboveMax => "above max",
        Fault::NotInRange => "not in range",
        Fault::TextTooLong => "text longer than 4096 bytes",
        Fault::LeaseOutOfRange => "lease not from PT1S to PT86400S",
        Fault::TooManyWatches => "limit of 1000 watches",
        Fault::TooManyItems => "limit of 2048 items",
        Fault::HrefTooLong => "href longer than 1024 bytes",
        Fault::TooManyBatchItems => "limit of 1000 batch items",
        Fault::TooManyEntries => "limit of 1000000 stored entries",
        Fault::TooManyItemsInAll => "limit of 200000 items in all",
        Fault::TooManyHrefBytes => "limit of 16777216 bytes of hrefs in all",
    };
    Text::from_ascii(alloc, words)
}

/// A refusal as an object: an err with its contract, if it has one, and the words that a person reads.
///
/// Source: oBIX 1.1, chapter 10 (Networking: errors).
pub fn refusal(alloc: Global, fault: Fault) -> Result<Obj, AllocError>
    ensures { IfOk result (λ o. o ≡ err fault) }
{
    let is = contract_of(alloc, fault)?;
    let display = display_of(alloc, fault)?;
    let mut head = Attributes::empty(alloc, Kind::Err);
    head.put_is(is);
    if head.put_display(Some(display)).is_err() {
        return Err(AllocError);
    }
    Ok(Obj::from_attributes(alloc, head))
}
