//! A run with some of its entries left out.
ghost use Rattle.std.specs.Prelude.{IfOk};
ghost use Rattle.ob_record.specs.Runs.{Recorded, Records};
ghost use Rattle.ob_record.specs.Sifted.{IsSifted};

use crate::decode::next_entry;
use crate::run::Run;
use crate::write::write_boot;
use ob_documents::{one_document, text_spells};
use ob_site_rules::Request;
use std::alloc::{AllocError, Global};

/// Which entries of a run stay.
pub trait Sieve {
    /// Whether the entry of a request stays. It is asked of each entry, one after the other.
    fn stays(&mut self, request: &Request) -> Result<bool, AllocError>;
}

impl Run {
    /// The run of the entries that a sieve lets stay, in their order. An error only for want of memory.
    pub fn sift<S: Sieve>(&self, alloc: Global, sieve: &mut S) -> Result<Run, AllocError>
        ensures { IfOk result (λ part. (run : Recorded) → Records self.now run → IsSifted run part) }
    {
        text_spells();
        one_document();
        self.is_record();
        let boot = self.boot();
        let mut record = write_boot(alloc, boot)?;
        let first = record.len();
        let mut len: u64 = 0;
        let mut rest = self.entries();
        'entries: while let Some(found) = next_entry(alloc, rest)? {
            let (entry, more) = found;
            let stays = sieve.stays(&entry.request)?;
            drop(entry);
            if stays {
                record.extend_from_slice(&rest[..rest.len() - more.len()])?;
                len += 1;
            }
            rest = more;
        }
        Ok(Run {
            boot,
            record,
            first,
            len,
        })
    }
}
