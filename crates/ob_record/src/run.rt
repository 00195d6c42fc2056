//! Runs: what a site was asked, when, and what it told.
ghost use Rattle.std.specs.Prelude.{◌≡◌, length, slice_get, IfOk};
ghost use Rattle.std.specs.List.{flat_map};
ghost use Rattle.ob_record.specs.Runs.{Recorded, Records, IsRecord, entry_text};

use crate::decode::next_entry;
use ob_documents::{one_document, text_spells};
use ob_site_rules::Request;
use ob_times::Moment;
use ob_values::Bytes;
use std::alloc::{AllocError, Global};
use std::marker::Model;

/// What a site told of a request.
#[derive(Drop)]
pub enum Told {
    /// The bytes of the reply: in a legal run the canonical text of an object, without an xmlns.
    Reply(Bytes),
    /// Memory was wanting, and nothing was done.
    NoMemory,
}

/// A request of a run: when it was asked, and what was told.
pub struct Entry {
    pub moment: Moment,
    pub request: Request,
    pub reply: Told,
}

impl Drop for Entry {
    // By one call for each part, so that to drop it is one call to whoever may have to.
    fn drop(self) {
        let Entry {
            moment: _,
            request,
            reply,
        } = self;
        drop(request);
        drop(reply);
    }
}

/// A run: the moment at which a site was opened, and what it was asked and told since, in order. All of it was asked by one
/// caller. [`crate::read_record`] makes one.
///
/// It holds the bytes of its record and no entry, so it takes no more memory than the record; entries are read one after the
/// other. Contracts see it as these bytes, which are the record of one run.
pub struct Run {
    pub(crate) boot: Moment,
    pub(crate) record: Vec<u8>,
    /// Where the entries begin, in bytes.
    pub(crate) first: usize,
    pub(crate) len: u64,
}

impl Drop for Run {
    // By one call, so that to drop it is one call to whoever may have to.
    fn drop(self) {
        let Run {
            boot: _,
            record,
            first: _,
            len: _,
        } = self;
        drop(record);
    }
}

impl Model for Run {
    ghost use Rattle.std.specs.Prelude.{List, ℕ};
    ghost use Rattle.ob_record.specs.Runs.{IsMeasured};

    ghost Value = { List ℕ };

    ghost view = { λ r. r.record.items };

    ghost invariant = { λ r. IsMeasured r.record.items r.boot r.first r.len };
}

impl Run {
    /// Its bytes are the record of a run.
    pub fn is_record(&self)
        ensures { IsRecord self.now }
    {
        let _ = &self.len;
    }

    /// The moment at which the site was opened.
    pub fn boot(&self) -> Moment
        ensures { (run : Recorded) → Records self.now run → result ≡ run.boot }
    {
        text_spells();
        one_document();
        self.boot
    }

    /// How many entries it has.
    pub fn len(&self) -> u64
        ensures { (run : Recorded) → Records self.now run → result ≡ length run.entries }
    {
        text_spells();
        one_document();
        self.len
    }

    /// The bytes of its record.
    pub fn as_slice(&self) -> &[u8]
        ensures { result.now ≡ self.now }
    {
        &self.record
    }

    /// A copy. An error only for want of memory.
    pub fn copy(&self, alloc: Global) -> Result<Run, AllocError>
        ensures { IfOk result (λ copy. copy ≡ self.now) }
    {
        let record = self.record.to_vec(alloc)?;
        Ok(Run {
            boot: self.boot,
            record,
            first: self.first,
            len: self.len,
        })
    }

    /// The bytes of its entries.
    pub(crate) fn entries(&self) -> &[u8]
        ensures { (run : Recorded) → Records self.now run → result.now ≡ flat_map entry_text run.entries }
    {
        text_spells();
        one_document();
        &self.record[self.first..]
    }

    /// The entry at a place, from 0; None exactly where there is none. All entries in front of it are read too. An error only
    /// for want of memory.
    pub fn entry(&self, alloc: Global, place: u64) -> Result<Option<Entry>, AllocError>
        ensures { IfOk result (λ entry. (run : Recorded) → Records self.now run → entry ≡ slice_get run.entries place) }
    {
        text_spells();
        one_document();
        let mut rest = self.entries();
        for _place in 0..place {
            match next_entry(alloc, rest)? {
                Some(found) => rest = found.1,
                None => return Ok(None),
            }
        }
        match next_entry(alloc, rest)? {
            Some(found) => Ok(Some(found.0)),
            None => Ok(None),
        }
    }
}
