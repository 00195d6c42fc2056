//! What audits find of a record, as it is and with another byte in a reply.
use crate::sites::{Opening, site_of};
use ob_record::{Entry, Run, Told, Verdict, audit, read_record, write_boot, write_entry};
use ob_site::Site;
use std::alloc::{AllocError, Global};

/// So many first bytes of a reply are altered, each of them.
const EACH: usize = 2_048;

/// Behind these a byte is altered at each place that is a multiple of this.
const STEP: usize = 1_000;

/// An entry of a record, as the record of a run of its own that begins when the whole one does; and the reply in it, which
/// stands in front of the last line feed.
pub(crate) struct Alone {
    record: Vec<u8>,
    reply: Vec<u8>,
    /// How many bytes the entries in front of it have in the whole record.
    front: usize,
    /// Whether it may be asked again: it tells the same reply, and so do those behind it.
    is_steady: bool,
    /// Whether it was altered at each place before, on a site in the same state.
    is_known: bool,
}

impl Drop for Alone {
    // By one call for each part.
    fn drop(self) {
        let Alone {
            record,
            reply,
            front: _,
            is_steady: _,
            is_known: _,
        } = self;
        drop(record);
        drop(reply);
    }
}

// The bytes of the reply of an entry.
fn reply_of(alloc: Global, entry: &Entry) -> Result<Vec<u8>, AllocError> {
    match &entry.reply {
        Told::Reply(bytes) => bytes.as_slice().to_vec(alloc),
        Told::NoMemory => Ok(Vec::new(alloc)),
    }
}

// The record of a run that begins with another one and has this entry alone.
fn record_of(alloc: Global, run: &Run, entry: &Entry) -> Result<Vec<u8>, AllocError> {
    let text = write_entry(alloc, entry)?;
    let mut record = write_boot(alloc, run.boot())?;
    record.extend_from_slice(&text)?;
    Ok(record)
}

fn entry_alone(alloc: Global, run: &Run, entry: &Entry, front: usize) -> Result<Alone, AllocError> {
    let record = record_of(alloc, run, entry)?;
    let reply = reply_of(alloc, entry)?;
    Ok(Alone {
        record,
        reply,
        front,
        is_steady: false,
        is_known: false,
    })
}

// The entry at a place, in front of which entries have so many bytes.
fn alone_at(
    alloc: Global,
    run: &Run,
    place: u64,
    front: usize,
) -> Result<Option<Alone>, AllocError> {
    match run.entry(alloc, place)? {
        Some(entry) => Ok(Some(entry_alone(alloc, run, &entry, front)?)),
        None => Ok(None),
    }
}

/// The entries of a run.
pub(crate) fn entries_of(alloc: Global, run: &Run) -> Result<Vec<Alone>, AllocError> {
    let head = write_boot(alloc, run.boot())?.len();
    let mut entries = Vec::new(alloc);
    let mut front = 0usize;
    for place in 0..run.len() {
        if let Some(entry) = alone_at(alloc, run, place, front)? {
            front = front.saturating_add(entry.record.len().saturating_sub(head));
            entries.push(entry)?;
        }
    }
    Ok(entries)
}

/// What the audit of these bytes finds from the state of a site on; None where they are no record, or for want of memory.
fn audited(alloc: Global, site: &mut Site, record: Vec<u8>) -> Option<Verdict> {
    let run = read_record(alloc, record).ok()?;
    audit(alloc, site, &run).ok()
}

// How many entries a record has that is legal from the state of a site on.
fn legal_entries(alloc: Global, site: &mut Site, record: &[u8]) -> Option<u64> {
    let record = record.to_vec(alloc).ok()?;
    match audited(alloc, site, record)? {
        Verdict::Legal { entries } => Some(entries),
        Verdict::Illegal { .. } => None,
    }
}

// The bytes, of which the last bit of the one at a place is the other one.
fn altered(alloc: Global, bytes: &[u8], place: usize) -> Option<Vec<u8>> {
    let mut bytes = bytes.to_vec(alloc).ok()?;
    let byte = bytes.get_mut(place)?;
    *byte ^= 1;
    Some(bytes)
}

// The entry at which a record that is altered at a place is illegal, where it should have told this reply.
fn illegal_entry(
    alloc: Global,
    site: &mut Site,
    record: &[u8],
    place: usize,
    reply: &[u8],
) -> Option<u64> {
    let record = altered(alloc, record, place)?;
    match audited(alloc, site, record)? {
        Verdict::Illegal { entry, expected } if expected.as_slice() == reply => Some(entry),
        _ => None,
    }
}

// Whether replies are altered at a place.
fn is_altered(place: usize) -> bool {
    place < EACH || place % STEP == 0
}

impl Alone {
    // Where its reply begins in its own record.
    fn begin(&self) -> usize {
        self.record
            .len()
            .saturating_sub(self.reply.len())
            .saturating_sub(1)
    }

    fn is_legal(&self, alloc: Global, site: &mut Site) -> bool {
        legal_entries(alloc, site, &self.record) == Some(1)
    }

    // Whether it is illegal where its reply is altered at a place.
    fn is_illegal(&self, alloc: Global, site: &mut Site, place: usize) -> bool {
        let place = self.begin().saturating_add(place);
        illegal_entry(alloc, site, &self.record, place, &self.reply) == Some(0)
    }

    // Whether it is altered at each place on one site.
    fn is_altered_at_once(&self) -> bool {
        self.is_steady && !self.reply.is_empty()
    }

    // Whether it is altered at one place alone on a site.
    fn is_altered_alone(&self) -> bool {
        !self.is_altered_at_once() && !self.is_known
    }

    // Whether it is altered at this place alone on the site that is opened for it.
    fn is_altered_at(&self, place: usize) -> bool {
        self.is_altered_alone() && place < self.reply.len()
    }

    // How many of its places are altered, or were.
    fn places(&self) -> u64 {
        let mut count = 0u64;
        for place in 0..self.reply.len() {
            if is_altered(place) {
                count = count.saturating_add(1);
            }
        }
        count
    }

    // How often it is altered where it is at each place, one after the other on a site; None where the audit finds otherwise
    // than it is to.
    fn count_each(&self, alloc: Global, site: &mut Site) -> Option<u64> {
        for place in 0..self.reply.len() {
            if is_altered(place) && !self.is_illegal(alloc, site, place) {
                return None;
            }
        }
        Some(self.places())
    }

    // How often it is altered where it is legal on a site: where it is known, that counts on the first site.
    fn count_legal(&self, alloc: Global, site: &mut Site, place: usize) -> Option<u64> {
        if !self.is_legal(alloc, site) {
            return None;
        }
        if self.is_known && place == 0 {
            Some(self.places())
        } else {
            Some(0)
        }
    }

    // How often it is altered on the site that is opened for a place; None where the audit finds otherwise than it is to.
    fn count(&self, alloc: Global, site: &mut Site, place: usize) -> Option<u64> {
        if self.is_altered_at_once() && !self.is_known && place == 0 {
            return self.count_each(alloc, site);
        }
        if !self.is_altered_at(place) {
            return self.count_legal(alloc, site, place);
        }
        if self.is_illegal(alloc, site, place) {
            Some(1)
        } else {
            None
        }
    }
}

// How many first entries are audited on the site that is opened for a place: all on the first one, and else those up to the
// last that is altered there.
fn audited_at(entries: &[Alone], place: usize) -> usize {
    let mut audited = 0usize;
    let mut number = 0usize;
    for entry in entries {
        number = number.saturating_add(1);
        if place == 0 || entry.is_altered_at(place) {
            audited = number;
        }
    }
    audited
}

// How often entries are altered on the site that is opened for a place, one after the other; None where the audit of one finds
// otherwise than it is to.
fn count_at(alloc: Global, site: &mut Site, entries: &[Alone], place: usize) -> Option<u64> {
    let audited = audited_at(entries, place);
    let mut count = 0u64;
    for entry in entries.get(..audited).unwrap_or(entries) {
        count = count.saturating_add(entry.count(alloc, site, place)?);
    }
    Some(count)
}

// Whether all entries are legal where that at a place is asked twice.
fn is_steady(alloc: Global, opening: Opening, entries: &[Alone], place: usize) -> bool {
    let Some(mut site) = site_of(alloc, opening) else {
        return false;
    };
    let mut number = 0usize;
    for entry in entries {
        if !entry.is_legal(alloc, &mut site) {
            return false;
        }
        if number == place && !entry.is_legal(alloc, &mut site) {
            return false;
        }
        number = number.saturating_add(1);
    }
    true
}

/// Finds which entries may be asked again, from the site that is opened so.
pub(crate) fn find_steady(alloc: Global, opening: Opening, entries: &mut Vec<Alone>) {
    for place in 0..entries.len() {
        let steady = is_steady(alloc, opening, entries.as_slice(), place);
        if let Some(entry) = entries.get_mut(place) {
            entry.is_steady = steady;
        }
    }
}

// The site of a document, and an entry's record, as one text.
fn key_of(alloc: Global, opening: Opening, entry: &Alone) -> Result<Vec<u8>, AllocError> {
    let mut key = opening.document.as_bytes().to_vec(alloc)?;
    key.extend_from_slice(&entry.record)?;
    Ok(key)
}

fn is_among(keys: &[Vec<u8>], key: &[u8]) -> bool {
    for known in keys {
        if known.as_slice() == key {
            return true;
        }
    }
    false
}

/// Marks the first entry as known where an earlier dialogue on the same site began with it, which these keys tell. It is among
/// them from now on.
pub(crate) fn know_first(
    alloc: Global,
    keys: &mut Vec<Vec<u8>>,
    opening: Opening,
    entries: &mut Vec<Alone>,
) -> Result<(), AllocError> {
    let Some(first) = entries.get_mut(0) else {
        return Ok(());
    };
    let key = key_of(alloc, opening, first)?;
    if is_among(keys.as_slice(), key.as_slice()) {
        first.is_known = true;
        return Ok(());
    }
    keys.push(key)?;
    Ok(())
}

/// How many entries a record has, if it is legal for the site that is opened so.
pub(crate) fn legal(alloc: Global, opening: Opening, record: &[u8]) -> Option<u64> {
    let mut site = site_of(alloc, opening)?;
    legal_entries(alloc, &mut site, record)
}

// The entry at which a record is illegal where it is altered at the first byte of the reply of this one.
fn whole_entry(alloc: Global, opening: Opening, record: &[u8], entry: &Alone) -> Option<u64> {
    let mut site = site_of(alloc, opening)?;
    let place = entry.front.saturating_add(entry.begin());
    illegal_entry(alloc, &mut site, record, place, &entry.reply)
}

/// Whether a record with these entries, altered at the first byte of any reply, is illegal at that entry.
pub(crate) fn is_illegal_at_each(
    alloc: Global,
    opening: Opening,
    record: &[u8],
    entries: &[Alone],
) -> bool {
    let mut number = 0u64;
    for entry in entries {
        if whole_entry(alloc, opening, record, entry) != Some(number) {
            return false;
        }
        number = number.saturating_add(1);
    }
    true
}

// How many sites are opened so that each entry is altered at each place: one for each byte of the longest reply that is altered
// at one place alone on a site, and at least one.
fn openings(entries: &[Alone]) -> usize {
    let mut openings = 1;
    for entry in entries {
        if entry.is_altered_alone() {
            openings = entry.reply.len().max(openings);
        }
    }
    openings
}

// How often entries are altered on the site that is opened for a place.
fn count_on_site(alloc: Global, opening: Opening, entries: &[Alone], place: usize) -> Option<u64> {
    let mut site = site_of(alloc, opening)?;
    count_at(alloc, &mut site, entries, place)
}

/// How many bytes of replies are altered, each in a record of its own; None where the audit of one finds otherwise than it is
/// to. Those behind the 2,048th of a reply are altered at each thousandth place alone.
pub(crate) fn illegal(alloc: Global, opening: Opening, entries: &[Alone]) -> Option<u64> {
    let mut count = 0u64;
    for place in 0..openings(entries) {
        if is_altered(place) {
            count = count.saturating_add(count_on_site(alloc, opening, entries, place)?);
        }
    }
    Some(count)
}
