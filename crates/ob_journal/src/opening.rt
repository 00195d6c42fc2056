//! What a file says, and the repair of its end.
ghost use Rattle.std.specs.Prelude.{◌≡◌, ◌↔◌, ◌<◌, ◌≤◌, ◌++◌, [], ◌∷◌, List, ℕ, length, take, drop, true, IfOk, IfErr, IfSome, IfNone};
ghost use Rattle.ob_journal.specs.Device.{Only, LeavesOnly, HasDeviceCause};
ghost use Rattle.ob_journal.specs.Journal.{first_line, NoBlock, IsLast, IsTail, AreBlocks, Stands, Says, IsUnmade, IsFront, Finds, IsNoJournalAt, IsSettled};

use crate::{Device, DeviceFault, Shape};
use thiserror::Error;

/// How far the entries of a file go.
#[derive(Clone, Copy, Debug, PartialEq, Eq)]
pub enum Extent {
    /// The file has at most 14 bytes: it is new, or its making was cut short. It has no entry.
    Unmade,
    /// The first line and the entries end at this place, in bytes.
    Entries { end: usize },
}

/// The bytes of a file are no journal's: no crash leaves such a file.
#[derive(Clone, Copy, Debug, PartialEq, Eq, Error)]
#[error("NoJournal {place}")]
pub struct NoJournal {
    /// Where they cease to be one's, in bytes from 0: at 0, where they don't begin with the first line; else behind the last
    /// entry that counts.
    pub place: usize,
}

/// The first line, without its line feed.
const FIRST_LINE: &[u8] = b"obix-record 1";

/// A file with no entry, at rest.
const NO_ENTRY: &[u8] = b"obix-record 1\0";

/// The line feed that is an open gate.
const OPEN: u8 = b'\n';

/// A closed gate.
const CLOSED: u8 = 0;

/// How long the gate and the entry are that the bytes begin with, if they begin with an open gate and an entry.
fn block_len<S: Shape>(bytes: &[u8]) -> Option<usize>
    ensures some { IfSome result (λ n. (0 < n) × (n ≤ length bytes.now) × ((e : List ℕ) × S.is_entry e × (take n bytes.now ≡ 10 ∷ e))) }
    ensures none { IfNone result (NoBlock S.is_entry bytes.now) }
{
    let (gate, rest) = bytes.split_first()?;
    if *gate != OPEN {
        return None;
    }
    let n = S::first(rest)?;
    Some(1 + n)
}

/// What follows the first line, where the bytes begin with it.
fn behind_first_line(bytes: &[u8]) -> Option<&[u8]>
    ensures some { IfSome result (λ rest. bytes.now ≡ first_line ++ rest.now) }
    ensures none { IfNone result ((rest : List ℕ) → bytes.now ≡ first_line ++ rest → ⊥) }
{
    bytes.strip_prefix(FIRST_LINE)
}

/// How long the entries are that the bytes begin with, each behind an open gate.
fn blocks_len<S: Shape>(bytes: &[u8]) -> usize
    ensures { AreBlocks S.is_entry bytes.now result × NoBlock S.is_entry (drop result bytes.now) }
{
    let mut at = 0;
    while let Some(n) = block_len::<S>(&bytes[at..]) {
        at += n;
    }
    at
}

/// Whether nothing follows the entry that the bytes begin with but a closed gate, if they begin with one.
fn is_last<S: Shape>(bytes: &[u8]) -> bool
    ensures { result ≡ true ↔ IsLast S.is_entry bytes.now }
{
    let Some(n) = S::first(bytes) else {
        return true;
    };
    let rest = &bytes[n..];
    rest.is_empty() || rest == [CLOSED].as_slice()
}

/// Whether these bytes may stand behind the last entry that counts.
fn is_tail<S: Shape>(bytes: &[u8]) -> bool
    ensures { result ≡ true ↔ IsTail S.is_entry bytes.now }
{
    let Some((gate, behind)) = bytes.split_first() else {
        return true;
    };
    if *gate == OPEN {
        return behind.is_empty();
    }
    *gate == CLOSED || is_last::<S>(behind)
}

/// How far the entries go in the bytes of a file.
///
/// An error where it is no journal's: it has more than 14 bytes, and doesn't begin with the first line, or no crash leaves what
/// stands behind its entries.
pub fn find<S: Shape>(bytes: &[u8]) -> Result<Extent, NoJournal>
    ensures extent { IfOk result (Finds S.is_entry bytes.now) }
    ensures place { IfErr result (λ fault. IsNoJournalAt S.is_entry bytes.now fault.place) }
    ensures none { IfErr result (λ _. (entries : List (List ℕ)) → Says S.is_entry bytes.now entries → ⊥) }
{
    if bytes.len() <= NO_ENTRY.len() {
        return Ok(Extent::Unmade);
    }
    let Some(rest) = behind_first_line(bytes) else {
        return Err(NoJournal { place: 0 });
    };
    let len = blocks_len::<S>(rest);
    let end = FIRST_LINE.len() + len;
    if !is_tail::<S>(&rest[len..]) {
        return Err(NoJournal { place: end });
    }
    Ok(Extent::Entries { end })
}

/// Makes the file, where it isn't made, or cuts off what stands behind its entries; and gives the place of the closed gate
/// then. A crash at any moment leaves a file that says the same entries. At `Err` the file is to be opened again.
pub fn repair<D: Device, S: Shape>(device: &mut D, extent: Extent) -> Result<usize, DeviceFault>
    requires found { D.is_told → Finds S.is_entry (D.seen device.old) extent }
    // After a restart, what is read is what is on the disk.
    requires durable { D.is_told → Only (D.seen device.old) (D.may_leave device.old) }

    ensures settled { D.is_told → (entries : List (List ℕ)) → Says S.is_entry (D.seen device.old) entries
        → IfOk result (λ end. IsSettled S.is_entry D.seen D.may_leave entries device.new end) }
    ensures any_moment { D.is_told → (entries : List (List ℕ)) → Says S.is_entry (D.seen device.old) entries
        → LeavesOnly D.moment D.left_since device.old device.new (λ c. Says S.is_entry c entries) }
    ensures cause { HasDeviceCause (D.faults device.old) (D.faults device.new) result }
{
    match extent {
        Extent::Unmade => make::<D, S>(device),
        Extent::Entries { end } => close::<D, S>(device, end),
    }
}

/// Makes a file that isn't made: it is at rest then and has no entry.
fn make<D: Device, S: Shape>(device: &mut D) -> Result<usize, DeviceFault>
    requires unmade { D.is_told → IsUnmade (D.seen device.old) }
    requires durable { D.is_told → Only (D.seen device.old) (D.may_leave device.old) }
    ensures settled { D.is_told → IfOk result (λ end. IsSettled S.is_entry D.seen D.may_leave [] device.new end) }
    ensures any_moment { D.is_told → LeavesOnly D.moment D.left_since device.old device.new IsUnmade }
    ensures cause { HasDeviceCause (D.faults device.old) (D.faults device.new) result }
{
    device.write_at(0, NO_ENTRY)?;
    device.sync()?;
    Ok(FIRST_LINE.len())
}

/// Cuts off what stands behind the entries of a file, and closes the gate there.
fn close<D: Device, S: Shape>(device: &mut D, end: usize) -> Result<usize, DeviceFault>
    requires front { D.is_told → IsFront S.is_entry (D.seen device.old) end }
    requires durable { D.is_told → Only (D.seen device.old) (D.may_leave device.old) }
    ensures settled { D.is_told → (entries : List (List ℕ)) → Stands S.is_entry (D.seen device.old) entries
        → IfOk result (λ end. IsSettled S.is_entry D.seen D.may_leave entries device.new end) }
    ensures any_moment { D.is_told → (entries : List (List ℕ)) → Stands S.is_entry (D.seen device.old) entries
        → LeavesOnly D.moment D.left_since device.old device.new (λ c. Stands S.is_entry c entries) }
    ensures cause { HasDeviceCause (D.faults device.old) (D.faults device.new) result }
{
    device.cut(end)?;
    // The cut has to be on the disk first: behind a gate that is torn open, what was there would count.
    device.sync()?;
    device.write_at(end, &[CLOSED])?;
    device.sync()?;
    Ok(end)
}
