//! The parts of an entry, as they stand in a record.
ghost use Rattle.std.specs.Prelude.{◌≡◌, ◌++◌, ℕ, List, false, MatchOption, option_map};
ghost use Rattle.std.specs.Char.{is_ascii_digit};
ghost use Rattle.ob_record.specs.Parts.{parts_of_slices};
ghost use Rattle.ob_record.specs.Reading as reading;

use ob_spelling::{split_digits, split_number};
use ob_values::Verb;

/// Numbers of a record are below this.
const BEYOND: u64 = 1 << 63;

/// The parts of an entry, lent by the record.
#[derive(Clone, Copy)]
pub(crate) struct Slices<'a> {
    pub(crate) moment: u64,
    pub(crate) verb: Verb,
    pub(crate) target: &'a [u8],
    /// Nothing where the request has no body.
    pub(crate) body: &'a [u8],
    /// None where memory was wanting.
    pub(crate) reply: Option<&'a [u8]>,
}

/// What follows a word, where the bytes begin with it.
pub(crate) fn after<'a>(bytes: &'a [u8], word: &[u8]) -> Option<&'a [u8]>
    ensures { option_map (λ x. x.now) result ≡ reading.after word.now bytes.now }
{
    bytes.strip_prefix(word)
}

/// Whether these digits are the decimal spelling of a number: there are some, and the first of several isn't 0.
fn is_plain(digits: &[u8]) -> bool
    ensures { result ≡ reading.is_plain digits.now }
{
    match digits {
        [] => false,
        [_] => true,
        [first, ..] => *first != b'0',
    }
}

/// What follows a byte, where it is the first.
fn behind(bytes: &[u8], end: u8) -> Option<&[u8]>
    ensures { option_map (λ x. x.now) result ≡ reading.behind end bytes.now }
{
    match bytes {
        [first, rest @ ..] if *first == end => Some(rest),
        _ => None,
    }
}

/// The number below 2^63 that stands first in decimal, without leading zeros, and ends at this byte; and what follows.
#[tactic(auto, unfolding(crate::specs::Reading::number_at))]
pub(crate) fn take_number(bytes: &[u8], end: u8) -> Option<(u64, &[u8])>
    ensures { option_map (λ x. (x.0, x.1.now)) result ≡ reading.number_at end bytes.now }
{
    let (digits, _) = split_digits(bytes);
    let (number, rest) = split_number(bytes);
    if !is_plain(digits) || number >= BEYOND {
        return None;
    }
    let rest = behind(rest, end)?;
    Some((number, rest))
}

/// The verb whose name stands first, with the space behind it; and what follows.
#[tactic(auto, unfolding(crate::specs::Reading::verb_at))]
fn take_verb(bytes: &[u8]) -> Option<(Verb, &[u8])>
    ensures { option_map (λ x. (x.0, x.1.now)) result ≡ reading.verb_at bytes.now }
{
    if let Some(rest) = after(bytes, b"GET ") {
        return Some((Verb::Get, rest));
    }
    if let Some(rest) = after(bytes, b"PUT ") {
        return Some((Verb::Put, rest));
    }
    let rest = after(bytes, b"POST ")?;
    Some((Verb::Post, rest))
}

/// The size of a reply, or None for a dash, which ends the line; and what follows.
#[tactic(auto, unfolding(crate::specs::Reading::size_at))]
fn take_size(bytes: &[u8]) -> Option<(Option<u64>, &[u8])>
    ensures { option_map (λ x. (x.0, x.1.now)) result ≡ reading.size_at bytes.now }
{
    if let Some(rest) = after(bytes, b"-\n") {
        return Some((None, rest));
    }
    let (size, rest) = take_number(bytes, b'\n')?;
    Some((Some(size), rest))
}

/// So many bytes, and what follows.
fn take_bytes(bytes: &[u8], len: u64) -> Option<(&[u8], &[u8])>
    ensures { option_map (λ x. (x.0.now, x.1.now)) result ≡ reading.bytes_at len bytes.now }
{
    if (bytes.len() as u64) < len {
        return None;
    }
    Some(bytes.split_at(len as usize))
}

/// The bytes of a reply of this size, or None where there is none; and what follows.
#[tactic(auto, unfolding(crate::specs::Reading::reply_at))]
fn take_reply(bytes: &[u8], size: Option<u64>) -> Option<(Option<&[u8]>, &[u8])>
    ensures { option_map (λ x. (option_map (λ r. r.now) x.0, x.1.now)) result ≡ reading.reply_at size bytes.now }
{
    let Some(size) = size else {
        return Some((None, bytes));
    };
    let (reply, rest) = take_bytes(bytes, size)?;
    Some((Some(reply), rest))
}

/// The parts of the entry that stands first, and what follows them, from its last line feed on.
#[tactic(auto, unfolding(crate::specs::Reading::open_at))]
pub(crate) fn take_open_parts(bytes: &[u8]) -> Option<(Slices<'_>, &[u8])>
    ensures { option_map (λ x. (parts_of_slices x.0, x.1.now)) result ≡ reading.open_at bytes.now }
{
    let (moment, rest) = take_number(bytes, b' ')?;
    let (verb, rest) = take_verb(rest)?;
    let (target, rest) = take_number(rest, b' ')?;
    let (body, rest) = take_number(rest, b' ')?;
    let (reply, rest) = take_size(rest)?;
    let (target, rest) = take_bytes(rest, target)?;
    let (body, rest) = take_bytes(rest, body)?;
    let (reply, rest) = take_reply(rest, reply)?;
    let parts = Slices {
        moment,
        verb,
        target,
        body,
        reply,
    };
    Some((parts, rest))
}

/// The parts of the entry that stands first, and what follows.
#[tactic(auto, unfolding(crate::specs::Reading::parts_at))]
pub(crate) fn take_parts(bytes: &[u8]) -> Option<(Slices<'_>, &[u8])>
    ensures { option_map (λ x. (parts_of_slices x.0, x.1.now)) result ≡ reading.parts_at bytes.now }
{
    let (parts, rest) = take_open_parts(bytes)?;
    let rest = after(rest, b"\n")?;
    Some((parts, rest))
}
