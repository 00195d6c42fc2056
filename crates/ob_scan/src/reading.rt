//! Readers of parts of constructs: each answers what stands at the front, and the bytes behind it.

ghost use Rattle.std.specs.Prelude.{◌≡◌};
ghost use Rattle.ob_scan.specs.Reading.{
  Gives,
  is_space,
  literal,
  behind_spaces,
  spaces,
  ends_at,
  is_whole,
  run,
  word,
  behind_pair,
};

use crate::character::{Progress, is_single, next_progress};
use crate::stop::Stop;

/// What ends a run of characters.
#[derive(Clone, Copy, PartialEq, Eq)]
pub enum Ends {
    /// What can't stand in a name.
    Name,
    /// What can't stand in the target of an instruction.
    Target,
    /// The quote of a value, or a `<`.
    Value(u8),
}

impl Ends {
    pub(crate) fn holds_at(self, byte: u8) -> bool
        ensures { result ≡ ends_at self byte }
    {
        match self {
            Ends::Name => {
                is_space_byte(byte)
                    || byte == b'='
                    || byte == b'/'
                    || byte == b'>'
                    || byte == b'<'
                    || byte == b'"'
                    || byte == b'\''
                    || byte == b'&'
            }
            Ends::Target => is_space_byte(byte) || byte == b'?' || byte == b'<' || byte == b'>',
            Ends::Value(quote) => byte == quote || byte == b'<',
        }
    }
}

pub(crate) fn is_space_byte(byte: u8) -> bool
    ensures { result ≡ is_space byte }
{
    byte == b' ' || byte == b'\t' || byte == b'\n' || byte == b'\r'
}

pub(crate) fn whole(progress: Progress) -> bool
    ensures { result ≡ is_whole progress }
{
    matches!(progress, Progress::Whole)
}

pub(crate) fn read_literal<'a>(bytes: &'a [u8], text: &[u8]) -> Result<&'a [u8], Stop>
    ensures { Gives (λ x. x.now) result (literal text.now bytes.now) }
{
    let mut rest = bytes;
    for want in text {
        match rest {
            [] => return Err(Stop::Want),
            [byte, behind @ ..] => {
                if *byte != *want {
                    return Err(Stop::Malformed);
                }
                rest = behind;
            }
        }
    }
    Ok(rest)
}

/// The bytes behind the white space at the front.
pub fn behind_spaces(bytes: &[u8]) -> &[u8]
    ensures { result.now ≡ behind_spaces bytes.now }
{
    let mut rest = bytes;
    while let [byte, behind @ ..] = rest {
        if !is_space_byte(*byte) {
            break;
        }
        rest = behind;
    }
    rest
}

pub(crate) fn read_spaces(bytes: &[u8]) -> Result<&[u8], Stop>
    ensures { Gives (λ x. x.now) result (spaces bytes.now) }
{
    let rest = behind_spaces(bytes);
    if rest.is_empty() {
        return Err(Stop::Want);
    }
    Ok(rest)
}

pub(crate) fn read_run(bytes: &[u8], ends: Ends) -> Result<(&[u8], &[u8]), Stop>
    ensures { Gives (λ x. (x.0.now, x.1.now)) result (run ends bytes.now) }
{
    let mut progress = Progress::Whole;
    for (i, byte) in bytes.iter().enumerate() {
        if whole(progress) {
            if ends.holds_at(*byte) {
                return Ok(bytes.split_at(i));
            }
            if is_single(*byte) {
                continue;
            }
        }
        progress = next_progress(progress, *byte)?;
    }
    Err(Stop::Want)
}

pub(crate) fn read_word(bytes: &[u8], ends: Ends) -> Result<(&[u8], &[u8]), Stop>
    ensures { Gives (λ x. (x.0.now, x.1.now)) result (word ends bytes.now) }
{
    let (word, rest) = read_run(bytes, ends)?;
    if word.is_empty() {
        return Err(Stop::Malformed);
    }
    Ok((word, rest))
}

pub(crate) fn skip_pair(bytes: &[u8], first: u8, second: u8) -> Result<&[u8], Stop>
    ensures { Gives (λ x. x.now) result (behind_pair first second bytes.now) }
{
    let mut progress = Progress::Whole;
    let mut seen = false;
    for (i, byte) in bytes.iter().enumerate() {
        if seen && *byte == second {
            return Ok(&bytes[i + 1..]);
        }
        if !whole(progress) || !is_single(*byte) {
            progress = next_progress(progress, *byte)?;
        }
        seen = *byte == first;
    }
    Err(Stop::Want)
}
