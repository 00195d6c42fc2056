//! What the value of an attribute stands for.

ghost use Rattle.std.specs.Prelude.{List, ℕ, Ok, Err, ◌⊎◌, ◌≡◌, ◌++◌, ◌≤◌, ◌<◌, length, true, string_bytes, IfSome, OnOk, Some, None, if◌then◌else◌};
ghost use Rattle.std.specs.Option.{option_map};
ghost use Rattle.ob_values.specs.XmlText.{IsXmlText};
ghost use Rattle.ob_scan.specs.declared.character.Progress.TheVariants.{Whole};
ghost use Rattle.ob_scan.specs.Expansion.{character_from, behind_line_feed, item_at, is_plain, Expands};
ghost use Rattle.ob_scan.specs.declared.value.RawFault.TheVariants.{Memory};
ghost use Rattle.ob_scan.specs.Items.{item_text, IsItem, Expanded};

use crate::attribute::read_reference;
use crate::character::{Progress, is_single, next_progress};
use crate::reading::whole;
use ob_values::Text;
use std::alloc::{AllocError, Global};
use thiserror::Error;

/// Why a value stands for no text.
#[derive(Clone, Copy, Debug, PartialEq, Eq, Error)]
pub enum RawFault {
    /// The first place at which a reference is refused, or a byte is part of no character.
    #[error("Markup at {at}")]
    Markup { at: usize },
    #[error("Memory")]
    Memory,
}

impl From<AllocError> for RawFault {
    ghost use Rattle.ob_scan.specs.declared.value.RawFault.TheVariants.{Memory};

    ghost from_gives = { λ _ e. e ≡ Memory };

    fn from(_e: AllocError) -> RawFault {
        RawFault::Memory
    }
}

/// A character or a reference of a value.
pub(crate) enum Item<'a> {
    /// A reference to this character.
    Char(u32),
    /// A tab, or an end of line.
    Space,
    /// A character that stands for itself.
    Plain(&'a [u8]),
}

/// The bytes of the first character, and the bytes behind it.
fn read_character(bytes: &[u8]) -> Option<(&[u8], &[u8])>
    ensures { option_map (λ x. (x.0.now, x.1.now)) result ≡ character_from Whole bytes.now }
{
    let mut progress = Progress::Whole;
    for (i, byte) in bytes.iter().enumerate() {
        match next_progress(progress, *byte) {
            Err(_) => return None,
            Ok(next) => {
                if whole(next) {
                    return Some(bytes.split_at(i + 1));
                }
                progress = next;
            }
        }
    }
    None
}

fn skip_line_feed(bytes: &[u8]) -> &[u8]
    ensures { result.now ≡ behind_line_feed bytes.now }
{
    match bytes {
        [b'\n', rest @ ..] => rest,
        _ => bytes,
    }
}

fn read_item(bytes: &[u8]) -> Option<(Item<'_>, &[u8])>
    ensures value { option_map (λ x. (item_text x.0, x.1.now)) result ≡ item_at bytes.now }
    ensures sound { IfSome result (λ x. IsItem x.0) }
{
    match bytes {
        [] => None,
        [b'&', rest @ ..] => match read_reference(rest) {
            None => None,
            Some((c, behind)) => Some((Item::Char(c), behind)),
        },
        [b'\r', rest @ ..] => Some((Item::Space, skip_line_feed(rest))),
        [b'\n' | b'\t', rest @ ..] => Some((Item::Space, rest)),
        _ => match read_character(bytes) {
            None => None,
            Some((character, behind)) => Some((Item::Plain(character), behind)),
        },
    }
}

fn push_item(out: &mut String, item: Item<'_>) -> Result<(), AllocError>
    requires { IsItem item }
    ensures { OnOk result (string_bytes out.new ≡ string_bytes out.old ++ item_text item.entry) }
{
    match item {
        Item::Char(c) => match char::from_u32(c) {
            Some(c) => out.push(c),
            None => unreachable!(),
        },
        Item::Space => out.push(' '),
        Item::Plain(bytes) => match std::str::from_utf8(bytes) {
            Ok(text) => out.push_str(text),
            Err(_) => unreachable!(),
        },
    }
}

/// The text that a value stands for, item by item.
fn expand_items(alloc: Global, raw: &[u8]) -> Result<Text, RawFault>
    ensures exact { Expanded raw.now result }
    ensures only { (text : List ℕ) → Expands raw.now text → (result ≡ Ok text) ⊎ (result ≡ Err Memory) }
{
    let mut out = String::new(alloc);
    let mut rest = raw;
    while !rest.is_empty() {
        match read_item(rest) {
            None => {
                return Err(RawFault::Markup {
                    at: raw.len() - rest.len(),
                });
            }
            Some((item, behind)) => {
                push_item(&mut out, item)?;
                rest = behind;
            }
        }
    }
    let text = Text::from_string(out)?;
    Ok(text)
}

fn plain_bytes(raw: &[u8]) -> bool
    ensures { result ≡ is_plain raw.now }
{
    let mut progress = Progress::Whole;
    for byte in raw {
        if *byte == b'&' || *byte == b'\t' || *byte == b'\n' || *byte == b'\r' {
            return false;
        }
        if whole(progress) && is_single(*byte) {
            continue;
        }
        match next_progress(progress, *byte) {
            Err(_) => return false,
            Ok(next) => progress = next,
        }
    }
    whole(progress)
}

/// The value itself, exactly where it is characters with nothing to replace.
pub fn plain(raw: &[u8]) -> Option<&str>
    ensures value { option_map (λ x. x.now) result ≡ (if is_plain raw.now then Some raw.now else None) }
    ensures text { IfSome result (λ x. IsXmlText x.now) }
{
    if !plain_bytes(raw) {
        return None;
    }
    match std::str::from_utf8(raw) {
        Ok(text) => Some(text),
        Err(_) => unreachable!(),
    }
}

/// The text that a value stands for: references are replaced, and CR LF, CR, LF and tab become one space each.
pub fn expand(alloc: Global, raw: &[u8]) -> Result<Text, RawFault>
    // The text, or the first place that is refused.
    ensures exact { Expanded raw.now result }
    // A value that stands for a text is never refused.
    ensures only { (text : List ℕ) → Expands raw.now text → (result ≡ Ok text) ⊎ (result ≡ Err Memory) }
{
    if let Some(text) = plain(raw) {
        let text = Text::from_string(String::from_str(alloc, text)?)?;
        return Ok(text);
    }
    expand_items(alloc, raw)
}
