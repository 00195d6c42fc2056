//! The paths of watches.
ghost use Rattle.std.specs.Prelude.{◌≡◌, ◌≤◌, ◌^◌, true, Some, None, MatchOption, option_map};
ghost use Rattle.std.specs.Char.{is_ascii_digit};
ghost use Rattle.std.specs.List.{list_all, position};
ghost use Rattle.std.specs.Str.{bytes_eq};
ghost use Rattle.ob_site_rules.specs.Paths.{behind, before_slash, behind_slash, digits_number, number_spelled, part_named, watch_part};
ghost use Rattle.ob_site_rules.specs.State.{at};
ghost use Rattle.ob_site_rules.specs.Actions.{is_of_watch};
ghost use Rattle.ob_requests.specs.Numbers.{is_number, is_slash};
ghost use Rattle.ob_requests.specs.Parts.{IsSpelled, IsOfWatch, late_parts, watch_behind};

use ob_site_rules::{Plan, WatchPart};
use std::str;

/// What a path says of watches.
#[derive(Clone, Copy)]
pub enum OfWatch {
    /// It is no path of a watch.
    No,
    /// The path of a part of the watch of this number.
    Part(u64, WatchPart),
    /// The path of a part of a watch whose number is 2^64 or more, which no watch has.
    Beyond,
}

// A number as its one spelling gives it.
#[derive(Clone, Copy)]
enum Spelled {
    No,
    Below(u64),
    // 2^64 or more
    Beyond,
}

// What is behind a beginning, if a text begins so.
pub(crate) fn behind<'a>(front: &[u8], text: &'a [u8]) -> Option<&'a [u8]>
    ensures { option_map (λ rest. rest.now) result ≡ behind front.now text.entry.now }
{
    if text.starts_with(front) {
        Some(&text[front.len()..])
    } else {
        None
    }
}

// The place of the first slash.
fn slash_at(text: &[u8]) -> Option<usize>
    ensures { result ≡ position is_slash text.now }
{
    text.iter().position(|c| *c == b'/')
}

// A text up to its first slash, and what is behind it, if there is a slash.
fn split_slash(text: &[u8]) -> Option<(&[u8], &[u8])>
    ensures { MatchOption result (behind_slash text.entry.now ≡ None) (λ parts. (behind_slash text.entry.now ≡ Some parts.1.now) × (parts.0.now ≡ before_slash text.entry.now)) }
{
    match slash_at(text) {
        Some(at) => Some((&text[..at], &text[at + 1..])),
        None => None,
    }
}

// Whether each byte is a decimal digit.
fn are_digits(text: &[u8]) -> bool
    ensures { result ≡ list_all is_ascii_digit text.now }
{
    text.iter().all(|c| c.is_ascii_digit())
}

// Whether a text is the decimal spelling of a number from 1 on, of 64 digits at most.
fn is_number(text: &[u8]) -> bool
    ensures { result ≡ is_number text.now }
{
    !text.is_empty() && text[0] != b'0' && text.len() <= 64 && are_digits(text)
}

// The number that digits write, or None where it is 2^64 or more.
fn number_of(digits: &[u8]) -> Option<u64>
    requires { is_number digits.now ≡ true }
    ensures { MatchOption result (2 ^ 64 ≤ digits_number digits.now) (λ n. n ≡ digits_number digits.now) }
{
    match str::from_utf8(digits) {
        Ok(text) => text.parse().ok(),
        Err(_) => unreachable!(),
    }
}

// The number from 1 on of which a text is the one spelling.
fn read_number(text: &[u8]) -> Spelled
    ensures { IsSpelled result (number_spelled text.now) }
{
    if !is_number(text) {
        return Spelled::No;
    }
    match number_of(text) {
        Some(number) => Spelled::Below(number),
        None => Spelled::Beyond,
    }
}

// Whether a text is this one.
pub(crate) fn is_text(text: &[u8], other: &[u8]) -> bool
    ensures { result ≡ bytes_eq other.now text.now }
{
    other == text
}

// The op that polls or ends a watch under this text behind the path of its watch.
#[tactic(auto, using(crate::proofs::Parted::late_none))]
fn late_part(text: &[u8]) -> Option<WatchPart>
    ensures { result ≡ at text.now late_parts }
{
    if is_text(text, b"pollChanges") {
        Some(WatchPart::PollChanges)
    } else if is_text(text, b"pollRefresh") {
        Some(WatchPart::PollRefresh)
    } else if is_text(text, b"delete") {
        Some(WatchPart::Delete)
    } else {
        None
    }
}

// The part that stands under this text behind the path of its watch.
#[tactic(auto, using(crate::proofs::Parted::part_rest))]
fn part_named(text: &[u8]) -> Option<WatchPart>
    ensures { result ≡ part_named text.now }
{
    if is_text(text, b"") {
        Some(WatchPart::Whole)
    } else if is_text(text, b"lease") {
        Some(WatchPart::Lease)
    } else if is_text(text, b"add") {
        Some(WatchPart::Add)
    } else if is_text(text, b"remove") {
        Some(WatchPart::Remove)
    } else {
        late_part(text)
    }
}

// The watch and its part, from what is behind the path of all watches.
fn part_behind(text: &[u8]) -> OfWatch
    ensures { IsOfWatch result (watch_behind text.now) }
{
    let Some((number, part)) = split_slash(text) else {
        return OfWatch::No;
    };
    let Some(part) = part_named(part) else {
        return OfWatch::No;
    };
    match read_number(number) {
        Spelled::No => OfWatch::No,
        Spelled::Below(number) => OfWatch::Part(number, part),
        Spelled::Beyond => OfWatch::Beyond,
    }
}

/// The number of a watch and its part, if a path is of that form.
pub fn watch_part(plan: &Plan, path: &str) -> OfWatch
    ensures { IsOfWatch result (watch_part plan.now path.now) }
{
    let root = plan.root.as_str().as_bytes();
    let Some(below) = behind(root, path.as_bytes()) else {
        return OfWatch::No;
    };
    match behind(b"watch/", below) {
        Some(rest) => part_behind(rest),
        None => OfWatch::No,
    }
}

/// Whether a path is one of a watch of these numbers.
pub fn is_of_watch(plan: &Plan, numbers: &[u64], path: &str) -> bool
    ensures { result ≡ is_of_watch plan.now numbers.now path.now }
{
    match watch_part(plan, path) {
        OfWatch::Part(number, _) => numbers.contains(&number),
        OfWatch::No => false,
        OfWatch::Beyond => false,
    }
}
