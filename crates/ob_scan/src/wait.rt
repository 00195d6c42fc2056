//! What a construct that isn't whole waits for, so that its bytes needn't be read again with each byte that goes on with it.

ghost use Rattle.std.specs.Prelude.{◌≡◌, true, false, IfSome, List, ℕ, Err};
ghost use Rattle.ob_scan.specs.Reading.{run, behind_pair};
ghost use Rattle.ob_scan.specs.Constructs.{more, scan, comment_at, instruction_at, end_tag_at, tag_name_at, markup_at, attribute_at, behind_target, value_at, declares, mark_at};
ghost use Rattle.ob_scan.specs.Waiting.{after_wait, IsWaiting, Wants, behind_name, IsOutside};

use crate::character::{Progress, next_progress};
use crate::declaration::read_declares;
use crate::markup::is_xml_target;
use crate::piece::Place;
use crate::reading::{
    Ends, behind_spaces, is_space_byte, read_literal, read_spaces, read_word, whole,
};
use crate::stop::Stop;

/// What a construct that isn't whole waits for.
#[derive(Clone, Copy, PartialEq, Eq)]
pub enum Wait {
    /// The next byte, whatever it is.
    Next,
    /// A byte other than white space.
    Spaces,
    /// The end of a run of characters.
    Run {
        ends: Ends,
        progress: Progress,
    },
    /// A byte and the one behind it; the first of them has just been `seen` or not.
    Pair {
        first: u8,
        second: u8,
        seen: bool,
        progress: Progress,
    },
}

impl Wait {
    /// What is waited for behind one more byte; None where that byte may decide.
    pub fn after(self, byte: u8) -> Option<Wait>
        ensures { result ≡ after_wait self byte }
    {
        match self {
            Wait::Next => None,
            Wait::Spaces => {
                if is_space_byte(byte) {
                    Some(Wait::Spaces)
                } else {
                    None
                }
            }
            Wait::Run { ends, progress } => {
                if whole(progress) && ends.holds_at(byte) {
                    return None;
                }
                match next_progress(progress, byte) {
                    Ok(progress) => Some(Wait::Run { ends, progress }),
                    Err(_) => None,
                }
            }
            Wait::Pair {
                first,
                second,
                seen,
                progress,
            } => {
                if seen && byte == second {
                    return None;
                }
                match next_progress(progress, byte) {
                    Ok(progress) => Some(Wait::Pair {
                        first,
                        second,
                        seen: byte == first,
                        progress,
                    }),
                    Err(_) => None,
                }
            }
        }
    }
}

/// What a run of characters waits for, if the bytes end in it.
fn run_wait(bytes: &[u8], ends: Ends) -> Option<Wait>
    ensures { IfSome result (λ wait. Wants (run ends) bytes.now wait) }
{
    let mut progress = Progress::Whole;
    for byte in bytes {
        if whole(progress) && ends.holds_at(*byte) {
            return None;
        }
        match next_progress(progress, *byte) {
            Ok(next) => progress = next,
            Err(_) => return None,
        }
    }
    Some(Wait::Run { ends, progress })
}

/// What the bytes before a byte and the one behind it wait for, if both haven't come.
fn pair_wait(bytes: &[u8], first: u8, second: u8) -> Option<Wait>
    ensures { IfSome result (λ wait. Wants (behind_pair first second) bytes.now wait) }
{
    let mut progress = Progress::Whole;
    let mut seen = false;
    for byte in bytes {
        if seen && *byte == second {
            return None;
        }
        match next_progress(progress, *byte) {
            Ok(next) => progress = next,
            Err(_) => return None,
        }
        seen = *byte == first;
    }
    Some(Wait::Pair {
        first,
        second,
        seen,
        progress,
    })
}

fn comment_wait(bytes: &[u8]) -> Option<Wait>
    ensures { IfSome result (λ wait. Wants comment_at bytes.now wait) }
{
    match read_literal(bytes, b"--") {
        Ok(body) => pair_wait(body, b'-', b'-'),
        Err(_) => None,
    }
}

/// What an instruction waits for behind its target.
fn body_wait(bytes: &[u8]) -> Option<Wait>
    ensures { IfSome result (λ wait. Wants behind_target bytes.now wait) }
{
    match bytes {
        [] => None,
        [byte, rest @ ..] => {
            if is_space_byte(*byte) {
                return pair_wait(rest, b'?', b'>');
            }
            None
        }
    }
}

fn instruction_wait(bytes: &[u8]) -> Option<Wait>
    ensures { IfSome result (λ wait. Wants instruction_at bytes.now wait) }
{
    match read_word(bytes, Ends::Target) {
        Err(_) => run_wait(bytes, Ends::Target),
        Ok((target, behind)) => {
            if is_xml_target(target) {
                return None;
            }
            body_wait(behind)
        }
    }
}

fn end_tag_wait(bytes: &[u8]) -> Option<Wait>
    ensures { IfSome result (λ wait. Wants end_tag_at bytes.now wait) }
{
    match read_word(bytes, Ends::Name) {
        Err(_) => run_wait(bytes, Ends::Name),
        Ok((_, behind)) => {
            if behind_spaces(behind).is_empty() {
                return Some(Wait::Spaces);
            }
            None
        }
    }
}

fn tag_name_wait(bytes: &[u8]) -> Option<Wait>
    ensures { IfSome result (λ wait. Wants tag_name_at bytes.now wait) }
{
    run_wait(bytes, Ends::Name)
}

/// What a construct waits for behind its `<`.
fn markup_wait(bytes: &[u8]) -> Option<Wait>
    ensures { IfSome result (λ wait. Wants markup_at bytes.now wait) }
{
    match bytes {
        [] => None,
        [b'!', rest @ ..] => comment_wait(rest),
        [b'?', rest @ ..] => instruction_wait(rest),
        [b'/', rest @ ..] => end_tag_wait(rest),
        _ => tag_name_wait(bytes),
    }
}

fn outside_wait(bytes: &[u8]) -> Option<Wait>
    ensures { IfSome result (λ wait. IsWaiting Place.Between bytes.now wait) }
{
    match bytes {
        [] => None,
        [b'<', rest @ ..] => markup_wait(rest),
        _ => {
            if behind_spaces(bytes).is_empty() {
                return Some(Wait::Spaces);
            }
            None
        }
    }
}

/// What the value of an attribute waits for.
fn quote_wait(bytes: &[u8]) -> Option<Wait>
    ensures { IfSome result (λ wait. Wants value_at bytes.now wait) }
{
    match bytes {
        [] => None,
        [quote, value @ ..] => {
            if *quote == b'"' || *quote == b'\'' {
                return run_wait(value, Ends::Value(*quote));
            }
            None
        }
    }
}

/// What an attribute waits for behind its name.
fn value_wait(bytes: &[u8]) -> Option<Wait>
    ensures { IfSome result (λ wait. (name : List ℕ) → Wants (behind_name name) bytes.now wait) }
{
    let before = match read_spaces(bytes) {
        Err(_) => return Some(Wait::Spaces),
        Ok(before) => before,
    };
    let behind = match read_literal(before, b"=") {
        Err(_) => return None,
        Ok(behind) => behind,
    };
    match read_spaces(behind) {
        Err(_) => Some(Wait::Spaces),
        Ok(quoted) => quote_wait(quoted),
    }
}

fn attribute_wait(bytes: &[u8]) -> Option<Wait>
    ensures { IfSome result (λ wait. Wants attribute_at bytes.now wait) }
{
    match read_word(bytes, Ends::Name) {
        Err(_) => run_wait(bytes, Ends::Name),
        Ok((_, rest)) => value_wait(rest),
    }
}

fn tag_wait(bytes: &[u8]) -> Option<Wait>
    requires { scan Place.InTag false bytes.now ≡ more }
    ensures { IfSome result (λ wait. IsWaiting Place.InTag bytes.now wait) }
{
    let here = behind_spaces(bytes);
    if here.is_empty() {
        return Some(Wait::Spaces);
    }
    let first = here[0];
    if first == b'>' {
        return None;
    }
    if first == b'/' {
        return None;
    }
    attribute_wait(here)
}

/// Whether no declaration begins there, however the bytes go on.
fn begins_no_declaration(bytes: &[u8]) -> bool
    ensures { result ≡ true → Err Stop.Malformed ≡ declares bytes.now }
{
    match read_declares(bytes) {
        Ok(_) => false,
        Err(Stop::Want) => false,
        Err(Stop::Malformed) => true,
    }
}

/// Whether no EF BB BF stands there, however the bytes go on.
fn begins_no_mark(bytes: &[u8]) -> bool
    ensures { result ≡ true → Err Stop.Malformed ≡ mark_at bytes.now }
{
    match read_literal(bytes, &[0xEF, 0xBB, 0xBF]) {
        Ok(_) => false,
        Err(Stop::Want) => false,
        Err(Stop::Malformed) => true,
    }
}

/// Whether neither EF BB BF nor a declaration begins there, however the bytes go on.
fn is_outside(bytes: &[u8], place: Place) -> bool
    ensures { IsOutside place bytes.now result }
{
    match place {
        Place::Start => begins_no_mark(bytes) && begins_no_declaration(bytes),
        Place::Marked => begins_no_declaration(bytes),
        Place::Between => true,
        Place::After => !bytes.is_empty(),
        Place::InTag => false,
    }
}

fn find_wait(bytes: &[u8], place: Place) -> Option<Wait>
    requires { scan place false bytes.now ≡ more }
    ensures { IfSome result (λ wait. IsWaiting place bytes.now wait) }
{
    if let Place::InTag = place {
        return tag_wait(bytes);
    }
    if is_outside(bytes, place) {
        return outside_wait(bytes);
    }
    None
}

/// What the construct at a place waits for, where the bytes end inside it.
pub(crate) fn wait_at(bytes: &[u8], place: Place) -> Wait
    requires { scan place false bytes.now ≡ more }
    ensures { IsWaiting place bytes.now result }
{
    match find_wait(bytes, place) {
        Some(wait) => wait,
        None => Wait::Next,
    }
}
