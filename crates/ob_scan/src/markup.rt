//! The constructs that begin with `<`.

ghost use Rattle.std.specs.Prelude.{◌≡◌};
ghost use Rattle.ob_scan.specs.Reading.{Gives};
ghost use Rattle.ob_scan.specs.Constructs.{comment_at, is_xml, behind_target, instruction_at, end_tag_at, tag_name_at, markup_at};
ghost use Rattle.ob_scan.specs.View.{construct_of};

use crate::piece::Piece;
use crate::reading::{Ends, is_space_byte, read_literal, read_spaces, read_word, skip_pair};
use crate::stop::Stop;

#[tactic(auto, unfolding(crate::specs::Constructs::comment_at))]
fn read_comment(bytes: &[u8]) -> Result<(Piece<'_>, &[u8]), Stop>
    ensures { Gives (λ x. (construct_of x.0, x.1.now)) result (comment_at bytes.now) }
{
    let body = read_literal(bytes, b"--")?;
    let behind = skip_pair(body, b'-', b'-')?;
    let rest = read_literal(behind, b">")?;
    Ok((Piece::Skipped, rest))
}

pub(crate) fn is_xml_target(target: &[u8]) -> bool
    ensures { result ≡ is_xml target.now }
{
    match target {
        [x, m, l] => {
            (*x == b'x' || *x == b'X') && (*m == b'm' || *m == b'M') && (*l == b'l' || *l == b'L')
        }
        _ => false,
    }
}

fn skip_behind_target(bytes: &[u8]) -> Result<&[u8], Stop>
    ensures { Gives (λ x. x.now) result (behind_target bytes.now) }
{
    match bytes {
        [] => Err(Stop::Want),
        [b'?', rest @ ..] => read_literal(rest, b">"),
        [byte, rest @ ..] => {
            if is_space_byte(*byte) {
                skip_pair(rest, b'?', b'>')
            } else {
                Err(Stop::Malformed)
            }
        }
    }
}

#[tactic(auto, unfolding(crate::specs::Constructs::instruction_at))]
fn read_instruction(bytes: &[u8]) -> Result<(Piece<'_>, &[u8]), Stop>
    ensures { Gives (λ x. (construct_of x.0, x.1.now)) result (instruction_at bytes.now) }
{
    let (target, behind) = read_word(bytes, Ends::Target)?;
    if is_xml_target(target) {
        return Err(Stop::Malformed);
    }
    let rest = skip_behind_target(behind)?;
    Ok((Piece::Skipped, rest))
}

#[tactic(auto, unfolding(crate::specs::Constructs::end_tag_at))]
fn read_end_tag(bytes: &[u8]) -> Result<(Piece<'_>, &[u8]), Stop>
    ensures { Gives (λ x. (construct_of x.0, x.1.now)) result (end_tag_at bytes.now) }
{
    let (name, behind) = read_word(bytes, Ends::Name)?;
    let behind = read_spaces(behind)?;
    let rest = read_literal(behind, b">")?;
    Ok((Piece::Close { name }, rest))
}

#[tactic(auto, unfolding(crate::specs::Constructs::tag_name_at))]
fn read_tag_name(bytes: &[u8]) -> Result<(Piece<'_>, &[u8]), Stop>
    ensures { Gives (λ x. (construct_of x.0, x.1.now)) result (tag_name_at bytes.now) }
{
    let (name, rest) = read_word(bytes, Ends::Name)?;
    Ok((Piece::Open { name }, rest))
}

/// The construct behind a `<`.
pub(crate) fn read_markup(bytes: &[u8]) -> Result<(Piece<'_>, &[u8]), Stop>
    ensures { Gives (λ x. (construct_of x.0, x.1.now)) result (markup_at bytes.now) }
{
    match bytes {
        [] => Err(Stop::Want),
        [b'!', rest @ ..] => read_comment(rest),
        [b'?', rest @ ..] => read_instruction(rest),
        [b'/', rest @ ..] => read_end_tag(rest),
        _ => read_tag_name(bytes),
    }
}
