//! The construct at a place.

ghost use Rattle.std.specs.Prelude.{min, ◌≡◌, ◌≤◌, length, drop, true};
ghost use Rattle.ob_scan.specs.Reading.{Gives};
ghost use Rattle.ob_scan.specs.Constructs.{Scanned, found, more, refused, wanting, judged, attribute_at, attribute_found, checked, empty_end_at, tag_part, in_tag, blank, outside, behind_element, declared, declares, behind_mark, mark_at, marked, starting, behind_lead, scan};
ghost use Rattle.ob_scan.specs.View.{construct_of, scanned_of, Answers, Advances, HasValue};
ghost use Rattle.ob_scan.specs.Waiting.{WaitsOn};

use crate::attribute::{find_bad_reference, read_attribute};
use crate::declaration::{read_declaration, read_declares};
use crate::markup::read_markup;
use crate::piece::{Found, Piece, Place, ScanFault, Why};
use crate::reading::{behind_spaces, read_literal};
use crate::stop::Stop;
use crate::wait::wait_at;

/// What stands at the front of the bytes.
pub(crate) enum Scan<'a> {
    /// This piece, and the bytes behind it.
    Found(Piece<'a>, &'a [u8]),
    More,
    /// The place, counted from the front.
    Fault(usize, Why),
}

fn want(bytes: &[u8], end: bool) -> Scan<'_>
    ensures { scanned_of result ≡ wanting end bytes.now }
{
    if end {
        Scan::Fault(bytes.len(), Why::Ended)
    } else {
        Scan::More
    }
}

fn judge<'a>(
    bytes: &'a [u8],
    end: bool,
    place: usize,
    read: Result<(Piece<'a>, &'a [u8]), Stop>,
) -> Scan<'a>
    ensures { (r : _) → Gives (λ x. (construct_of x.0, x.1.now)) read.entry r → scanned_of result ≡ judged end bytes.now place r }
{
    match read {
        Ok((piece, rest)) => Scan::Found(piece, rest),
        Err(Stop::Want) => want(bytes, end),
        Err(Stop::Malformed) => Scan::Fault(place, Why::Markup),
    }
}

fn read_empty_end(bytes: &[u8]) -> Result<(Piece<'_>, &[u8]), Stop>
    ensures { Gives (λ x. (construct_of x.0, x.1.now)) result (empty_end_at bytes.now) }
{
    let rest = read_literal(bytes, b">")?;
    Ok((Piece::EmptyEnd, rest))
}

fn scan_attribute<'a>(bytes: &'a [u8], end: bool, here: &'a [u8]) -> Scan<'a>
    requires { length here.now ≤ length bytes.now }
    ensures { scanned_of result ≡ attribute_found end bytes.now here.now (attribute_at here.now) }
{
    match read_attribute(here) {
        Ok(((name, raw), rest)) => match find_bad_reference(raw) {
            None => Scan::Found(Piece::Attr { name, raw }, rest),
            Some(k) => Scan::Fault(bytes.len() - (rest.len() + raw.len() + 1) + k, Why::Markup),
        },
        Err(Stop::Want) => want(bytes, end),
        Err(Stop::Malformed) => Scan::Fault(bytes.len() - here.len(), Why::Markup),
    }
}

fn scan_in_tag<'a>(bytes: &'a [u8], here: &'a [u8], end: bool) -> Scan<'a>
    requires { length here.now ≤ length bytes.now }
    ensures { scanned_of result ≡ tag_part end bytes.now here.now }
{
    match here {
        [] => want(bytes, end),
        [b'>', rest @ ..] => Scan::Found(Piece::TagEnd, rest),
        [b'/', rest @ ..] => judge(bytes, end, bytes.len() - here.len(), read_empty_end(rest)),
        _ => {
            if here.len() == bytes.len() {
                return Scan::Fault(0, Why::Markup);
            }
            scan_attribute(bytes, end, here)
        }
    }
}

fn scan_blank(bytes: &[u8], end: bool) -> Scan<'_>
    ensures { scanned_of result ≡ blank end bytes.now }
{
    match bytes {
        [] => {
            if end {
                Scan::Found(Piece::Skipped, bytes)
            } else {
                Scan::More
            }
        }
        [b'<', ..] => Scan::Found(Piece::Skipped, bytes),
        _ => Scan::Fault(0, Why::Text),
    }
}

fn scan_outside(bytes: &[u8], end: bool) -> Scan<'_>
    ensures { scanned_of result ≡ outside end bytes.now }
{
    match bytes {
        [] => want(bytes, end),
        [b'<', rest @ ..] => judge(bytes, end, 0, read_markup(rest)),
        _ => scan_blank(behind_spaces(bytes), end),
    }
}

fn scan_after(bytes: &[u8], end: bool) -> Scan<'_>
    ensures { scanned_of result ≡ behind_element end bytes.now }
{
    if bytes.is_empty() {
        if end {
            return Scan::Found(Piece::End, bytes);
        }
        return Scan::More;
    }
    scan_outside(bytes, end)
}

fn scan_marked(bytes: &[u8], end: bool) -> Scan<'_>
    ensures { scanned_of result ≡ behind_mark end bytes.now }
{
    match read_declares(bytes) {
        Ok(rest) => judge(bytes, end, 0, read_declaration(rest)),
        Err(Stop::Want) => want(bytes, end),
        Err(Stop::Malformed) => scan_outside(bytes, end),
    }
}

fn scan_start(bytes: &[u8], end: bool) -> Scan<'_>
    ensures { scanned_of result ≡ starting end bytes.now }
{
    match read_literal(bytes, &[0xEF, 0xBB, 0xBF]) {
        Ok(rest) => Scan::Found(Piece::Mark, rest),
        Err(Stop::Want) => want(bytes, end),
        Err(Stop::Malformed) => scan_marked(bytes, end),
    }
}

/// The bytes from the first one of the construct on.
fn skip_lead(bytes: &[u8], place: Place) -> &[u8]
    ensures { result.now ≡ behind_lead place bytes.now }
{
    match place {
        Place::InTag => behind_spaces(bytes),
        _ => bytes,
    }
}

/// What stands at the front of the bytes, of which `here` are those from the first one of the construct on.
fn scan_front<'a>(bytes: &'a [u8], here: &'a [u8], place: Place, end: bool) -> Scan<'a>
    requires { here.now ≡ behind_lead place bytes.now }
    ensures { scanned_of result ≡ scan place end bytes.now }
{
    match place {
        Place::Start => scan_start(bytes, end),
        Place::Marked => scan_marked(bytes, end),
        Place::Between => scan_outside(bytes, end),
        Place::InTag => scan_in_tag(bytes, here, end),
        Place::After => scan_after(bytes, end),
    }
}

// The construct at a place in the bytes.
fn piece_at(bytes: &[u8], at: usize, place: Place, end: bool) -> Result<Found<'_>, ScanFault>
    requires { at ≤ length bytes.now }
    ensures found { Answers place bytes.now at result (scan place end (drop at bytes.now)) }
    ensures advances { Advances at result }
    ensures values { HasValue result }
    ensures waits { WaitsOn place (drop at bytes.now) result }
{
    let front = &bytes[at..];
    let here = skip_lead(front, place);
    match scan_front(front, here, place, end) {
        Scan::Found(piece, rest) => Ok(Found::Piece {
            piece,
            first: bytes.len() - here.len(),
            next: bytes.len() - rest.len(),
        }),
        Scan::More => Ok(Found::More {
            wait: wait_at(front, place),
        }),
        Scan::Fault(k, why) => Err(ScanFault { at: at + k, why }),
    }
}

/// The construct at a place of the bytes, which end there if `end` is true. A place behind the last byte is read as the end.
pub fn next_piece(bytes: &[u8], at: usize, place: Place, end: bool) -> Result<Found<'_>, ScanFault>
    ensures found { Answers place bytes.now (min at (length bytes.now)) result (scan place end (drop (min at (length bytes.now)) bytes.now)) }
    ensures advances { Advances (min at (length bytes.now)) result }
    ensures values { HasValue result }
    ensures waits { WaitsOn place (drop (min at (length bytes.now)) bytes.now) result }
{
    piece_at(bytes, at.min(bytes.len()), place, end)
}
