//! A request at the front of the bytes that a client has sent.
ghost use Rattle.std.specs.Prelude.{◌≡◌, ◌≤◌, ◌++◌, length, MatchBool, ◌⊎◌, List, ℕ, Ok};
ghost use Rattle.httparse.specs.Grammar.{RequestHead, ReadsRequest};
ghost use Rattle.httparse.specs.Spans.{IsRequestAt, IsRequestWithin};
ghost use Rattle.ob_http.specs.Message.{looked_at, field_limit, head_limit};
ghost use Rattle.ob_http.specs.Request.{IsUndecided, IsHopeless, Stands};
ghost use Rattle.ob_http.specs.Requests.{front_of};
ghost use Rattle.ob_http.specs.Known as spec;
ghost use Rattle.ob_http.specs.Known.{Knows, Places, HasHead};

use crate::fault::FrameFault;
use crate::fields::{asks_close, body_length, media_of};
use crate::limits::{BODY_LIMIT, FIELD_LIMIT, FIELDS_IN_HEAD, HEAD_LIMIT};
use crate::media::Media;
use crate::seen::{Seen, method_text};
use crate::target::ends_in_target;
use httparse::Status;
use httparse::spans::{EMPTY_HEADER_SPAN, HeaderSpan, RequestSpans, Span, parse_request};

/// Where the parts of a whole head stand, and how long the body behind it is.
#[derive(Clone, Copy)]
pub(crate) struct HeadPlace {
    pub(crate) method: Span,
    pub(crate) target: Span,
    pub(crate) close: bool,
    pub(crate) media: Media,
    /// How many bytes the head has.
    pub(crate) start: usize,
    pub(crate) body: usize,
}

/// What is known of the front of the bytes: a head, or no whole one, or what is refused.
pub(crate) fn read_head(bytes: &[u8]) -> Result<Option<HeadPlace>, FrameFault>
    ensures { Knows bytes.now result }
{
    let looked_at = &bytes[..bytes.len().min(HEAD_LIMIT)];
    let mut headers = [EMPTY_HEADER_SPAN; FIELD_LIMIT];
    match parse_request(looked_at, &mut headers) {
        Ok(Status::Complete(head)) => place_parts(looked_at, &head, &headers[..head.headers]),
        Ok(Status::Partial) => undecided(bytes),
        Err(_) => {
            if is_refused(looked_at) {
                Err(FrameFault::Head)
            } else {
                undecided(bytes)
            }
        }
    }
}

/// What is known once more bytes have come.
pub(crate) fn read_on(
    known: Result<Option<HeadPlace>, FrameFault>,
    bytes: &[u8],
) -> Result<Option<HeadPlace>, FrameFault>
    ensures { (front more : List ℕ) → bytes.now ≡ front ++ more → Knows front known → Knows bytes.now result }
{
    if is_open(&known) {
        read_head(bytes)
    } else {
        known
    }
}

/// Whether more bytes may tell of a head.
fn is_open(known: &Result<Option<HeadPlace>, FrameFault>) -> bool
    ensures { result ≡ spec.is_open known.now }
{
    match known {
        Ok(place) => place.is_none(),
        Err(_) => false,
    }
}

/// The places of the head's parts, unless its body is refused.
fn place_parts(
    looked_at: &[u8],
    head: &RequestSpans,
    headers: &[HeaderSpan],
) -> Result<Option<HeadPlace>, FrameFault>
    requires within { IsRequestWithin looked_at.now headers.now head.now }
    requires count { head.now.headers ≡ length headers.now }
    ensures { (h : RequestHead) → IsRequestAt looked_at.now headers.now head.now h
        → Places looked_at.now h result }
{
    let body = body_length(looked_at, headers, Ok(0), BODY_LIMIT)?;
    Ok(Some(HeadPlace {
        method: head.method,
        target: head.path,
        close: asks_close(looked_at, headers, head.version),
        media: media_of(looked_at, headers),
        start: head.len,
        body,
    }))
}

/// The answer where there is no head yet, and one may come.
fn undecided(bytes: &[u8]) -> Result<Option<HeadPlace>, FrameFault>
    requires { IsUndecided (looked_at bytes.now) }
    ensures { Knows bytes.now result }
{
    if bytes.len() < HEAD_LIMIT {
        Ok(None)
    } else {
        Err(FrameFault::HeadBig)
    }
}

/// Whether bytes with which the parser refuses to begin a head are to be refused: no head begins
/// with them, or one stands there that has too many fields.
fn is_refused(bytes: &[u8]) -> bool
    requires { length bytes.now ≤ head_limit }
    ensures { MatchBool result
        (IsHopeless bytes.now ⊎ ((h : RequestHead) × (rest : List ℕ) × ReadsRequest bytes.now h rest))
        (IsUndecided bytes.now) }
{
    let mut headers = [EMPTY_HEADER_SPAN; FIELDS_IN_HEAD];
    match parse_request(bytes, &mut headers) {
        Ok(Status::Complete(_)) => true,
        Ok(Status::Partial) => false,
        Err(_) => !ends_in_target(bytes),
    }
}

/// What stands at the front of the bytes of which this is known.
pub(crate) fn look_at(
    known: Result<Option<HeadPlace>, FrameFault>,
    bytes: &[u8],
) -> Result<Option<Seen<'_>>, FrameFault>
    requires { Knows bytes.now known }
    ensures { Stands bytes.now (front_of result) }
{
    match known {
        Ok(Some(place)) => Ok(whole_request(bytes, &place)),
        Ok(None) => Ok(None),
        Err(fault) => Err(fault),
    }
}

/// The request with this head, if its body is there.
fn whole_request<'a>(bytes: &'a [u8], place: &HeadPlace) -> Option<Seen<'a>>
    requires { HasHead bytes.now place.now }
    ensures { Stands bytes.now (front_of (Ok result)) }
{
    let len = place.start + place.body;
    if len > bytes.len() {
        return None;
    }
    Some(Seen {
        method: method_text(place.method.of(bytes)),
        target: place.target.of(bytes),
        close: place.close,
        media: place.media,
        body: &bytes[place.start..len],
        len: len as u64,
    })
}
