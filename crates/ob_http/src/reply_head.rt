//! A reply at the front of the bytes that a server has sent.
ghost use Rattle.std.specs.Prelude.{◌≡◌, ◌≤◌, ◌++◌, length, MatchBool, ◌⊎◌, List, ℕ, Ok};
ghost use Rattle.httparse.specs.Grammar.{ResponseHead, ReadsResponse, NeverHasResponse};
ghost use Rattle.httparse.specs.Spans.{IsResponseAt, IsResponseWithin};
ghost use Rattle.ob_http.specs.Message.{looked_at, head_limit};
ghost use Rattle.ob_http.specs.Reply.{IsReplyUndecided, ReplyStands};
ghost use Rattle.ob_http.specs.Replies.{reply_front_of};
ghost use Rattle.ob_http.specs.Known as spec;
ghost use Rattle.ob_http.specs.Known.{KnowsReply, PlacesReply, HasReplyHead};

use crate::fault::FrameFault;
use crate::fields::body_length;
use crate::limits::{FIELD_LIMIT, FIELDS_IN_HEAD, HEAD_LIMIT, REPLY_LIMIT};
use httparse::Status;
use httparse::spans::{EMPTY_HEADER_SPAN, HeaderSpan, ResponseSpans, parse_response};

/// What a whole head says, and how long the body behind it is.
#[derive(Clone, Copy)]
pub(crate) struct ReplyPlace {
    pub(crate) status: u16,
    /// How many bytes the head has.
    pub(crate) start: usize,
    pub(crate) body: usize,
}

/// What is known of the front of the bytes: a head, or no whole one, or what is refused.
pub(crate) fn read_reply_head(bytes: &[u8]) -> Result<Option<ReplyPlace>, FrameFault>
    ensures { KnowsReply bytes.now result }
{
    let looked_at = &bytes[..bytes.len().min(HEAD_LIMIT)];
    let mut headers = [EMPTY_HEADER_SPAN; FIELD_LIMIT];
    match parse_response(looked_at, &mut headers) {
        Ok(Status::Complete(head)) => place_reply(looked_at, &head, &headers[..head.headers]),
        Ok(Status::Partial) => undecided_reply(bytes),
        Err(_) => {
            if is_refused_reply(looked_at) {
                Err(FrameFault::Head)
            } else {
                undecided_reply(bytes)
            }
        }
    }
}

/// What is known once more bytes have come.
pub(crate) fn read_reply_on(
    known: Result<Option<ReplyPlace>, FrameFault>,
    bytes: &[u8],
) -> Result<Option<ReplyPlace>, FrameFault>
    ensures { (front more : List ℕ) → bytes.now ≡ front ++ more → KnowsReply front known → KnowsReply bytes.now result }
{
    if is_open_reply(&known) {
        read_reply_head(bytes)
    } else {
        known
    }
}

/// Whether more bytes may tell of a head.
fn is_open_reply(known: &Result<Option<ReplyPlace>, FrameFault>) -> bool
    ensures { result ≡ spec.is_open known.now }
{
    match known {
        Ok(place) => place.is_none(),
        Err(_) => false,
    }
}

/// What the head says, unless its body is refused.
fn place_reply(
    looked_at: &[u8],
    head: &ResponseSpans,
    headers: &[HeaderSpan],
) -> Result<Option<ReplyPlace>, FrameFault>
    requires within { IsResponseWithin looked_at.now headers.now head.now }
    requires count { head.now.headers ≡ length headers.now }
    ensures { (h : ResponseHead) → IsResponseAt looked_at.now headers.now head.now h
        → PlacesReply looked_at.now h result }
{
    let body = body_length(looked_at, headers, Err(FrameFault::NoLength), REPLY_LIMIT)?;
    Ok(Some(ReplyPlace {
        status: head.code,
        start: head.len,
        body,
    }))
}

/// The answer where there is no head yet, and one may come.
fn undecided_reply(bytes: &[u8]) -> Result<Option<ReplyPlace>, FrameFault>
    requires { IsReplyUndecided (looked_at bytes.now) }
    ensures { KnowsReply bytes.now result }
{
    if bytes.len() < HEAD_LIMIT {
        Ok(None)
    } else {
        Err(FrameFault::HeadBig)
    }
}

/// Whether bytes with which the parser refuses to begin a head are to be refused: no head begins
/// with them, or one stands there that has too many fields.
fn is_refused_reply(bytes: &[u8]) -> bool
    requires { length bytes.now ≤ head_limit }
    ensures { MatchBool result
        (NeverHasResponse bytes.now ⊎ ((h : ResponseHead) × (rest : List ℕ) × ReadsResponse bytes.now h rest))
        (IsReplyUndecided bytes.now) }
{
    let mut headers = [EMPTY_HEADER_SPAN; FIELDS_IN_HEAD];
    match parse_response(bytes, &mut headers) {
        Ok(Status::Complete(_)) => true,
        Ok(Status::Partial) => false,
        Err(_) => true,
    }
}

/// A whole reply, lent by the bytes in which it stands.
#[derive(Clone, Copy)]
pub(crate) struct SeenReply<'a> {
    pub(crate) status: u16,
    pub(crate) body: &'a [u8],
    /// The number of bytes of the whole reply.
    pub(crate) len: usize,
}

/// What stands at the front of the bytes of which this is known.
pub(crate) fn look_at_reply(
    known: Result<Option<ReplyPlace>, FrameFault>,
    bytes: &[u8],
) -> Result<Option<SeenReply<'_>>, FrameFault>
    requires { KnowsReply bytes.now known }
    ensures { ReplyStands bytes.now (reply_front_of result) }
{
    match known {
        Ok(Some(place)) => Ok(whole_reply(bytes, &place)),
        Ok(None) => Ok(None),
        Err(fault) => Err(fault),
    }
}

/// The reply with this head, if its body is there.
fn whole_reply<'a>(bytes: &'a [u8], place: &ReplyPlace) -> Option<SeenReply<'a>>
    requires { HasReplyHead bytes.now place.now }
    ensures { ReplyStands bytes.now (reply_front_of (Ok result)) }
{
    let len = place.start + place.body;
    if len > bytes.len() {
        return None;
    }
    Some(SeenReply {
        status: place.status,
        body: &bytes[place.start..len],
        len,
    })
}
