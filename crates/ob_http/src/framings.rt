//! That bytes have a framing.
ghost use Rattle.std.specs.Prelude.{◌<◌, ℕ, length, IfNone, IfSome};
ghost use Rattle.ob_http.specs.Requests.{HasFraming};
ghost use Rattle.ob_http.specs.Replies.{HasReplies};

use crate::reply_head::{look_at_reply, read_reply_head};
use crate::request_head::{look_at, read_head};

/// Whatever bytes a client sends have a framing, at whatever place of the stream they stand.
pub fn framing_is_there(bytes: &[u8])
    ensures { (place : ℕ) → HasFraming place bytes.now }
{
    let mut rest = bytes;
    'requests: while let Some(next) = behind_request(rest) {
        rest = next;
    }
}

/// The bytes behind the request at the front, if there is one.
fn behind_request(bytes: &[u8]) -> Option<&[u8]>
    ensures shorter { IfSome result (λ rest. length rest.now < length bytes.now) }
    ensures some { IfSome result (λ rest. ((place : ℕ) → HasFraming place rest.now) → (place : ℕ) → HasFraming place bytes.now) }
    ensures none { IfNone result ((place : ℕ) → HasFraming place bytes.now) }
{
    match look_at(read_head(bytes), bytes) {
        Ok(Some(seen)) => Some(&bytes[seen.len as usize..]),
        Ok(None) => None,
        Err(_) => None,
    }
}

/// Whatever bytes a server sends have a framing, at whatever place of the stream they stand.
pub fn replies_are_there(bytes: &[u8])
    ensures { (place : ℕ) → HasReplies place bytes.now }
{
    let mut rest = bytes;
    'replies: while let Some(next) = behind_reply(rest) {
        rest = next;
    }
}

/// The bytes behind the reply at the front, if there is one.
fn behind_reply(bytes: &[u8]) -> Option<&[u8]>
    ensures shorter { IfSome result (λ rest. length rest.now < length bytes.now) }
    ensures some { IfSome result (λ rest. ((place : ℕ) → HasReplies place rest.now) → (place : ℕ) → HasReplies place bytes.now) }
    ensures none { IfNone result ((place : ℕ) → HasReplies place bytes.now) }
{
    match look_at_reply(read_reply_head(bytes), bytes) {
        Ok(Some(seen)) => Some(&bytes[seen.len..]),
        Ok(None) => None,
        Err(_) => None,
    }
}
