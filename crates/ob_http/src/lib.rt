//! HTTP/1.x messages: requests and replies cut from a stream of bytes that comes in pieces, and the
//! texts that ask and answer.
//!
//! A head is what `httparse` accepts, a body has a Content-Length; what the framers give depends on
//! the bytes alone and never on the pieces. Sources: RFC 9110, RFC 9112; oBIX 1.1, HTTP binding.
#![tactic(auto)]

mod answer;
mod asked;
mod buffer;
mod fault;
mod fields;
mod framer;
mod framings;
pub mod laws;
mod limits;
mod media;
mod reply;
mod reply_framer;
mod reply_head;
mod request_head;
mod request_text;
mod seen;
mod target;

pub use answer::{StatusLine, append_answer, refusal_bytes, write_answer};
pub use asked::Asked;
pub use fault::FrameFault;
pub use framer::Framer;
pub use framings::{framing_is_there, replies_are_there};
pub use limits::{BODY_LIMIT, FIELD_LIMIT, HEAD_LIMIT, REPLY_LIMIT};
pub use media::Media;
pub use reply::Reply;
pub use reply_framer::ReplyFramer;
pub use request_text::write_request;
pub use seen::Seen;
