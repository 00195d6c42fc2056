//! A request that is lent by the bytes in which it stands.
ghost use Rattle.std.specs.Prelude.{◌≡◌, MatchResult};
ghost use Rattle.httparse.specs.Grammar.{IsToken};
ghost use Rattle.ob_http.specs.Requests.{seen_request, asked_request};
ghost use Rattle.ob_http.specs.declared.fault.FrameFault.TheVariants.{Memory};

use crate::asked::Asked;
use crate::fault::FrameFault;
use crate::media::Media;
use ob_values::{Bytes, Text};
use std::alloc::Global;
use std::str;

/// A whole request, lent by the bytes in which it stands.
#[derive(Clone, Copy)]
pub struct Seen<'a> {
    pub method: &'a str,
    pub target: &'a [u8],
    /// Whether the client closes the connection behind it.
    pub close: bool,
    pub media: Media,
    pub body: &'a [u8],
    /// The number of bytes of the whole request.
    pub len: u64,
}

/// A copy of the request that holds its own bytes.
pub(crate) fn copy_request(alloc: Global, seen: &Seen<'_>) -> Result<Asked, FrameFault>
    requires { IsToken seen.now.method.now }
    ensures { MatchResult result (λ asked. asked_request asked ≡ seen_request seen.now) (λ e. e ≡ Memory) }
{
    let method = Text::from_ascii(alloc, seen.method)?;
    let target = Vec::from_slice(alloc, seen.target)?;
    let body = Vec::from_slice(alloc, seen.body)?;
    Ok(Asked {
        method,
        target: Bytes::new(target),
        close: seen.close,
        media: seen.media,
        body: Bytes::new(body),
    })
}

/// The method as a text.
pub(crate) fn method_text(method: &[u8]) -> &str
    requires { IsToken method.now }
    ensures { result.now ≡ method.now }
{
    match str::from_utf8(method) {
        Ok(text) => text,
        Err(_) => unreachable!(),
    }
}
