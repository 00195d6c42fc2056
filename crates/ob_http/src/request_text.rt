//! The texts that ask.
ghost use Rattle.std.specs.Prelude.{◌≡◌, ◌++◌, List, ℕ, IfOk, OnOk};
ghost use Rattle.ob_http.specs.Asking.{request_text, verb_text, body_fields, sized_body};

use crate::answer::{decimal, push_parts};
use ob_values::{Text, Verb};
use std::alloc::{AllocError, Global};

/// The room for the parts of a request's head beside its target and host, in bytes.
const HEAD_ROOM: usize = 128;

/// The request of the verb for the target on the host, with the body. A Get has no body: what is
/// handed in for one is passed over.
pub fn write_request(
    alloc: Global,
    verb: Verb,
    target: &Text,
    host: &Text,
    body: &[u8],
) -> Result<Vec<u8>, AllocError>
    ensures { IfOk result (λ text. text.items ≡ request_text verb target.now host.now body.now) }
{
    let mut text = Vec::with_capacity(alloc, HEAD_ROOM)?;
    push_parts(
        &mut text,
        verb_bytes(verb),
        b" ",
        target.as_str().as_bytes(),
    )?;
    push_parts(
        &mut text,
        b" HTTP/1.1\r\nHost: ",
        host.as_str().as_bytes(),
        b"\r\n",
    )?;
    push_body(alloc, &mut text, verb, body)?;
    Ok(text)
}

fn verb_bytes(verb: Verb) -> &'static [u8]
    ensures { result.now ≡ verb_text verb }
{
    match verb {
        Verb::Get => b"GET",
        Verb::Put => b"PUT",
        Verb::Post => b"POST",
    }
}

/// Puts what follows the Host field behind the text.
fn push_body(alloc: Global, text: &mut Vec<u8>, verb: Verb, body: &[u8]) -> Result<(), AllocError>
    ensures { OnOk result (text.new.items ≡ text.old.items ++ body_fields verb body.now) }
{
    match verb {
        Verb::Get => text.extend_from_slice(b"\r\n"),
        Verb::Put | Verb::Post => push_sized_body(alloc, text, body),
    }
}

/// Puts the fields that tell of the body, the empty line and the body behind the text.
fn push_sized_body(alloc: Global, text: &mut Vec<u8>, body: &[u8]) -> Result<(), AllocError>
    ensures { OnOk result (text.new.items ≡ text.old.items ++ sized_body body.now) }
{
    let length = decimal(alloc, body.len())?;
    push_parts(
        text,
        b"Content-Type: text/xml\r\nContent-Length: ",
        length.as_bytes(),
        b"\r\n\r\n",
    )?;
    text.extend_from_slice(body)?;
    Ok(())
}
