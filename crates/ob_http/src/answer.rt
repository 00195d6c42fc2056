//! The texts that answer.
ghost use Rattle.std.specs.Prelude.{◌≡◌, ◌≢◌, ◌++◌, ◌==◌, List, ℕ, IfOk, OnOk, OnErr, length, string_bytes};
ghost use Rattle.std.specs.Fmt as std;
ghost use Rattle.ob_http.specs.Answer as spec;
ghost use Rattle.ob_http.specs.Answer.{answer_text, refusal_text, Grows};
ghost use Rattle.ob_http.specs.declared.fault.FrameFault.TheVariants.{Memory};

use crate::fault::FrameFault;
use std::alloc::{AllocError, Global};

/// How a request was answered.
#[derive(Clone, Copy, PartialEq, Eq)]
pub enum StatusLine {
    /// 200.
    Done,
    /// 400.
    BadRequest,
    /// 405, with the methods that are allowed.
    NotAllowed,
    /// 415.
    BadMedia,
}

/// The room for an answer's head, in bytes.
const HEAD_ROOM: usize = 128;

/// The answer with this status and body; `close` says that the connection ends behind it.
pub fn write_answer(
    alloc: Global,
    line: StatusLine,
    close: bool,
    body: &[u8],
) -> Result<Vec<u8>, AllocError>
    ensures { IfOk result (λ text. text.items ≡ answer_text line close body.now) }
{
    let mut text = Vec::with_capacity(alloc, HEAD_ROOM)?;
    append_answer(alloc, &mut text, line, close, body)?;
    Ok(text)
}

/// Puts the answer with this status and body behind the text, as `write_answer` writes it. For want of
/// memory the text stays as it was.
pub fn append_answer(
    alloc: Global,
    text: &mut Vec<u8>,
    line: StatusLine,
    close: bool,
    body: &[u8],
) -> Result<(), AllocError>
    ensures ok { OnOk result (text.new.items ≡ text.old.items ++ answer_text line close body.now) }
    ensures err { OnErr result (text.new.items ≡ text.old.items) }
{
    let start = text.len();
    let digits = decimal(alloc, body.len())?;
    let done = push_answer(text, line, close, digits.as_bytes(), body);
    if done.is_err() {
        text.truncate(start);
    }
    done
}

/// Puts the answer behind the text, or a front of it; the digits are the body's length.
fn push_answer(
    text: &mut Vec<u8>,
    line: StatusLine,
    close: bool,
    digits: &[u8],
    body: &[u8],
) -> Result<(), AllocError>
    ensures ok { digits.now ≡ std.decimal (length body.now)
        → OnOk result (text.new.items ≡ text.old.items ++ answer_text line close body.now) }
    ensures grows { Grows text.old.items text.new.items }
{
    push_parts(
        text,
        status_bytes(line),
        type_bytes(line, body.is_empty()),
        b"Content-Length: ",
    )?;
    push_parts(text, digits, b"\r\n", allow_bytes(line))?;
    push_parts(text, close_bytes(close), b"\r\n", body)
}

/// The number in decimal digits.
pub(crate) fn decimal(alloc: Global, n: usize) -> Result<String, AllocError>
    ensures { IfOk result (λ text. string_bytes text ≡ std.decimal n) }
{
    format!(in alloc; "{n}")
}

/// Puts three parts behind the text, or a front of them.
pub(crate) fn push_parts(text: &mut Vec<u8>, a: &[u8], b: &[u8], c: &[u8]) -> Result<(), AllocError>
    ensures ok { OnOk result (text.new.items ≡ text.old.items ++ (a.now ++ (b.now ++ c.now))) }
    ensures grows { Grows text.old.items text.new.items }
{
    text.extend_from_slice(a)?;
    text.extend_from_slice(b)?;
    text.extend_from_slice(c)
}

fn status_bytes(line: StatusLine) -> &'static [u8]
    ensures { result.now ≡ spec.status_text line }
{
    match line {
        StatusLine::Done => b"HTTP/1.1 200 OK\r\n",
        StatusLine::BadRequest => b"HTTP/1.1 400 Bad Request\r\n",
        StatusLine::NotAllowed => b"HTTP/1.1 405 Method Not Allowed\r\n",
        StatusLine::BadMedia => b"HTTP/1.1 415 Unsupported Media Type\r\n",
    }
}

fn type_bytes(line: StatusLine, is_empty: bool) -> &'static [u8]
    ensures { (body : List ℕ) → is_empty ≡ (length body == 0) → result.now ≡ spec.type_text line body }
{
    match line {
        StatusLine::Done => b"Content-Type: text/xml\r\n",
        StatusLine::BadRequest if !is_empty => b"Content-Type: text/plain\r\n",
        _ => b"",
    }
}

fn allow_bytes(line: StatusLine) -> &'static [u8]
    ensures { result.now ≡ spec.allow_text line }
{
    match line {
        StatusLine::NotAllowed => b"Allow: GET, PUT, POST\r\n",
        _ => b"",
    }
}

fn close_bytes(close: bool) -> &'static [u8]
    ensures { result.now ≡ spec.close_text close }
{
    if close { b"Connection: close\r\n" } else { b"" }
}

/// The answer to what begins no request, behind which the connection ends; the fault isn't Memory.
pub fn refusal_bytes(fault: FrameFault) -> &'static [u8]
    requires { fault ≢ Memory }
    ensures { result.now ≡ refusal_text fault }
{
    match fault {
        FrameFault::Head | FrameFault::Length => {
            b"HTTP/1.1 400 Bad Request\r\nContent-Length: 0\r\nConnection: close\r\n\r\n"
        }
        FrameFault::HeadBig => {
            b"HTTP/1.1 431 Request Header Fields Too Large\r\nContent-Length: 0\r\nConnection: close\r\n\r\n"
        }
        FrameFault::NoLength => {
            b"HTTP/1.1 411 Length Required\r\nContent-Length: 0\r\nConnection: close\r\n\r\n"
        }
        FrameFault::BodyBig => {
            b"HTTP/1.1 413 Content Too Large\r\nContent-Length: 0\r\nConnection: close\r\n\r\n"
        }
        FrameFault::Memory => b"",
    }
}
