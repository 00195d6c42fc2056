//! What the fields of a head say. They are given as spans of the bytes in which they stand.
ghost use Rattle.std.specs.Prelude.{◌≡◌, ◌≤◌, ◌<◌, ◌+◌, ◌^◌, ◌||◌, ◌&&◌, not, find, position, List, ℕ, length, slice_range, map, option_map, option_copied, All, ◌==◌, Ok, codes, IfSome, IfOk};
ghost use Rattle.std.specs.List.{list_any, list_all};
ghost use Rattle.std.specs.Str.{str_eq_ignore_ascii_case};
ghost use Rattle.httparse.specs.Grammar.{trim_ows, is_ows};
ghost use Rattle.httparse.specs.Spans.{IsHeaderWithin, header_bytes};
ghost use Rattle.ob_http.specs.Fields as spec;

use crate::fault::FrameFault;
use crate::media::Media;
use httparse::spans::HeaderSpan;

/// Whether two names are the same in any case.
fn is_same_name(a: &[u8], b: &[u8]) -> bool
    ensures { result ≡ str_eq_ignore_ascii_case a.now b.now }
{
    a.eq_ignore_ascii_case(b)
}

/// Where the byte first stands.
pub(crate) fn find_byte(value: &[u8], byte: u8) -> Option<usize>
    ensures place { result ≡ position (λ b. b == byte) value.now }
    ensures inside { IfSome result (λ at. (at < length value.now) × (at + 1 < 2 ^ 64)) }
{
    value.iter().position(|b| *b == byte)
}

/// The value without the spaces and tabs at both ends.
fn trim(value: &[u8]) -> &[u8]
    ensures { result.now ≡ trim_ows value.now }
{
    trim_between(value, 0, value.len())
}

/// The part of `start..end` without the spaces and tabs at both ends.
fn trim_between(value: &[u8], mut start: usize, mut end: usize) -> &[u8]
    requires ordered { start ≤ end }
    requires in_range { end ≤ length value.now }
    ensures { result.now ≡ trim_ows (slice_range value.now start end) }
{
    while start < end && is_space(value[start]) {
        start += 1;
    }
    while start < end && is_space(value[end - 1]) {
        end -= 1;
    }
    &value[start..end]
}

fn is_space(byte: u8) -> bool
    ensures { result ≡ is_ows byte }
{
    byte == b' ' || byte == b'\t'
}

/// Whether there is a field of this name.
fn has_field(bytes: &[u8], headers: &[HeaderSpan], name: &[u8]) -> bool
    requires { All (IsHeaderWithin (length bytes.now)) headers.now }
    ensures { result ≡ list_any (λ h. spec.is_named name.now (header_bytes bytes.now h)) headers.now }
{
    headers
        .iter()
        .any(|header| is_same_name(header.name.of(bytes), name))
}

/// The value of the first field of this name.
fn first_value<'a>(bytes: &'a [u8], headers: &[HeaderSpan], name: &[u8]) -> Option<&'a [u8]>
    requires { All (IsHeaderWithin (length bytes.now)) headers.now }
    ensures { option_copied result ≡ option_map (λ h. (header_bytes bytes.now h).1)
        (find (λ h. spec.is_named name.now (header_bytes bytes.now h)) headers.now) }
{
    headers
        .iter()
        .find(|header| is_same_name(header.name.of(bytes), name))
        .map(|header| header.value.of(bytes))
}

/// The number that a Content-Length writes.
fn read_length(value: &[u8]) -> Option<usize>
    ensures value { result ≡ spec.length_value value.now }
    ensures small { IfSome result (λ n. n < 10 ^ 18) }
{
    if value.is_empty() || value.len() > 18 {
        return None;
    }
    let mut number = 0;
    for digit in value {
        if !digit.is_ascii_digit() {
            return None;
        }
        number = 10 * number + (*digit - b'0') as usize;
    }
    Some(number)
}

/// Whether each Content-Length writes this number.
fn each_writes(bytes: &[u8], headers: &[HeaderSpan], number: usize) -> bool
    requires { All (IsHeaderWithin (length bytes.now)) headers.now }
    ensures { result ≡ list_all (λ h. not (spec.is_named (codes "content-length") (header_bytes bytes.now h))
        || spec.is_length number (header_bytes bytes.now h).1) headers.now }
{
    headers.iter().all(|header| {
        !is_same_name(header.name.of(bytes), b"content-length")
            || read_length(header.value.of(bytes)) == Some(number)
    })
}

/// The length of the body that follows a head: `absent` where no Content-Length tells it.
pub(crate) fn body_length(
    bytes: &[u8],
    headers: &[HeaderSpan],
    absent: Result<usize, FrameFault>,
    limit: usize,
) -> Result<usize, FrameFault>
    requires within { All (IsHeaderWithin (length bytes.now)) headers.now }
    requires fits { IfOk absent (λ n. n ≤ limit) }
    ensures value { result ≡ spec.body_length absent limit (map (header_bytes bytes.now) headers.now) }
    ensures small { IfOk result (λ n. n ≤ limit) }
{
    if has_field(bytes, headers, b"transfer-encoding") {
        return Err(FrameFault::NoLength);
    }
    let Some(value) = first_value(bytes, headers, b"content-length") else {
        return absent;
    };
    let Some(length) = read_length(value) else {
        return Err(FrameFault::Length);
    };
    if !each_writes(bytes, headers, length) {
        return Err(FrameFault::Length);
    }
    if length > limit {
        return Err(FrameFault::BodyBig);
    }
    Ok(length)
}

/// Whether a part of a value is this word, in any case.
fn is_word(part: &[u8], word: &[u8]) -> bool
    ensures { result ≡ str_eq_ignore_ascii_case (trim_ows part.now) word.now }
{
    is_same_name(trim(part), word)
}

/// Whether a Content-Type is one of XML.
fn is_xml(value: &[u8]) -> bool
    ensures { result ≡ spec.is_xml value.now }
{
    let end = find_byte(value, b';').unwrap_or(value.len());
    is_word(&value[..end], b"text/xml") || is_word(&value[..end], b"application/xml")
}

/// The media type of the body.
pub(crate) fn media_of(bytes: &[u8], headers: &[HeaderSpan]) -> Media
    requires { All (IsHeaderWithin (length bytes.now)) headers.now }
    ensures { result ≡ spec.media_of (map (header_bytes bytes.now) headers.now) }
{
    match first_value(bytes, headers, b"content-type") {
        None => Media::Absent,
        Some(value) => {
            if is_xml(value) {
                Media::Xml
            } else {
                Media::Other
            }
        }
    }
}

/// Whether a list has this word.
fn has_word(value: &[u8], word: &[u8]) -> bool
    ensures { result ≡ spec.has_word word.now value.now }
{
    let mut rest = value;
    while let Some(at) = find_byte(rest, b',') {
        if is_word(&rest[..at], word) {
            return true;
        }
        rest = &rest[at + 1..];
    }
    is_word(rest, word)
}

/// Whether the sender closes the connection behind a message of this version.
pub(crate) fn asks_close(bytes: &[u8], headers: &[HeaderSpan], minor: u8) -> bool
    requires { All (IsHeaderWithin (length bytes.now)) headers.now }
    ensures { result ≡ spec.asks_close minor (map (header_bytes bytes.now) headers.now) }
{
    minor == 0 || names_close(bytes, headers)
}

fn names_close(bytes: &[u8], headers: &[HeaderSpan]) -> bool
    requires { All (IsHeaderWithin (length bytes.now)) headers.now }
    ensures { result ≡ list_any (λ h. spec.is_named (codes "connection") (header_bytes bytes.now h)
        && spec.has_word (codes "close") (header_bytes bytes.now h).1) headers.now }
{
    headers.iter().any(|header| {
        is_same_name(header.name.of(bytes), b"connection")
            && has_word(header.value.of(bytes), b"close")
    })
}
