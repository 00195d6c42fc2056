//! What comes from the outside, as rows spell it.
use ob_rows::{push_meant, split_word};
use std::alloc::{AllocError, Global};

/// What comes from the outside.
#[derive(Clone, Copy)]
pub(crate) enum Inputs<'a> {
    /// The bytes of the source.
    Source(&'a str),
    /// The bytes of the file `record`.
    Record(&'a str),
    /// The links that come to doors: ` || ` stands between doors, ` | ` between the links of a door. `waits ` before the bytes
    /// of a link says that it gives nothing to read before the link with `wakes ` was written to.
    Doors(&'a str),
    /// The bytes of the record's file, and the links that come to doors.
    Kept { record: &'a str, doors: &'a str },
    /// The bytes of the record's file, and those of the file `new`.
    Compacted { record: &'a str, new: &'a str },
    /// The replies on links that are dialled: ` | ` stands between links, ` ; ` between replies. A reply is its body, of status
    /// 200; or all of its bytes, where it begins with `HTTP/`. `fails N ` before the replies says that this call of the link
    /// fails, reads and writes counted as one, the first being 0.
    Dials(&'a str),
    /// The bytes of the source, and those of the file `schedules`.
    Scheduled { source: &'a str, file: &'a str },
    /// The bytes of the source, and the replies on links that are dialled. A link `undialled` says that the dial fails.
    Supervised { source: &'a str, dials: &'a str },
}

/// What comes from the outside in two parts: ` || ` stands between them.
pub(crate) fn two_parts(input: &str) -> (&str, &str) {
    input.split_once(" || ").unwrap_or((input, ""))
}

/// What a link waits for.
#[derive(Clone, Copy, PartialEq, Eq)]
pub(crate) enum Turn {
    Free,
    Waits,
    Wakes,
}

/// The bytes that a text stands for; a front of them where memory is wanting.
pub(crate) fn meant(alloc: Global, text: &str) -> Vec<u8> {
    let mut bytes = Vec::new(alloc);
    let _ = push_meant(&mut bytes, text);
    bytes
}

fn push_reply(alloc: Global, bytes: &mut Vec<u8>, reply: &str) -> Result<(), AllocError> {
    if reply.starts_with("HTTP/") || reply.is_empty() {
        return push_meant(bytes, reply);
    }
    let body = meant(alloc, reply);
    let length = body.len();
    let head = format!(in alloc; "HTTP/1.1 200 OK\r\nContent-Length: {length}\r\n\r\n")?;
    bytes.extend_from_slice(head.as_bytes())?;
    bytes.extend_from_slice(&body)
}

/// The bytes of the replies on a link; a front of them where memory is wanting.
pub(crate) fn replies(alloc: Global, link: &str) -> Vec<u8> {
    let mut bytes = Vec::new(alloc);
    for reply in link.split(" ; ") {
        let _ = push_reply(alloc, &mut bytes, reply);
    }
    bytes
}

/// The call of a link that is dialled that fails, if one does, and the replies on it.
pub(crate) fn failing_call(link: &str) -> (Option<u64>, &str) {
    match link.strip_prefix("fails ") {
        Some(rest) => {
            let (number, replies) = split_word(rest);
            (number.parse().ok(), replies)
        }
        None => (None, link),
    }
}

/// What a link that comes to a door waits for, and its bytes.
pub(crate) fn turn_of(link: &str) -> (Turn, &str) {
    if let Some(rest) = link.strip_prefix("waits ") {
        return (Turn::Waits, rest);
    }
    match link.strip_prefix("wakes ") {
        Some(rest) => (Turn::Wakes, rest),
        None => (Turn::Free, link),
    }
}
