//! Streams of requests: what is framed of them, whole and in pieces.
use ob_http::{Asked as Request, FrameFault, Framer, Media, Seen};
use ob_rows::{Row, Table, number_at, push_number, push_words, text_of};
use std::alloc::{AllocError, Global};

// A request, whoever holds its bytes.
#[derive(Clone, Copy)]
struct Shown<'a> {
    method: &'a str,
    target: &'a [u8],
    close: bool,
    media: Media,
    body: &'a [u8],
}

fn of_request(request: &Request) -> Shown<'_> {
    Shown {
        method: request.method.as_str(),
        target: request.target.as_slice(),
        close: request.close,
        media: request.media,
        body: request.body.as_slice(),
    }
}

fn of_seen<'a>(seen: &Seen<'a>) -> Shown<'a> {
    Shown {
        method: seen.method,
        target: seen.target,
        close: seen.close,
        media: seen.media,
        body: seen.body,
    }
}

/// The word of a fault.
pub(crate) fn fault_word(fault: FrameFault) -> &'static str {
    match fault {
        FrameFault::Head => "Head",
        FrameFault::HeadBig => "HeadBig",
        FrameFault::NoLength => "NoLength",
        FrameFault::Length => "Length",
        FrameFault::BodyBig => "BodyBig",
        FrameFault::Memory => "Memory",
    }
}

fn media_word(media: Media) -> &'static str {
    match media {
        Media::Absent => "absent",
        Media::Xml => "xml",
        Media::Other => "other",
    }
}

// Tells the method, the target, what becomes of the connection, the media type and the number of bytes of the body.
fn tell(told: &mut String, shown: Shown) -> Result<(), AllocError> {
    let connection = if shown.close { "close" } else { "open" };
    push_words(told, &[shown.method, text_of(shown.target)])?;
    push_words(told, &[connection, media_word(shown.media)])?;
    push_number(told, shown.body.len() as u64)
}

// Tells a request, and its body.
fn tell_whole(told: &mut String, shown: Shown) -> Result<(), AllocError> {
    tell(told, shown)?;
    push_words(told, &["", text_of(shown.body), ";"])
}

// Tells what the framer takes.
fn tell_taken(told: &mut String, framer: &mut Framer) -> Result<(), AllocError> {
    match framer.take() {
        Ok(Some(request)) => tell(told, of_request(&request)),
        Ok(None) => told.push_str("None"),
        Err(fault) => told.push_str(fault_word(fault)),
    }
}

// Tells what the framer takes, and what it takes then.
fn tell_twice(told: &mut String, framer: &mut Framer) -> Result<(), AllocError> {
    tell_taken(told, framer)?;
    told.push_str("; ")?;
    tell_taken(told, framer)
}

// Tells the whole requests that the framer holds, of which there are few.
fn tell_requests(told: &mut String, framer: &mut Framer) -> Result<(), AllocError> {
    for _ in 0..8 {
        match framer.take() {
            Ok(Some(request)) => tell_whole(told, of_request(&request))?,
            _ => return Ok(()),
        }
    }
    Ok(())
}

// Tells the whole requests as the framer lends them.
fn tell_lent(told: &mut String, framer: &mut Framer) -> Result<(), AllocError> {
    for _ in 0..8 {
        let Ok(Some(seen)) = framer.look() else {
            return Ok(());
        };
        tell_whole(told, of_seen(&seen))?;
        let length = seen.len;
        if length <= framer.kept() {
            framer.drop_front(length);
        }
    }
    Ok(())
}

// Tells where the framer stands, and how many bytes it keeps.
fn tell_rest(told: &mut String, framer: &Framer) -> Result<(), AllocError> {
    push_number(told, framer.kept())?;
    told.push_str(" kept at ")?;
    push_number(told, framer.place())
}

// Feeds a piece of a stream that stays short.
fn feed(framer: &mut Framer, piece: &[u8]) -> Result<(), AllocError> {
    if framer.place() < 1_000_000 && framer.kept() < 1_000_000 && piece.len() < 1_000_000 {
        return framer.feed(piece);
    }
    Ok(())
}

fn feed_often(framer: &mut Framer, piece: &[u8], times: u64) -> Result<(), AllocError> {
    for _ in 0..times {
        feed(framer, piece)?;
    }
    Ok(())
}

// How a stream comes, and what is told of it.
#[derive(Clone, Copy)]
enum Way {
    // Whole: what is taken.
    Whole,
    // Byte by byte: what is taken.
    Bytes,
    // Whole: what is taken, and what is then.
    Twice,
    // A head of so many fields, without the empty line, then with it, and what is taken then.
    Fields(u64),
    // So many letters, then so many more, and what is taken then.
    Letters(u64, u64),
    // Cut at a place, and behind it in pieces of a length: all requests.
    Pieces(usize, usize),
    // Whole: all requests, as they are lent.
    Lent,
}

fn tell_fields(told: &mut String, framer: &mut Framer, count: u64) -> Result<(), AllocError> {
    feed(framer, b"GET / HTTP/1.1\r\n")?;
    feed_often(framer, b"A:\r\n", count)?;
    tell_taken(told, framer)?;
    told.push_str("; ")?;
    feed(framer, b"\r\n")?;
    tell_twice(told, framer)
}

fn tell_letters(
    told: &mut String,
    framer: &mut Framer,
    first: u64,
    second: u64,
) -> Result<(), AllocError> {
    feed_often(framer, b"A", first)?;
    tell_taken(told, framer)?;
    told.push_str("; ")?;
    feed_often(framer, b"A", second)?;
    tell_twice(told, framer)
}

fn tell_pieces(
    told: &mut String,
    framer: &mut Framer,
    stream: &[u8],
    length: usize,
) -> Result<(), AllocError> {
    for piece in stream.chunks(length.max(1)) {
        feed(framer, piece)?;
        tell_requests(told, framer)?;
    }
    Ok(())
}

impl Way {
    fn tell(self, told: &mut String, framer: &mut Framer, stream: &[u8]) -> Result<(), AllocError> {
        match self {
            Way::Whole => {
                feed(framer, stream)?;
                tell_taken(told, framer)
            }
            Way::Bytes => {
                for byte in stream {
                    feed(framer, &[*byte])?;
                }
                tell_taken(told, framer)
            }
            Way::Twice => {
                feed(framer, stream)?;
                tell_twice(told, framer)
            }
            Way::Fields(count) => tell_fields(told, framer, count),
            Way::Letters(first, second) => tell_letters(told, framer, first, second),
            Way::Pieces(cut, length) => {
                let (first, others) = stream.split_at_checked(cut).unwrap_or((stream, &[]));
                tell_pieces(told, framer, first, cut)?;
                tell_pieces(told, framer, others, length)?;
                tell_rest(told, framer)
            }
            Way::Lent => {
                feed(framer, stream)?;
                tell_lent(told, framer)?;
                tell_rest(told, framer)
            }
        }
    }
}

// Tells of a stream that comes in that way.
fn framed(alloc: Global, way: Way, stream: &[u8], told: &mut String) -> Result<(), AllocError> {
    let mut framer = Framer::new(alloc)?;
    way.tell(told, &mut framer, stream)
}

// Whether the stream tells the same in that way. If not, that is told.
fn is_same(alloc: Global, way: Way, stream: &[u8], told: &mut String) -> Result<bool, AllocError> {
    let mut other = String::new(alloc);
    framed(alloc, way, stream, &mut other)?;
    if told.as_str() == other.as_str() {
        return Ok(true);
    }
    push_words(told, &[" but in another way:", other.as_str()])?;
    Ok(false)
}

/// Heads: the first request that a stream begins with, which comes whole, and byte by byte.
#[derive(Drop)]
pub(crate) struct Heads;

impl Table for Heads {
    fn answer(&mut self, alloc: Global, asked: Row, told: &mut String) -> Result<(), AllocError> {
        framed(alloc, Way::Whole, asked.bytes, told)?;
        is_same(alloc, Way::Bytes, asked.bytes, told)?;
        Ok(())
    }
}

/// Heads at the limits: `fields COUNT` is a head of so many fields, without its empty line, then with it, and what is behind it;
/// `letters FIRST SECOND` is a head of so many letters, which comes in two pieces; `twice HEAD` is one that is asked twice.
#[derive(Drop)]
pub(crate) struct Limits;

impl Table for Limits {
    fn answer(&mut self, alloc: Global, asked: Row, told: &mut String) -> Result<(), AllocError> {
        let first = number_at(asked.text, 1).unwrap_or(0);
        let second = number_at(asked.text, 2).unwrap_or(0);
        if let Some(head) = asked.bytes.strip_prefix(b"twice ".as_slice()) {
            return framed(alloc, Way::Twice, head, told);
        }
        let way = match asked.text.starts_with("letters") {
            true => Way::Letters(first, second),
            false => Way::Fields(first),
        };
        framed(alloc, way, b"", told)
    }
}

/// Streams: their requests, each with its body, how many bytes are kept behind them, and at which place. A stream comes whole, in
/// pieces of 1 to 130 bytes, and in two that are cut at each place.
#[derive(Drop)]
pub(crate) struct Streams;

impl Table for Streams {
    fn answer(&mut self, alloc: Global, asked: Row, told: &mut String) -> Result<(), AllocError> {
        let stream = asked.bytes;
        framed(alloc, Way::Pieces(0, stream.len()), stream, told)?;
        is_same(alloc, Way::Lent, stream, told)?;
        for place in 0..=stream.len().max(130) {
            is_same(alloc, Way::Pieces(place, stream.len()), stream, told)?;
            is_same(alloc, Way::Pieces(0, place), stream, told)?;
        }
        Ok(())
    }
}
