//! Messages that are written, and replies that are read.
use crate::streams::fault_word;
use ob_http::{
    FrameFault, Reply, ReplyFramer, StatusLine, refusal_bytes, write_answer, write_request,
};
use ob_rows::{Row, Table, push_number, push_words, text_of};
use ob_values::{Text, Verb};
use std::alloc::{AllocError, Global};

/// Replies: what is read of pieces, between which a bar stands.
#[derive(Drop)]
pub(crate) struct Replies;

fn tell_reply(told: &mut String, reply: &Reply) -> Result<(), AllocError> {
    push_number(told, u64::from(reply.status))?;
    push_words(told, &["", text_of(reply.body.as_slice()), ";"])
}

// Tells the replies that the framer holds, of which there are few.
fn tell_replies(told: &mut String, framer: &mut ReplyFramer) -> Result<(), AllocError> {
    for _ in 0..8 {
        match framer.take() {
            Ok(Some(reply)) => tell_reply(told, &reply)?,
            Ok(None) => return told.push_str("None; "),
            Err(fault) => return told.push_str(fault_word(fault)),
        }
    }
    Ok(())
}

fn tell_pieces(
    told: &mut String,
    framer: &mut ReplyFramer,
    pieces: &[u8],
) -> Result<(), AllocError> {
    for piece in pieces.split(|byte| *byte == b'|') {
        framer.feed(piece)?;
        tell_replies(told, framer)?;
    }
    Ok(())
}

impl Table for Replies {
    fn answer(&mut self, alloc: Global, asked: Row, told: &mut String) -> Result<(), AllocError> {
        let mut framer = ReplyFramer::new(alloc)?;
        tell_pieces(told, &mut framer, asked.bytes)
    }
}

/// Messages: `answer STATUS CONNECTION BODY`, `request VERB BODY` for `/obix/n` at `h:81`, and `refusal FAULT`.
#[derive(Drop)]
pub(crate) struct Messages;

fn line(status: &str) -> StatusLine {
    match status {
        "Done" => StatusLine::Done,
        "BadRequest" => StatusLine::BadRequest,
        "NotAllowed" => StatusLine::NotAllowed,
        _ => StatusLine::BadMedia,
    }
}

fn verb(word: &str) -> Verb {
    match word {
        "Get" => Verb::Get,
        "Put" => Verb::Put,
        _ => Verb::Post,
    }
}

fn tell_written(
    told: &mut String,
    written: &Result<Vec<u8>, AllocError>,
) -> Result<(), AllocError> {
    match written {
        Ok(bytes) => told.push_str(text_of(bytes.as_slice())),
        Err(_) => Err(AllocError),
    }
}

fn ask_host(alloc: Global, verb: Verb, target: &Text, body: &[u8]) -> Result<Vec<u8>, AllocError> {
    let host = Text::from_ascii(alloc, "h:81")?;
    write_request(alloc, verb, target, &host, body)
}

fn request(alloc: Global, verb: Verb, body: &[u8]) -> Result<Vec<u8>, AllocError> {
    let target = Text::from_ascii(alloc, "/obix/n")?;
    ask_host(alloc, verb, &target, body)
}

fn refusal(word: &str) -> &'static [u8] {
    let fault = match word {
        "Head" => FrameFault::Head,
        "HeadBig" => FrameFault::HeadBig,
        "NoLength" => FrameFault::NoLength,
        "Length" => FrameFault::Length,
        _ => FrameFault::BodyBig,
    };
    refusal_bytes(fault)
}

// The word that a text begins with, and what stands behind its blank.
fn first_word(text: &str) -> (&str, &str) {
    text.split_once(' ').unwrap_or((text, ""))
}

impl Table for Messages {
    fn answer(&mut self, alloc: Global, asked: Row, told: &mut String) -> Result<(), AllocError> {
        let (what, rest) = first_word(asked.text);
        let (word, rest) = first_word(rest);
        match what {
            "answer" => {
                let (connection, body) = first_word(rest);
                let close = connection == "close";
                let written = write_answer(alloc, line(word), close, body.as_bytes());
                tell_written(told, &written)
            }
            "request" => tell_written(told, &request(alloc, verb(word), rest.as_bytes())),
            _ => told.push_str(text_of(refusal(word))),
        }
    }
}
