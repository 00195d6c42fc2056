//! What calls over a link answer, one after the other.
use crate::inputs::{failing_call, replies};
use ob_client::{CallFault, Session};
use ob_encoding::encode;
use ob_io::MemLink;
use ob_object::Obj;
use ob_rows::{Row, Table, push_bytes, split_word};
use ob_values::{Text, Verb};
use std::alloc::{AllocError, Global};

/// Rows of a session each: `PIECE REPLIES`, where at most PIECE bytes are given or taken at a call of the link, with the replies
/// on it as those of a link that is dialled. `/obix/n` is got four times: told are the object or the fault of each call, with
/// ` / ` behind it, and then what was written.
#[derive(Drop)]
pub(crate) struct Sessions;

/// Tells what a call answers, with ` / ` behind it. An error only for want of memory.
pub(crate) fn tell_answer(
    alloc: Global,
    answer: Result<Obj, CallFault>,
    told: &mut String,
) -> Result<(), AllocError> {
    match answer {
        Ok(object) => {
            let text = encode(alloc, None, &object)?;
            push_bytes(told, text.as_slice())?;
        }
        Err(fault) => write!(told, "{fault}")?,
    }
    told.push_str(" / ")
}

fn tell_calls(
    alloc: Global,
    session: &mut Session<MemLink>,
    told: &mut String,
) -> Result<(), AllocError> {
    let target = Text::from_ascii(alloc, "/obix/n")?;
    for _ in 0..4 {
        let answer = session.call(Verb::Get, &target, None);
        tell_answer(alloc, answer, told)?;
    }
    Ok(())
}

// The link of a row.
fn link_of(alloc: Global, row: &str) -> Result<MemLink, AllocError> {
    let (piece, said) = split_word(row);
    let (call, said) = failing_call(said);
    let mut failing = Vec::new(alloc);
    if let Some(call) = call {
        failing.push(call)?;
    }
    let piece = piece.parse::<usize>().unwrap_or(1).max(1);
    Ok(MemLink::new(alloc, replies(alloc, said), piece, failing))
}

fn session_on(alloc: Global, link: MemLink) -> Result<Session<MemLink>, AllocError> {
    let host = Text::from_ascii(alloc, "h")?;
    match Session::new(alloc, link, host) {
        Ok(session) => Ok(session),
        Err((link, memory)) => {
            drop(link);
            Err(memory)
        }
    }
}

/// A session with the host `h` over a link that gives these bytes. An error for want of memory.
pub(crate) fn session_over(alloc: Global, bytes: &[u8]) -> Result<Session<MemLink>, AllocError> {
    let bytes = bytes.to_vec(alloc)?;
    session_on(alloc, MemLink::new(alloc, bytes, 4096, Vec::new(alloc)))
}

fn tell_session(alloc: Global, link: MemLink, told: &mut String) -> Result<(), AllocError> {
    let mut session = session_on(alloc, link)?;
    tell_calls(alloc, &mut session, told)?;
    let link = session.end();
    push_bytes(told, link.written().unwrap_or(b"untold"))
}

impl Table for Sessions {
    fn answer(&mut self, alloc: Global, asked: Row, told: &mut String) -> Result<(), AllocError> {
        let link = link_of(alloc, asked.text)?;
        tell_session(alloc, link, told)
    }
}
