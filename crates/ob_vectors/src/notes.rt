//! A machine, requests and replies that own memory.
use crate::turns::at;
use ob_rows::{push_bytes, push_number, push_words, word_at};
use ob_times::Moment;
use ob_turn::{Answer, Desk, Machine};
use std::alloc::{AllocError, Global};
use std::marker::Model;
use std::sync::Wait;

/// The moments at which something was said. It is neither `Copy` nor `Drop`.
struct Times {
    alloc: Global,
    times: Vec<u64>,
}

impl Model for Times {
    ghost use Rattle.std.specs.Prelude.{List, ℕ};

    ghost Value = { List ℕ };

    ghost view = { λ t. t.times.items };
}

#[derive(Drop)]
struct Note {
    bytes: Vec<u8>,
}

impl Model for Note {
    ghost use Rattle.std.specs.Prelude.{List, ℕ};

    ghost Value = { List ℕ };

    ghost view = { λ w. w.bytes.items };
}

impl Machine for Times {
    ghost use Rattle.std.specs.Prelude.{◌++◌, ◌∷◌, []};

    type Request = Note;

    type Reply = Note;

    ghost act = { λ times note moment. (times ++ moment ∷ [], note) };

    fn step(&mut self, request: &Note, moment: Moment) -> Result<Note, AllocError> {
        let bytes = Vec::from_slice(self.alloc, request.bytes.as_slice())?;
        self.times.push(moment.ms())?;
        Ok(Note { bytes })
    }
}

fn note_of(alloc: Global, text: &str) -> Result<Note, AllocError> {
    let bytes = Vec::from_slice(alloc, text.as_bytes())?;
    Ok(Note { bytes })
}

fn tell_answer(answer: &Answer<Note>, told: &mut String) -> Result<(), AllocError> {
    match answer {
        Answer::Done(note) => push_bytes(told, note.bytes.as_slice())?,
        Answer::NoMemory => return Err(AllocError),
    }
    told.push_str(" ")
}

// What was answered to two notes under two passes, how many shares the second one has, and the moments of the calls.
struct Noted {
    first: Answer<Note>,
    second: Answer<Note>,
    shares: u64,
    times: Vec<u64>,
}

impl Drop for Noted {
    fn drop(self) {
        let Noted {
            first,
            second,
            shares: _,
            times,
        } = self;
        drop(first);
        drop(second);
        drop(times);
    }
}

fn ask_both<R: Wait + AllocGlobal>(rt: &R, hello: &Note, bye: &Note) -> Result<Noted, AllocError> {
    let times = Times {
        alloc: rt.alloc(),
        times: Vec::new(rt.alloc()),
    };
    let (desk, mut pass) = match Desk::new(rt.alloc(), times) {
        Ok(made) => made,
        Err((times, _)) => {
            let Times { alloc: _, times: _ } = times;
            return Err(AllocError);
        }
    };
    let mut other = pass.split(&desk, 4);
    let first = desk.ask(rt, &mut pass, hello, at(7));
    let second = desk.ask(rt, &mut other, bye, at(5));
    let shares = other.shares();
    pass.join(&desk, other);
    let Times { alloc: _, times } = desk.close(pass);
    Ok(Noted {
        first,
        second,
        shares,
        times,
    })
}

fn tell_noted(noted: &Noted, told: &mut String) -> Result<(), AllocError> {
    tell_answer(&noted.first, told)?;
    tell_answer(&noted.second, told)?;
    push_number(told, noted.shares)?;
    push_words(told, &[" shares, at"])?;
    for time in &noted.times {
        push_number(told, *time)?;
        told.push_str(" ")?;
    }
    Ok(())
}

/// Tells what is answered to two notes, the second one under another pass, how many shares that one has, and the moments.
///
/// `AllocError` only for want of memory.
pub(crate) fn tell_notes<R: Wait + AllocGlobal>(
    rt: &R,
    said: &str,
    told: &mut String,
) -> Result<(), AllocError> {
    let hello = note_of(rt.alloc(), word_at(said, 0))?;
    let bye = note_of(rt.alloc(), word_at(said, 1))?;
    tell_noted(&ask_both(rt, &hello, &bye)?, told)
}
