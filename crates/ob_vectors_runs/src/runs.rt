//! Rows of whole runs.
use crate::failing::{Failing, PARTS, Part};
use crate::inputs::{Inputs, two_parts};
use crate::outside::{Case, ran};
use crate::ran::{LinkFaults, Ran};
use ob_rows::{Tally, asked_of, named_part, push_meant, split_word, text_of};
use std::alloc::{AllocError, Global};
use std::rt::Files;
use std::sync::Wait;
use std::thread::Threads;
use std::{fs, io};

/// The text of a name, without its last line feed.
pub(crate) fn text_named<'a>(texts: &'a str, name: &str) -> &'a str {
    match named_part(texts, name) {
        Some((_, text)) => text.strip_suffix("\n").unwrap_or(text),
        None => "no such text",
    }
}

// A row with the texts for the names in it, each between `⟨` and `⟩`.
fn expanded(alloc: Global, texts: &str, row: &str) -> Result<String, AllocError> {
    let mut whole = String::new(alloc);
    for part in row.split('⟨') {
        match part.split_once('⟩') {
            Some((name, rest)) => {
                whole.push_str(text_named(texts, name))?;
                whole.push_str(rest)?;
            }
            None => whole.push_str(part)?,
        }
    }
    Ok(whole)
}

// A word, with the bytes that its signs stand for.
fn meant_word(alloc: Global, word: &str) -> Result<String, AllocError> {
    let mut bytes = Vec::new(alloc);
    push_meant(&mut bytes, word)?;
    String::from_str(alloc, text_of(&bytes))
}

/// The words behind the first one.
pub(crate) fn words_in(alloc: Global, row: &str) -> Result<Vec<String>, AllocError> {
    let mut words = Vec::new(alloc);
    let (_, rest) = split_word(row);
    for word in rest.split(' ') {
        if !word.is_empty() {
            words.push(meant_word(alloc, word)?)?;
        }
    }
    Ok(words)
}

// The first of the words.
fn command_of(words: &[String]) -> &str {
    match words.first() {
        Some(word) => word.as_str(),
        None => "",
    }
}

// What a command takes from the outside.
fn inputs_of<'a>(command: &str, input: &'a str) -> Inputs<'a> {
    match command {
        "serve" => Inputs::Doors(input),
        "keep" => {
            let (record, doors) = two_parts(input);
            Inputs::Kept { record, doors }
        }
        "compact" => {
            let (record, new) = two_parts(input);
            Inputs::Compacted { record, new }
        }
        "watch" | "console" => Inputs::Dials(input),
        "audit" => Inputs::Record(input),
        "schedule" => {
            let (source, file) = two_parts(input);
            Inputs::Scheduled { source, file }
        }
        "super" => {
            let (source, dials) = two_parts(input);
            Inputs::Supervised { source, dials }
        }
        _ => Inputs::Source(input),
    }
}

// What a fault of a link does to a run that takes this.
fn link_faults(inputs: Inputs<'_>) -> LinkFaults {
    match inputs {
        Inputs::Doors(_) | Inputs::Kept { .. } => LinkFaults::Cut,
        Inputs::Supervised { .. } => LinkFaults::Show,
        _ => LinkFaults::End,
    }
}

// The most calls of a part that are made to fail.
const CALLS: u64 = 10_000;

// Lets each call of a part fail in turn, and gives how many there are if all comes out as it is to, or else the call that
// doesn't.
fn count_calls<R: Threads + Wait + Sync + AllocGlobal>(
    rt: &R,
    case: Case<'_>,
    whole: &Ran,
    part: Part,
) -> Result<Result<u64, u64>, AllocError> {
    let faults = link_faults(case.inputs);
    for call in 0..CALLS {
        let failing = Failing { part, call };
        let ran = ran(rt, case, Some(failing))?;
        if ran.is(whole) {
            return Ok(Ok(call));
        }
        if !ran.is_broken(whole, failing, faults) {
            return Ok(Err(call));
        }
    }
    Ok(Err(CALLS))
}

// Tells how many calls of a part there are, if there are any, or which comes out otherwise.
fn tell_calls(part: Part, counted: Result<u64, u64>, told: &mut String) -> Result<(), AllocError> {
    let word = part.word();
    match counted {
        Ok(0) => Ok(()),
        Ok(_) if part == Part::Errors => Ok(()),
        Ok(count) => write!(told, " {word} {count}"),
        Err(call) => write!(told, " {word} otherwise at {call}"),
    }
}

// Lets each call of each part fail in turn, and tells how that goes.
fn tell_failing<R: Threads + Wait + Sync + AllocGlobal>(
    rt: &R,
    case: Case<'_>,
    whole: &Ran,
    told: &mut String,
) -> Result<(), AllocError> {
    told.push_str(" /")?;
    for part in PARTS {
        let counted = count_calls(rt, case, whole, part)?;
        tell_calls(part, counted, told)?;
    }
    Ok(())
}

// Tells how a run goes, and how it goes where calls fail if that is asked.
fn tell_case<R: Threads + Wait + Sync + AllocGlobal>(
    rt: &R,
    case: Case<'_>,
    has_faults: bool,
    told: &mut String,
) -> Result<(), AllocError> {
    let whole = ran(rt, case, None)?;
    whole.tell(told)?;
    if has_faults {
        tell_failing(rt, case, &whole, told)?;
    }
    Ok(())
}

// A word without the mark that it may end with, and whether it does.
fn without_mark<'a>(word: &'a str, mark: &str) -> (&'a str, bool) {
    match word.strip_suffix(mark) {
        Some(front) => (front, true),
        None => (word, false),
    }
}

// Runs what a row asks on a document, and tells how it goes.
fn tell_run<R: Threads + Wait + Sync + AllocGlobal>(
    rt: &R,
    document: &[u8],
    row: &str,
    told: &mut String,
) -> Result<(), AllocError> {
    let (row, input) = row.split_once(" / ").unwrap_or((row, ""));
    let (piece, _) = split_word(row);
    let (piece, has_faults) = without_mark(piece, "*");
    let (piece, is_scarce) = without_mark(piece, "!");
    let words = words_in(rt.alloc(), row)?;
    let case = Case {
        piece: piece.parse::<usize>().unwrap_or(1),
        is_scarce,
        words: &words,
        document,
        inputs: inputs_of(command_of(&words), input),
    };
    tell_case(rt, case, has_faults, told)
}

// Puts a text into the file `site`, or runs what a row asks; tells what comes of it.
fn tell_row<R: Threads + Wait + Sync + AllocGlobal>(
    rt: &R,
    document: &mut Vec<u8>,
    row: &str,
    told: &mut String,
) -> Result<(), AllocError> {
    match row.strip_prefix("document ") {
        Some(text) => {
            document.clear();
            push_meant(document, text)?;
            told.push_str("taken")
        }
        None => tell_run(rt, document, row, told),
    }
}

// Asks a row, and counts it unless it is a remark.
fn ask<R: Threads + Wait + Sync + Print + AllocGlobal>(
    rt: &R,
    document: &mut Vec<u8>,
    row: &str,
    tally: &mut Tally,
) -> io::Result<()> {
    let Some(text) = asked_of(row) else {
        return Ok(());
    };
    let mut told = String::new(rt.alloc());
    tell_row(rt, document, text, &mut told)?;
    tally.count(rt, row, told.as_str())
}

// Asks all rows, and prints how many there are.
fn ask_all<R: Threads + Wait + Sync + Print + AllocGlobal>(
    rt: &R,
    file: &str,
    rows: &str,
    texts: &str,
) -> io::Result<()> {
    let mut document = Vec::new(rt.alloc());
    let mut tally = Tally::new();
    for row in rows.lines() {
        let row = expanded(rt.alloc(), texts, row)?;
        ask(rt, &mut document, row.as_str(), &mut tally)?;
    }
    tally.print(rt, file)
}

/// Asks the rows of the file of a name, of one run each, over files of which the one of the name `site` is there, and prints
/// those that come out otherwise and how many there are.
///
/// `⟨NAME⟩` in a row stands for the text of that name. `document TEXT` puts a text into the file `site`. `PIECE WORDS / INPUT`
/// runs the words, where at most PIECE bytes are given or taken at a call, with what comes from the outside behind the bar;
/// told is how it went. With `PIECE*` each call of the outside fails in turn, each in a run of its own; told is behind ` / `
/// how many of each part did, but for standard error, or which comes out otherwise than it is to. With `PIECE!` there is no
/// memory for a file that is read.
///
/// An `io::Error` where the file isn't there, or for want of memory.
pub(crate) fn run_rows<R: Threads + Wait + Sync + Print + Files + AllocGlobal>(
    rt: &R,
    file: &str,
    texts: &str,
) -> io::Result<()> {
    let rows = fs::read_to_string(rt, file)?;
    ask_all(rt, file, rows.as_str(), texts)
}
