// Tables of rows: files that say of each input what is to come out.
//
// A row is a line: its input, ` =>`, and behind a blank what is to come out, unless that is nothing. A line that begins with
// `###` is a remark. ␣, ␉, ␊, ␍, ⏎ (CR LF), ␀ and ␡ stand for those bytes, `‹C3A9›` for the bytes of these numbers of
// base 16, and `‹41*8192›` for so many times these bytes, on either side. `«3|a#»` stands for `a0a1a2`, wherever in a row.
use crate::words::split_bar;
use std::alloc::{AllocError, Global};
use std::rt::Files;
use std::{fs, io};

/// What a row asks: its left side.
#[derive(Clone, Copy)]
pub struct Row<'a> {
    /// The left side as it is written.
    pub text: &'a str,
    /// The bytes that it stands for.
    pub bytes: &'a [u8],
}

/// What answers the rows of a table, from the first to the last.
pub trait Table {
    /// Writes into `told`, which is empty, what comes out of a row.
    ///
    /// `AllocError` only for want of memory.
    fn answer(&mut self, alloc: Global, asked: Row, told: &mut String) -> Result<(), AllocError>;
}

// The bytes that a symbol stands for, if it is one.
fn symbol(character: char) -> Option<&'static [u8]> {
    match character {
        '␣' => Some(b" "),
        '␉' => Some(b"\t"),
        '␊' => Some(b"\n"),
        '␍' => Some(b"\r"),
        '⏎' => Some(b"\r\n"),
        '␀' => Some(b"\0"),
        '␡' => Some(b"\x7f"),
        _ => None,
    }
}

fn push_character(bytes: &mut Vec<u8>, character: char) -> Result<(), AllocError> {
    let mut spelled = [0u8; 4];
    let text = character.encode_utf8(&mut spelled);
    bytes.extend_from_slice(text.as_bytes())
}

fn push_plain(bytes: &mut Vec<u8>, plain: &str) -> Result<(), AllocError> {
    for character in plain.chars() {
        match symbol(character) {
            Some(meant) => bytes.extend_from_slice(meant)?,
            None => push_character(bytes, character)?,
        }
    }
    Ok(())
}

// The number that a digit of base 16 stands for.
fn hex_digit(digit: u8) -> u8 {
    match digit {
        b'0'..=b'9' => digit - b'0',
        b'A'..=b'F' => digit - b'A' + 10,
        _ => 0,
    }
}

fn push_hex(bytes: &mut Vec<u8>, digits: &[u8]) -> Result<(), AllocError> {
    for pair in digits.chunks(2) {
        if let [high, low] = pair {
            bytes.push((hex_digit(*high) & 15) * 16 + (hex_digit(*low) & 15))?;
        }
    }
    Ok(())
}

// The bytes of `C3A9`, or of `41*8192`.
fn push_spelled(bytes: &mut Vec<u8>, spelled: &str) -> Result<(), AllocError> {
    let (digits, count) = spelled.split_once('*').unwrap_or((spelled, "1"));
    for _ in 0..count.parse::<u32>().unwrap_or(0) {
        push_hex(bytes, digits.as_bytes())?;
    }
    Ok(())
}

/// Puts the bytes that a side of a row, or a part of one, stands for behind `bytes`. An error only for want of memory.
pub fn push_meant(bytes: &mut Vec<u8>, side: &str) -> Result<(), AllocError> {
    for part in side.split('‹') {
        match part.split_once('›') {
            Some((spelled, plain)) => {
                push_spelled(bytes, spelled)?;
                push_plain(bytes, plain)?;
            }
            None => push_plain(bytes, part)?,
        }
    }
    Ok(())
}

// What a row asks, and what is to come out.
fn sides(row: &str) -> (&str, &str) {
    match row.split_once(" =>") {
        Some((text, wanted)) => (text, wanted.strip_prefix(" ").unwrap_or(wanted)),
        None => (row, "a row without an arrow"),
    }
}

/// What a row asks as it is written; None for a remark.
pub fn asked_of(row: &str) -> Option<&str> {
    if row.starts_with("###") {
        return None;
    }
    let (text, _) = sides(row);
    Some(text)
}

// Whether that was told which the right side of a row stands for.
fn is_told(alloc: Global, row: &str, told: &str) -> Result<bool, AllocError> {
    let (_, wanted) = sides(row);
    let mut meant = Vec::new(alloc);
    push_meant(&mut meant, wanted)?;
    Ok(told.as_bytes() == meant.as_slice())
}

/// How many rows of a table were asked, and how many of them came out otherwise.
#[derive(Clone, Copy)]
pub struct Tally {
    rows: u32,
    wrong: u32,
}

impl Tally {
    /// None were asked yet.
    pub fn new() -> Tally {
        Tally { rows: 0, wrong: 0 }
    }

    /// Counts a row of which that was told, and prints both if it is to come out otherwise.
    ///
    /// An `io::Error` where it can't be printed, or for want of memory.
    pub fn count<R: Print + AllocGlobal>(
        &mut self,
        rt: &R,
        row: &str,
        told: &str,
    ) -> io::Result<()> {
        self.rows = self.rows.saturating_add(1);
        if is_told(rt.alloc(), row, told)? {
            return Ok(());
        }
        self.wrong = self.wrong.saturating_add(1);
        println!(rt; "otherwise: {row}\n  came out: {told}")
    }

    /// Prints how many there were, of the file of that name.
    ///
    /// An `io::Error` where it can't be printed.
    pub fn print<R: Print + AllocGlobal>(self, rt: &R, file: &str) -> io::Result<()> {
        let Tally { rows, wrong } = self;
        if wrong == 0 {
            println!(rt; "{file}: {rows} rows")
        } else {
            println!(rt; "{file}: {rows} rows, {wrong} of them otherwise")
        }
    }
}

// Writes into `told` what comes out of a row's left side.
fn answer<T: Table>(
    alloc: Global,
    table: &mut T,
    text: &str,
    told: &mut String,
) -> Result<(), AllocError> {
    let mut bytes = Vec::new(alloc);
    push_meant(&mut bytes, text)?;
    let asked = Row {
        text,
        bytes: bytes.as_slice(),
    };
    table.answer(alloc, asked, told)
}

// Puts a part behind a text, with this number in place of each `#`.
fn push_part(text: &mut String, part: &str, number: u32) -> Result<(), AllocError> {
    for (place, piece) in part.split('#').enumerate() {
        if place > 0 {
            write!(text, "{number}")?;
        }
        text.push_str(piece)?;
    }
    Ok(())
}

// Puts the parts behind a text that `3|a#` stands for.
fn push_parts(text: &mut String, spelled: &str) -> Result<(), AllocError> {
    let (count, part) = split_bar(spelled);
    for number in 0..count.parse::<u32>().unwrap_or(0) {
        push_part(text, part, number)?;
    }
    Ok(())
}

// A row in which its repeated parts are written out.
fn written_out(alloc: Global, row: &str) -> Result<String, AllocError> {
    let mut whole = String::new(alloc);
    for part in row.split('«') {
        match part.split_once('»') {
            Some((spelled, rest)) => {
                push_parts(&mut whole, spelled)?;
                whole.push_str(rest)?;
            }
            None => whole.push_str(part)?,
        }
    }
    Ok(whole)
}

// Asks a row, and prints it if it comes out otherwise.
fn ask<R: Print + AllocGlobal, T: Table>(
    rt: &R,
    row: &str,
    table: &mut T,
    tally: &mut Tally,
) -> io::Result<()> {
    let Some(text) = asked_of(row) else {
        return Ok(());
    };
    let mut told = String::new(rt.alloc());
    answer(rt.alloc(), table, text, &mut told)?;
    tally.count(rt, row, told.as_str())
}

// Asks the rows of a table, and prints those that come out otherwise and how many there are.
fn ask_all<R: Print + AllocGlobal, T: Table>(
    rt: &R,
    file: &str,
    rows: &str,
    table: &mut T,
) -> io::Result<()> {
    let mut tally = Tally::new();
    for row in rows.lines() {
        let row = written_out(rt.alloc(), row)?;
        ask(rt, row.as_str(), table, &mut tally)?;
    }
    tally.print(rt, file)
}

/// Asks the rows of the file of that name, and prints those that come out otherwise and how many rows there are.
///
/// An `io::Error` where the file isn't there, or for want of memory.
pub fn run<R: Print + Files + AllocGlobal, T: Table>(
    rt: &R,
    file: &str,
    table: &mut T,
) -> io::Result<()> {
    let rows = fs::read_to_string(rt, file)?;
    ask_all(rt, file, rows.as_str(), table)
}
