//! Sites at their limits: what is asked of them many times.
use crate::requests::Requests;
use ob_rows::{Row, Table, push_meant, split_word};
use std::alloc::{AllocError, Global};

/// Rows of `Requests`, each behind a count or a range of numbers, as `98..100`: it is asked once for each of them, a count
/// being those from 1 on, with the number in place of each `@`. Told is what comes out the last time.
#[derive(Drop)]
pub(crate) struct Limits<'a> {
    requests: Requests<'a>,
}

impl<'a> Limits<'a> {
    /// No site, and the documents of those that are opened.
    pub(crate) fn new(sites: &'a str) -> Limits<'a> {
        Limits {
            requests: Requests::new(sites),
        }
    }

    // Asks a row with a number in place of each `@`.
    fn ask(
        &mut self,
        alloc: Global,
        row: &str,
        number: u32,
        told: &mut String,
    ) -> Result<(), AllocError> {
        let text = with_number(alloc, row, number)?;
        let mut bytes = Vec::new(alloc);
        push_meant(&mut bytes, text.as_str())?;
        let asked = Row {
            text: text.as_str(),
            bytes: bytes.as_slice(),
        };
        self.requests.answer(alloc, asked, told)
    }
}

// The first and the last number that a word stands for.
fn numbers_of(word: &str) -> (u32, u32) {
    let (first, last) = word.split_once("..").unwrap_or(("1", word));
    (first.parse().unwrap_or(1), last.parse().unwrap_or(0))
}

// A row with a number in place of each `@`.
fn with_number(alloc: Global, row: &str, number: u32) -> Result<String, AllocError> {
    let mut text = String::new(alloc);
    for (place, part) in row.split('@').enumerate() {
        if place > 0 {
            write!(text, "{number}")?;
        }
        text.push_str(part)?;
    }
    Ok(text)
}

impl Table for Limits<'_> {
    fn answer(&mut self, alloc: Global, asked: Row, told: &mut String) -> Result<(), AllocError> {
        let (word, row) = split_word(asked.text);
        let (first, last) = numbers_of(word);
        for number in first..last.saturating_add(1) {
            told.clear();
            self.ask(alloc, row, number, told)?;
        }
        Ok(())
    }
}
