//! Records of dialogues: each is legal, and with another byte in a reply it is illegal at that entry.
use crate::audits::{
    Alone, entries_of, find_steady, illegal, is_illegal_at_each, know_first, legal,
};
use crate::dialogue::Dialogue;
use crate::sites::{Opening, site_of};
use ob_record::{Run, read_record, record_run};
use ob_rows::{Row, Table, asked_of, push_meant, split_word, text_of};
use ob_site::Site;
use ob_times::Moment;
use std::alloc::{AllocError, Global};

/// Rows of a dialogue each, by the remark above it in the file of dialogues.
///
/// Told are the number of its requests, how many entries its record has, which is `legal`, and how many bytes of replies are
/// altered: each, but of a reply of more than 2,048 each thousandth behind these. With any one of them another one, in its last
/// bit, the record is `illegal` at that entry, with the reply that was recorded as the one that should have been told. So it is
/// for the record of that entry alone, from the state to which those in front of it lead, and, with the first byte of a reply,
/// for the whole record.
#[derive(Drop)]
pub(crate) struct Records<'a> {
    dialogues: &'a str,
    documents: &'a str,
    /// The first entries of the dialogues so far, each with its site.
    firsts: Vec<Vec<u8>>,
}

// The rows under a remark.
fn rows_under<'a>(dialogues: &'a str, remark: &str) -> &'a str {
    for part in dialogues.split("### ") {
        let (head, rows) = part.split_once('\n').unwrap_or((part, ""));
        if head == remark {
            return rows;
        }
    }
    ""
}

// What a row asks, without the number of bytes that it asks for.
fn request_of(row: &str) -> &str {
    match row.strip_prefix("*") {
        Some(rest) => {
            let (_, row) = split_word(rest);
            row
        }
        None => row,
    }
}

// The record of what a dialogue asks of a site.
fn record_on(alloc: Global, dialogue: &Dialogue, boot: Moment, site: &mut Site) -> Option<Vec<u8>> {
    let mut link = dialogue.link(alloc, 65_536).ok()?;
    let mut clock = dialogue.clock(boot);
    let _end = record_run(alloc, site, boot, &mut link, &mut clock);
    link.written()?.to_vec(alloc).ok()
}

// The record of a dialogue with the site that this opens.
fn record_of(alloc: Global, dialogue: &Dialogue, opening: Opening) -> Option<Vec<u8>> {
    let boot = Moment::new(opening.boot)?;
    let mut site = site_of(alloc, opening)?;
    record_on(alloc, dialogue, boot, &mut site)
}

// The run that a record is of.
fn run_of(alloc: Global, record: &[u8]) -> Option<Run> {
    let record = record.to_vec(alloc).ok()?;
    read_record(alloc, record).ok()
}

// Tells what audits find of a record, which has these entries.
fn tell_audits(
    alloc: Global,
    opening: Opening,
    record: &[u8],
    entries: &[Alone],
    told: &mut String,
) -> Result<(), AllocError> {
    match legal(alloc, opening, record) {
        Some(count) => write!(told, "legal {count}")?,
        None => told.push_str("not legal")?,
    }
    if !is_illegal_at_each(alloc, opening, record, entries) {
        told.push_str(", not illegal as a whole")?;
    }
    match illegal(alloc, opening, entries) {
        Some(count) => write!(told, ", illegal {count}"),
        None => told.push_str(", not illegal"),
    }
}

// Tells what audits find of a record.
fn tell_record(
    alloc: Global,
    firsts: &mut Vec<Vec<u8>>,
    opening: Opening,
    record: &[u8],
    told: &mut String,
) -> Result<(), AllocError> {
    let Some(run) = run_of(alloc, record) else {
        return told.push_str("no record");
    };
    let mut entries = entries_of(alloc, &run)?;
    know_first(alloc, firsts, opening, &mut entries)?;
    find_steady(alloc, opening, &mut entries);
    tell_audits(alloc, opening, record, &entries, told)
}

// Tells how many requests a dialogue has, and what audits find of its record.
fn tell(
    alloc: Global,
    firsts: &mut Vec<Vec<u8>>,
    dialogue: &Dialogue,
    told: &mut String,
) -> Result<(), AllocError> {
    let Some(opening) = dialogue.opening() else {
        return told.push_str("no site");
    };
    let Some(record) = record_of(alloc, dialogue, opening) else {
        return told.push_str("no record");
    };
    let requests = dialogue.len();
    write!(told, "requests {requests}, ")?;
    tell_record(alloc, firsts, opening, &record, told)
}

impl<'a> Records<'a> {
    /// The records of the dialogues of a file, whose sites have their documents in another one.
    pub(crate) fn new(alloc: Global, dialogues: &'a str, documents: &'a str) -> Records<'a> {
        Records {
            dialogues,
            documents,
            firsts: Vec::new(alloc),
        }
    }

    // Takes what a row asks into a dialogue, unless it is a remark.
    fn push(
        &self,
        alloc: Global,
        dialogue: &mut Dialogue<'a>,
        row: &str,
    ) -> Result<(), AllocError> {
        let Some(text) = asked_of(row) else {
            return Ok(());
        };
        let mut bytes = Vec::new(alloc);
        push_meant(&mut bytes, text)?;
        let asked = text_of(&bytes);
        match asked.strip_prefix("open ") {
            Some(name) => {
                dialogue.open(self.documents, name);
                Ok(())
            }
            None => dialogue.push(alloc, request_of(asked)),
        }
    }

    // The dialogue under a remark.
    fn dialogue(&self, alloc: Global, remark: &str) -> Result<Dialogue<'a>, AllocError> {
        let mut dialogue = Dialogue::new(alloc);
        for row in rows_under(self.dialogues, remark).lines() {
            self.push(alloc, &mut dialogue, row)?;
        }
        Ok(dialogue)
    }
}

impl Table for Records<'_> {
    fn answer(&mut self, alloc: Global, asked: Row, told: &mut String) -> Result<(), AllocError> {
        let dialogue = self.dialogue(alloc, asked.text)?;
        tell(alloc, &mut self.firsts, &dialogue, told)
    }
}
