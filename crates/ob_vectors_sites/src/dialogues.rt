//! Dialogues over connections: each request as bytes, and the bytes that answer it.
use crate::dialogue::Dialogue;
use crate::requests::numbered;
use crate::sites::{Opening, load_site};
use ob_io::MemLink;
use ob_load::Loaded;
use ob_rows::{Row, Table, push_bytes, text_of};
use ob_server::{Serving, TimedLink, serve_alone};
use ob_times::Moment;
use std::alloc::{AllocError, Global};
use std::sync::Wait;

/// The rows of `Requests`, over connections that give and take at most so many bytes at a time.
///
/// At each row all requests since the site was opened are asked again over a new connection, from the document of the
/// site on. Told is the body of the last answer, or all of its bytes where its head isn't that of such a body.
#[derive(Drop)]
pub(crate) struct Dialogues<'a, R: Wait> {
    rt: &'a R,
    documents: &'a str,
    piece: usize,
    dialogue: Dialogue<'a>,
    answered: usize,
}

// The head of the answer with a body of so many bytes.
fn head_of(alloc: Global, length: usize) -> Result<String, AllocError> {
    format!(in alloc;
        "HTTP/1.1 200 OK\r\nContent-Type: text/xml\r\nContent-Length: {length}\r\n\r\n"
    )
}

// What stands behind the first empty line.
fn behind_head(answer: &[u8]) -> &[u8] {
    let place = answer
        .windows(4)
        .position(|four| four == b"\r\n\r\n".as_slice());
    match place {
        Some(place) => answer.get(place.saturating_add(4)..).unwrap_or(&[]),
        None => &[],
    }
}

// Tells the body of an answer, if its head is the one for it, and else the whole answer.
fn tell_answer(alloc: Global, answer: &[u8], told: &mut String) -> Result<(), AllocError> {
    let body = behind_head(answer);
    let head = head_of(alloc, body.len())?;
    match answer.strip_prefix(head.as_bytes()) {
        Some(body) => push_bytes(told, body),
        None => push_bytes(told, answer),
    }
}

// The last so many bytes, behind `*`, or all of them.
fn tell_last(answer: &str, last: Option<u64>, told: &mut String) -> Result<(), AllocError> {
    let Some(count) = last else {
        return told.push_str(answer);
    };
    let (_, end) = answer
        .as_bytes()
        .split_at(answer.len().saturating_sub(count as usize));
    told.push_str("*")?;
    push_bytes(told, end)
}

impl<'a, R: Wait> Dialogues<'a, R> {
    /// No site; those that are opened have their documents in this file. The connections give and take at most so many
    /// bytes at a time.
    pub(crate) fn new(
        rt: &'a R,
        alloc: Global,
        documents: &'a str,
        piece: usize,
    ) -> Dialogues<'a, R> {
        Dialogues {
            rt,
            documents,
            piece,
            dialogue: Dialogue::new(alloc),
            answered: 0,
        }
    }

    // Begins with the site of a name, and with no request.
    fn open(&mut self, name: &str) -> &'static str {
        self.answered = 0;
        self.dialogue.open(self.documents, name)
    }
}

impl<R: Wait> Dialogues<'_, R> {
    // Asks all requests over a link, from the site of a document on.
    fn serve(&self, alloc: Global, opening: Opening, link: &mut MemLink) {
        let Some(boot) = Moment::new(opening.boot) else {
            return;
        };
        let Ok(Loaded { ns, site }) = load_site(alloc, opening.document.as_bytes(), boot) else {
            return;
        };
        let mut clock = self.dialogue.clock(boot);
        let serving = Serving {
            rt: self.rt,
            alloc,
            ns: ns.as_ref(),
        };
        let mut timed = TimedLink {
            link,
            clock: &mut clock,
        };
        let _end = serve_alone(&serving, site, &mut timed);
    }

    // Asks all requests, and tells the answer to the last one.
    fn ask(&mut self, alloc: Global, told: &mut String) -> Result<(), AllocError> {
        let Some(opening) = self.dialogue.opening() else {
            return told.push_str("no site");
        };
        let mut link = self.dialogue.link(alloc, self.piece)?;
        self.serve(alloc, opening, &mut link);
        let written = link.written().unwrap_or(&[]);
        let answer = written.get(self.answered..).unwrap_or(&[]);
        self.answered = written.len();
        tell_answer(alloc, answer, told)
    }

    fn tell(
        &mut self,
        alloc: Global,
        row: &str,
        last: Option<u64>,
        told: &mut String,
    ) -> Result<(), AllocError> {
        let mut answer = String::new(alloc);
        self.dialogue.push(alloc, row)?;
        self.ask(alloc, &mut answer)?;
        tell_last(answer.as_str(), last, told)
    }
}

impl<R: Wait> Table for Dialogues<'_, R> {
    fn answer(&mut self, alloc: Global, asked: Row, told: &mut String) -> Result<(), AllocError> {
        let row = text_of(asked.bytes);
        if let Some(name) = row.strip_prefix("open ") {
            return told.push_str(self.open(name));
        }
        match row.strip_prefix("*") {
            None => self.tell(alloc, row, None, told),
            Some(rest) => match numbered(rest) {
                Some((count, row)) => self.tell(alloc, row, Some(count), told),
                None => told.push_str("no such row"),
            },
        }
    }
}
