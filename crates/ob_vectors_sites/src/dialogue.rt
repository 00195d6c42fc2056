//! A dialogue: a site that is opened, and what is asked of it since.
use crate::moments::Moments;
use crate::requests::numbered;
use crate::sites::{Opening, opening_of};
use ob_io::MemLink;
use ob_rows::split_word;
use ob_times::Moment;
use std::alloc::{AllocError, Global};

/// What is asked of a site since it was opened: the requests as bytes that come over a connection, and their moments.
pub(crate) struct Dialogue<'a> {
    opening: Option<Opening<'a>>,
    requests: Vec<u8>,
    moments: Vec<Moment>,
    next: u64,
}

impl Drop for Dialogue<'_> {
    // By one call for each part.
    fn drop(self) {
        let Dialogue {
            opening: _,
            requests,
            moments,
            next: _,
        } = self;
        drop(requests);
        drop(moments);
    }
}

fn push_length(alloc: Global, bytes: &mut Vec<u8>, length: usize) -> Result<(), AllocError> {
    let field = format!(in alloc; "Content-Length: {length}\r\n")?;
    bytes.extend_from_slice(field.as_bytes())
}

// Puts the bytes of a request behind those that are there: `VERB TARGET` or `VERB TARGET BODY`.
fn push_request(alloc: Global, requests: &mut Vec<u8>, row: &str) -> Result<(), AllocError> {
    let (verb, rest) = split_word(row);
    let (target, body) = split_word(rest);
    requests.extend_from_slice(verb.as_bytes())?;
    requests.extend_from_slice(b" ")?;
    requests.extend_from_slice(target.as_bytes())?;
    requests.extend_from_slice(b" HTTP/1.1\r\n")?;
    if !body.is_empty() {
        push_length(alloc, requests, body.len())?;
    }
    requests.extend_from_slice(b"\r\n")?;
    requests.extend_from_slice(body.as_bytes())
}

impl<'a> Dialogue<'a> {
    /// No site is opened, and nothing is asked.
    pub(crate) fn new(alloc: Global) -> Dialogue<'a> {
        Dialogue {
            opening: None,
            requests: Vec::new(alloc),
            moments: Vec::new(alloc),
            next: 0,
        }
    }

    /// Begins with the site of a name, among the documents of a file, and with no request.
    pub(crate) fn open(&mut self, documents: &'a str, name: &str) -> &'static str {
        self.requests.clear();
        self.moments.clear();
        self.opening = opening_of(documents, name);
        match self.opening {
            Some(opening) => {
                self.next = opening.boot;
                "opened"
            }
            None => "no site",
        }
    }

    /// The opening of its site; None where none was opened.
    pub(crate) fn opening(&self) -> Option<Opening<'a>> {
        self.opening
    }

    /// How many requests it has.
    pub(crate) fn len(&self) -> usize {
        self.moments.len()
    }

    /// Puts what a row asks behind what is asked. The moment of it is the one before it, or a second after the last one.
    pub(crate) fn push(&mut self, alloc: Global, row: &str) -> Result<(), AllocError> {
        let (moment, row) = numbered(row).unwrap_or((self.next, row));
        self.next = moment.saturating_add(1000);
        if let Some(moment) = Moment::new(moment) {
            self.moments.push(moment)?;
        }
        push_request(alloc, &mut self.requests, row)
    }

    /// A connection over which all of it comes, and which gives and takes at most so many bytes at a time.
    pub(crate) fn link(&self, alloc: Global, piece: usize) -> Result<MemLink, AllocError> {
        let requests = self.requests.to_vec(alloc)?;
        Ok(MemLink::new(alloc, requests, piece.max(1), Vec::new(alloc)))
    }

    /// A clock that gives its moments.
    pub(crate) fn clock(&self, boot: Moment) -> Moments<'_> {
        Moments {
            moments: self.moments.as_slice(),
            place: 0,
            last: boot,
        }
    }
}
