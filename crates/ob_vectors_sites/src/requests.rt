//! Requests on whole sites, worked one after the other, with their replies.
use crate::sites::open;
use ob_documents::read;
use ob_encoding::encode;
use ob_object::Obj;
use ob_rows::{Row, Table, push_bytes, split_word, text_of};
use ob_site::{Machine, Site};
use ob_site_rules::Request;
use ob_times::Moment;
use ob_values::{Text, Verb};
use std::alloc::{AllocError, Global};

/// Rows that a site answers:
///
/// `open NAME`: opens a site; `VERB TARGET` or `VERB TARGET BODY`: does a request, a second after the one before;
/// a number before the verb is the moment, in milliseconds since 1970, at which it is done instead; and `*COUNT` before
/// all that asks for the last so many bytes of the reply alone.
#[derive(Drop)]
pub(crate) struct Requests<'a> {
    sites: &'a str,
    site: Option<Site>,
    next: u64,
}

fn verb(word: &str) -> Option<Verb> {
    match word {
        "GET" => Some(Verb::Get),
        "PUT" => Some(Verb::Put),
        "POST" => Some(Verb::Post),
        _ => None,
    }
}

// The object that a text is, if it is a document.
fn object(alloc: Global, said: &str) -> Option<Obj> {
    let (_, root) = read(alloc, said.as_bytes()).ok()?.into_parts();
    Some(root)
}

/// The request of a row, if it is one.
pub(crate) fn request(alloc: Global, asked: &str) -> Option<Request> {
    let (word, rest) = asked.split_once(' ')?;
    let (target, said) = split_word(rest);
    let verb = verb(word)?;
    let target = Text::from_utf8(alloc, target.as_bytes()).ok()?;
    if said.is_empty() {
        return Some(Request {
            verb,
            target,
            body: None,
        });
    }
    let body = object(alloc, said)?;
    Some(Request {
        verb,
        target,
        body: Some(body),
    })
}

/// The number before a row, and what is behind it.
pub(crate) fn numbered(row: &str) -> Option<(u64, &str)> {
    let (word, rest) = row.split_once(' ')?;
    let number = word.parse::<u64>().ok()?;
    Some((number, rest))
}

/// Tells a reply, or its last so many bytes behind `*`.
pub(crate) fn tell_reply(
    alloc: Global,
    reply: &Obj,
    last: Option<u64>,
    told: &mut String,
) -> Result<(), AllocError> {
    let bytes = encode(alloc, None, reply)?;
    match last {
        None => push_bytes(told, bytes.as_slice()),
        Some(count) => {
            let (_, end) = bytes
                .as_slice()
                .split_at(bytes.len().saturating_sub(count as usize));
            told.push_str("*")?;
            push_bytes(told, end)
        }
    }
}

impl<'a> Requests<'a> {
    /// No site, and the documents of those that are opened.
    pub(crate) fn new(sites: &'a str) -> Requests<'a> {
        Requests {
            sites,
            site: None,
            next: 0,
        }
    }

    // Opens the site of a name.
    fn open(&mut self, alloc: Global, name: &str) -> &'static str {
        self.site = open(alloc, self.sites, name);
        match &self.site {
            Some(site) => {
                self.next = site.time().ms();
                "opened"
            }
            None => "no site",
        }
    }

    // Does a request on the site, at the next moment. None if there is no site.
    fn step(&mut self, request: &Request) -> Result<Option<Obj>, AllocError> {
        let moment = Moment::new(self.next);
        self.next = self.next.saturating_add(1000);
        match (&mut self.site, moment) {
            (Some(site), Some(moment)) => Ok(Some(site.step(request, moment)?)),
            _ => Ok(None),
        }
    }

    // Tells the reply to what a row asks.
    fn ask(
        &mut self,
        alloc: Global,
        row: &str,
        last: Option<u64>,
        told: &mut String,
    ) -> Result<(), AllocError> {
        let (moment, row) = numbered(row).unwrap_or((self.next, row));
        self.next = moment;
        let Some(request) = request(alloc, row) else {
            return told.push_str("no such row");
        };
        match self.step(&request)? {
            Some(reply) => tell_reply(alloc, &reply, last, told),
            None => told.push_str("no site"),
        }
    }
}

impl Table for Requests<'_> {
    fn answer(&mut self, alloc: Global, asked: Row, told: &mut String) -> Result<(), AllocError> {
        let row = text_of(asked.bytes);
        if let Some(name) = row.strip_prefix("open ") {
            return told.push_str(self.open(alloc, name));
        }
        match row.strip_prefix("*") {
            None => self.ask(alloc, row, None, told),
            Some(rest) => match numbered(rest) {
                Some((count, row)) => self.ask(alloc, row, Some(count), told),
                None => told.push_str("no such row"),
            },
        }
    }
}
