//! A supervisor over links in memory: what it shows, what it replies, and what it asks on each link.
use crate::spelled::{object, push_object};
use ob_io::{Fresh, MemDialer, MemLink};
use ob_rows::{Row, Table, split_word, text_of};
use ob_super::Super;
use std::alloc::{AllocError, Global};

/// A supervisor, row by row:
///
/// `begin CONFIG | LINK | LINK ..`: it follows a config over these links, which are dialled in this order. A link is the
/// bodies of the replies on it, ` ; ` between them, or `undialled`, where the dial fails. A reply has the status 200, but
/// for `404`. `round`: a round. Both tell the tree.
/// `shown PATH`, `put PATH BODY`: what is shown at a path, and the reply to a PUT of this body. `asked`: the requests on each
/// link that came back. `end`: the same when all of them did.
pub(crate) struct Supers {
    made: Option<Super<MemLink>>,
    dialer: MemDialer<MemLink>,
}

impl Drop for Supers {
    fn drop(self) {
        let Supers { made, dialer } = self;
        drop(made);
        drop(dialer);
    }
}

// A reply of this body.
fn push_reply(bytes: &mut Vec<u8>, body: &str) -> Result<(), AllocError> {
    if body == "404" {
        return bytes.extend_from_slice(b"HTTP/1.1 404 No\r\nContent-Length: 0\r\n\r\n");
    }
    let alloc = *bytes.allocator();
    let len = body.len();
    let head = format!(in alloc; "HTTP/1.1 200 OK\r\nContent-Length: {len}\r\n\r\n")?;
    bytes.extend_from_slice(head.as_bytes())?;
    bytes.extend_from_slice(body.as_bytes())
}

// A link whose peer sends the replies of these bodies.
fn link(alloc: Global, bodies: &str) -> Result<Fresh<MemLink>, AllocError> {
    let mut bytes = Vec::new(alloc);
    for body in bodies.split(" ; ") {
        push_reply(&mut bytes, body)?;
    }
    Ok(Fresh::new(MemLink::new(alloc, bytes, 1_000, Vec::new(alloc))))
}

fn links(alloc: Global, said: &str) -> Result<Vec<Fresh<MemLink>>, AllocError> {
    let mut links = Vec::new(alloc);
    for bodies in said.split(" | ") {
        if bodies != "undialled" {
            links.push(link(alloc, bodies)?)?;
        }
    }
    Ok(links)
}

// The numbers of the dials that fail.
fn failing(alloc: Global, said: &str) -> Result<Vec<u64>, AllocError> {
    let mut failing = Vec::new(alloc);
    for (dial, bodies) in said.split(" | ").enumerate() {
        if bodies == "undialled" {
            failing.push(dial as u64)?;
        }
    }
    Ok(failing)
}

fn dialer(alloc: Global, said: &str) -> Result<MemDialer<MemLink>, AllocError> {
    let failing = failing(alloc, said)?;
    let links = links(alloc, said)?;
    Ok(MemDialer::new(alloc, links, failing))
}

// The supervisor of a config, if it is one.
fn supervisor(alloc: Global, config: &str) -> Option<Super<MemLink>> {
    let config = object(alloc, config)?;
    Super::new(alloc, &config, 10_000).ok()
}

// Tells what is shown at a path.
fn tell_shown(
    alloc: Global,
    made: &Super<MemLink>,
    path: &str,
    told: &mut String,
) -> Result<(), AllocError> {
    match &made.shown(path)? {
        Some(shown) => push_object(alloc, None, shown, told),
        None => told.push_str("none"),
    }
}

// Tells the reply to a PUT of this body at a path.
fn tell_put(
    alloc: Global,
    made: &mut Super<MemLink>,
    dialer: &mut MemDialer<MemLink>,
    said: &str,
    told: &mut String,
) -> Result<(), AllocError> {
    let (path, body) = split_word(said);
    let body = object(alloc, body);
    match &made.put(dialer, path, body.as_ref())? {
        Some(reply) => push_object(alloc, None, reply, told),
        None => told.push_str("none"),
    }
}

// Tells the method and the target of a request, in front of which the body of the one before may stand.
fn tell_head(told: &mut String, line: &str) -> Result<(), AllocError> {
    let (_, head) = line.rsplit_once('>').unwrap_or(("", line));
    told.push_str(head)?;
    told.push_str(";")
}

fn tell_heads(told: &mut String, written: &str) -> Result<(), AllocError> {
    for line in written.split("\r\n") {
        if let Some(head) = line.strip_suffix(" HTTP/1.1") {
            tell_head(told, head)?;
        }
    }
    told.push_str("|")
}

// Tells the requests on the links that came back.
fn tell_asked(dialer: &MemDialer<MemLink>, told: &mut String) -> Result<(), AllocError> {
    for link in dialer.links().unwrap_or(&[]) {
        tell_heads(told, text_of(link.written().unwrap_or(b"untold")))?;
    }
    Ok(())
}

impl Supers {
    /// None is begun.
    pub(crate) fn new(alloc: Global) -> Supers {
        Supers {
            made: None,
            dialer: MemDialer::new(alloc, Vec::new(alloc), Vec::new(alloc)),
        }
    }

    // Begins one.
    fn begin(&mut self, alloc: Global, said: &str) -> Result<(), AllocError> {
        let (config, links) = said.split_once(" | ").unwrap_or((said, ""));
        self.dialer = dialer(alloc, links)?;
        self.made = supervisor(alloc, config);
        Ok(())
    }

    // Ends the one that was begun.
    fn end(&mut self) {
        if let Some(made) = self.made.take() {
            made.end(&mut self.dialer);
        }
    }

    // Tells what is asked of the one that was begun.
    fn tell(
        &mut self,
        alloc: Global,
        word: &str,
        said: &str,
        told: &mut String,
    ) -> Result<(), AllocError> {
        let Some(made) = &mut self.made else {
            return told.push_str("no supervisor");
        };
        match word {
            "round" => {
                made.round(&mut self.dialer)?;
                tell_shown(alloc, made, "/obix/", told)
            }
            "shown" => tell_shown(alloc, made, said, told),
            "put" => tell_put(alloc, made, &mut self.dialer, said, told),
            _ => told.push_str("no such row"),
        }
    }
}

impl Table for Supers {
    fn answer(&mut self, alloc: Global, asked: Row, told: &mut String) -> Result<(), AllocError> {
        let (word, said) = split_word(asked.text);
        match word {
            "begin" => {
                self.begin(alloc, said)?;
                self.tell(alloc, "shown", "/obix/", told)
            }
            "end" => {
                self.end();
                tell_asked(&self.dialer, told)
            }
            "asked" => tell_asked(&self.dialer, told),
            _ => self.tell(alloc, word, said, told),
        }
    }
}
