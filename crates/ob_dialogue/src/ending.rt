//! How a dialogue ends.
ghost use Rattle.std.specs.Prelude.{◌≡◌, ◌++◌, IfOk, codes, decimal};
ghost use Rattle.ob_xml.specs.Words.{refusal_words};
ghost use Rattle.ob_dialogue.specs.Words.{frame_word, peer_words};

use ob_console::put_screened;
use ob_encoding::write;
use ob_http::FrameFault;
use ob_object::Obj;
use ob_xml::Refused;
use std::alloc::{AllocError, Global};

/// Why the other side ended a dialogue.
#[derive(Drop)]
pub enum Peer {
    /// A reply has this status, which isn't 200.
    Status(u16),
    /// A reply's body is no document.
    Document(Refused),
    /// The link's bytes go on with no reply.
    Frame(FrameFault),
    /// The link ended before a reply was whole.
    Ended,
    /// A reply is this err.
    Err(Obj),
    /// A reply lacks a child, an alarm, an origin or the form that is needed.
    Shape,
}

/// How a dialogue ends.
#[derive(Drop)]
pub enum Ending {
    /// All polls were answered, and the delete by an object other than an err.
    Done,
    /// A dial failed, or a call on the link that was given back last.
    Link,
    /// The other side ended it.
    Peer(Peer),
    /// The sink failed.
    Write,
    /// There was no memory.
    Memory,
}

/// The name of a fault of framing, as it is printed.
pub fn frame_word(fault: FrameFault) -> &'static str
    ensures { result.now ≡ frame_word fault }
{
    match fault {
        FrameFault::Head => "Head",
        FrameFault::HeadBig => "HeadBig",
        FrameFault::NoLength => "NoLength",
        FrameFault::Length => "Length",
        FrameFault::BodyBig => "BodyBig",
        FrameFault::Memory => "Memory",
    }
}

fn text_of(alloc: Global, text: &str) -> Result<Vec<u8>, AllocError>
    ensures { IfOk result (λ bytes. bytes.items ≡ text.now) }
{
    let mut bytes = Vec::new(alloc);
    bytes.extend_from_slice(text.as_bytes())?;
    Ok(bytes)
}

// The number of a status behind a word.
fn status_words(alloc: Global, status: u16) -> Result<Vec<u8>, AllocError>
    ensures { IfOk result (λ bytes. bytes.items ≡ codes "status " ++ decimal status) }
{
    let words = format!(in alloc; "status {status}")?;
    text_of(alloc, words.as_str())
}

// The words of a refusal behind a word.
fn document_words(alloc: Global, refused: Refused) -> Result<Vec<u8>, AllocError>
    ensures { IfOk result (λ bytes. bytes.items ≡ codes "document " ++ refusal_words refused) }
{
    let words = refused.words(alloc)?;
    let mut bytes = text_of(alloc, "document ")?;
    bytes.extend_from_slice(words.as_bytes())?;
    Ok(bytes)
}

impl Peer {
    /// The words that tell it: `status 404`, `document Markup at 0`, `frame Head`, `ended`, `err` and its canonical text as
    /// `put_screened` puts it, or `shape`. An error only for want of memory.
    pub fn words(&self, alloc: Global) -> Result<Vec<u8>, AllocError>
        ensures { IfOk result (λ bytes. bytes.items ≡ peer_words self.now) }
    {
        match self {
            Peer::Status(status) => status_words(alloc, *status),
            Peer::Document(refused) => document_words(alloc, *refused),
            Peer::Frame(fault) => {
                let mut bytes = text_of(alloc, "frame ")?;
                bytes.extend_from_slice(frame_word(*fault).as_bytes())?;
                Ok(bytes)
            }
            Peer::Ended => text_of(alloc, "ended"),
            Peer::Err(err) => {
                let mut text = Vec::new(alloc);
                write(None, err, &mut text)?;
                let mut bytes = text_of(alloc, "err ")?;
                put_screened(text.as_slice(), &mut bytes)?;
                Ok(bytes)
            }
            Peer::Shape => text_of(alloc, "shape"),
        }
    }
}
