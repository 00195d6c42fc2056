//! A document that comes in pieces.

ghost use Rattle.std.specs.Prelude.{◌≡◌, ◌≤◌, length, take};
ghost use Rattle.ob_xml.specs.Refusals.{told_at};

use crate::doc::Doc;
use crate::reading::{MAX_LEN, Reading};
use crate::refused::{Refused, Why};
use std::alloc::Global;

/// Reads a document that comes in pieces, and keeps only the bytes of the construct that isn't whole yet.
///
/// It takes time in proportion to the bytes fed, whatever the pieces, and memory in proportion to the object and
/// the construct in hand. After a refusal, also for want of memory, each further call gives the same one.
pub struct Decoder {
    alloc: Global,
    reading: Reading,
    refused: Option<Refused>,
}

impl Drop for Decoder {
    // By one call for each part, so that to drop a decoder is one call to whoever may have to.
    fn drop(self) {
        let Decoder {
            alloc: _,
            reading,
            refused: _,
        } = self;
        drop(reading);
    }
}

/// The refusal; want of memory is told at the number of bytes fed.
fn of_all(refused: Refused, all: u64) -> Refused
    ensures { result ≡ told_at refused all }
{
    match refused.why {
        Why::Memory => Refused {
            at: all,
            why: Why::Memory,
        },
        _ => refused,
    }
}

/// The bytes of the piece that there is room for.
fn front_of(piece: &[u8], room: usize) -> &[u8]
    ensures value { result.now ≡ take room piece.now }
    ensures len { length result.now ≤ room }
{
    if piece.len() <= room {
        piece
    } else {
        &piece[..room]
    }
}

/// What isn't needed any more.
fn let_go<T: Drop>(_read: T) {}

impl Decoder {
    ghost use Rattle.std.specs.Prelude.{◌≡◌, ℕ, List, [], ◌++◌, Err};
    ghost use Rattle.ob_xml.specs.declared.refused.Refused.{Refused};
    ghost use Rattle.ob_xml.specs.Decoding.{HasRead, HasRefused, Feeds, Finishes, Keeps};

    /// A decoder that was fed nothing.
    pub fn new(alloc: Global) -> Decoder
        ensures { HasRead result [] }
    {
        Decoder {
            alloc,
            reading: Reading::new(alloc),
            refused: None,
        }
    }

    fn refuse(&mut self, refused: Refused) -> Result<(), Refused>
        ensures told { result ≡ Err refused }
        ensures kept { HasRefused self.new refused }
    {
        self.refused = Some(refused);
        Err(refused)
    }

    /// Takes the next bytes of the document. Refuses them exactly where a construct of all bytes so far is refused, with
    /// the place and the cause of the first one; or for want of memory.
    pub fn feed(&mut self, piece: &[u8]) -> Result<(), Refused>
        ensures exact { (bytes : List ℕ) → HasRead self.old bytes → Feeds (bytes ++ piece.now) result self.new }
        ensures again { (refused : Refused) → HasRefused self.old refused → (result ≡ Err refused) × HasRefused self.new refused }
    {
        if let Some(refused) = self.refused {
            return Err(refused);
        }
        let all = self.reading.len() + piece.len() as u64;
        let room = (MAX_LEN - self.reading.len()) as usize;
        let front = front_of(piece, room);
        let reading = std::mem::replace(&mut self.reading, Reading::new(self.alloc));
        match reading.take(self.alloc, front) {
            Ok(reading) => {
                let_go(std::mem::replace(&mut self.reading, reading));
                if piece.len() > room {
                    return self.refuse(Refused {
                        at: MAX_LEN,
                        why: Why::Big,
                    });
                }
                Ok(())
            }
            Err(refused) => self.refuse(of_all(refused, all)),
        }
    }

    /// The document that all bytes spell; or the refusal of the first construct that is refused where the input ends
    /// there; or want of memory.
    pub fn finish(self) -> Result<Doc, Refused>
        ensures exact { (bytes : List ℕ) → HasRead self bytes → Finishes bytes result }
        ensures again { (refused : Refused) → HasRefused self refused → result ≡ Err refused }
    {
        let Decoder {
            alloc,
            reading,
            refused,
        } = self;
        match refused {
            Some(refused) => Err(refused),
            None => reading.end(alloc),
        }
    }

    /// The number of bytes that it keeps: those from the first byte of the tag, comment, instruction, declaration or text
    /// between tags on that isn't whole yet.
    pub fn kept(&self) -> u64
        ensures { (bytes : List ℕ) → HasRead self.now bytes → Keeps bytes result }
    {
        self.reading.kept.len() as u64
    }
}
