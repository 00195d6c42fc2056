//! Requests cut from a stream of bytes that comes in pieces.
ghost use Rattle.std.specs.Prelude.{◌≡◌, ◌≢◌, ◌++◌, ◌+◌, ◌≤◌, ◌<◌, ◌^◌, List, ℕ, [], length, is_ok, IfOk, IfErr, IfSome, if◌then◌else◌};
ghost use Rattle.ob_http.specs.declared.fault.FrameFault.TheVariants.{Memory};
ghost use Rattle.ob_http.specs.Message.{whole};
ghost use Rattle.ob_http.specs.Stream.{Received, behind};
ghost use Rattle.ob_http.specs.Request.{Request, Stands};
ghost use Rattle.ob_http.specs.Requests.{front_of, IsTaken, Takes, Follows, SeesNext, TakesNext};

use crate::asked::Asked;
use crate::buffer::Buffer;
use crate::fault::FrameFault;
use crate::request_head::{HeadPlace, look_at, read_head, read_on};
use crate::seen::{Seen, copy_request};
use std::alloc::{AllocError, Global};
use std::marker::Model;

/// The bytes of a client that were not taken yet, and the request at their front.
///
/// A contract sees the bytes that are kept and how many stood before them. The head is read when it
/// comes, and not again while its body comes.
pub struct Framer {
    alloc: Global,
    buffer: Buffer,
    place: u64,
    known: Result<Option<HeadPlace>, FrameFault>,
}

impl Drop for Framer {
    // By one call, so that to drop a framer is one call to whoever may have to.
    fn drop(self) {
        let Framer {
            alloc: _,
            buffer,
            place: _,
            known: _,
        } = self;
        drop(buffer);
    }
}

impl Model for Framer {
    ghost use Rattle.ob_http.specs.Stream.{Received};
    ghost use Rattle.ob_http.specs.Requests.{IsShort};
    ghost use Rattle.ob_http.specs.Known.{Knows};

    ghost Value = { Received };

    ghost view = { λ f. record { place = f.place; kept = f.buffer } };

    ghost invariant = { λ f. IsShort (record { place = f.place; kept = f.buffer }) × Knows f.buffer f.known };
}

impl Framer {
    /// A framer of a stream of which nothing came yet.
    pub fn new(alloc: Global) -> Result<Framer, AllocError>
        ensures empty { IfOk result (λ framer. framer ≡ record { place = 0; kept = [] }) }
        ensures taken { IfOk result (λ framer. IsTaken [] [] framer) }
    {
        let buffer = Buffer::new(alloc)?;
        let known = read_head(buffer.as_slice());
        Ok(Framer {
            alloc,
            buffer,
            place: 0,
            known,
        })
    }

    /// Puts the next piece of the stream behind what is kept; after an error nothing has changed.
    pub fn feed(&mut self, piece: &[u8]) -> Result<(), AllocError>
        requires { self.old.place + length self.old.kept + length piece.now < 2 ^ 63 }
        ensures kept { self.new ≡ (if is_ok result
            then record self.old { kept = self.old.kept ++ piece.now } else self.old) }
        ensures taken { (stream : List ℕ) (requests : List Request) → IsTaken stream requests self.old
            → IsTaken (if is_ok result then stream ++ piece.now else stream) requests self.new }
    {
        self.buffer.push(piece)?;
        self.known = read_on(self.known, self.buffer.as_slice());
        Ok(())
    }

    /// What `take` would answer, lent: never Memory.
    pub fn look(&self) -> Result<Option<Seen<'_>>, FrameFault>
        ensures front { Stands self.now.kept (front_of result) }
        ensures next { (stream : List ℕ) (requests : List Request) → IsTaken stream requests self.now
            → SeesNext stream requests self.now result }
        ensures within { IfOk result (λ next. IfSome next (λ seen. (0 < seen.len) × (seen.len ≤ length self.now.kept))) }
        ensures lent { IfErr result (λ fault. fault ≢ Memory) }
    {
        self.front()
    }

    fn front(&self) -> Result<Option<Seen<'_>>, FrameFault>
        ensures { Stands self.now.kept (front_of result) }
    {
        look_at(self.known, self.buffer.as_slice())
    }

    /// Takes the request at the front, whose length `look` tells.
    pub fn drop_front(&mut self, len: u64)
        requires { len ≤ length self.old.kept }
        ensures dropped { self.new ≡ behind len self.old }
        ensures next { (stream : List ℕ) (requests : List Request) (request : Request) → IsTaken stream requests self.old
            → Stands self.old.kept (whole request len) → Follows stream requests request self.new }
    {
        self.drop_bytes(len);
    }

    fn drop_bytes(&mut self, len: u64)
        requires { len ≤ length self.old.kept }
        ensures { self.new ≡ behind len self.old }
    {
        self.buffer.drop_front(len as usize);
        self.place += len;
        self.known = read_head(self.buffer.as_slice());
    }

    /// Takes the request at the front, where a whole one stands there. A fault other than Memory
    /// stays, and each later take gives it again; after any fault, and None, nothing has changed.
    pub fn take(&mut self) -> Result<Option<Asked>, FrameFault>
        ensures takes { Takes self.old self.new result }
        ensures next { (stream : List ℕ) (requests : List Request) → IsTaken stream requests self.old
            → TakesNext stream requests self.old self.new result }
        ensures size { self.new.place + length self.new.kept ≡ self.old.place + length self.old.kept }
        ensures shorter { IfOk result (λ next. IfSome next (λ asked. length self.new.kept < length self.old.kept)) }
    {
        self.take_front()
    }

    fn take_front(&mut self) -> Result<Option<Asked>, FrameFault>
        ensures { Takes self.old self.new result }
    {
        let Some(seen) = self.look()? else {
            return Ok(None);
        };
        let asked = copy_request(self.alloc, &seen)?;
        let len = seen.len;
        self.drop_front(len);
        Ok(Some(asked))
    }

    /// How many bytes are kept.
    pub fn kept(&self) -> u64
        ensures { result ≡ length self.now.kept }
    {
        self.buffer.len() as u64
    }

    /// How many bytes of the stream stood before those that are kept.
    pub fn place(&self) -> u64
        ensures { result ≡ self.now.place }
    {
        self.place
    }
}
