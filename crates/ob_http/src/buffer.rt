//! Bytes that come at the back and go at the front.
ghost use Rattle.std.specs.Prelude.{◌≡◌, ◌++◌, ◌≤◌, [], length, drop, is_ok, IfOk, if◌then◌else◌};

use std::alloc::{AllocError, Global};
use std::marker::Model;

/// The room that a buffer begins with, in bytes: that of the longest head.
const ROOM: usize = 8192;

/// The bytes of a stream that were not taken yet.
///
/// A byte is moved only after as many bytes as are moved were taken, so each is moved a constant
/// number of times however the stream is cut.
#[derive(Drop)]
pub(crate) struct Buffer {
    bytes: Vec<u8>,
    /// How many of the bytes were taken.
    taken: usize,
}

impl Model for Buffer {
    ghost use Rattle.std.specs.Prelude.{List, ℕ, ◌≤◌, drop, length};

    ghost Value = { List ℕ };

    ghost view = { λ b. drop b.taken b.bytes.items };

    ghost invariant = { λ b. b.taken ≤ length b.bytes.items };
}

impl Buffer {
    /// A buffer of no bytes.
    pub(crate) fn new(alloc: Global) -> Result<Buffer, AllocError>
        ensures { IfOk result (λ buffer. buffer ≡ []) }
    {
        Ok(Buffer {
            bytes: Vec::with_capacity(alloc, ROOM)?,
            taken: 0,
        })
    }

    /// The bytes.
    pub(crate) fn as_slice(&self) -> &[u8]
        ensures { result.now ≡ self.now }
    {
        &self.bytes[self.taken..]
    }

    /// How many bytes there are.
    pub(crate) fn len(&self) -> usize
        ensures { result ≡ length self.now }
    {
        self.bytes.len() - self.taken
    }

    /// Puts bytes at the back.
    pub(crate) fn push(&mut self, piece: &[u8]) -> Result<(), AllocError>
        ensures { self.new ≡ (if is_ok result then self.old ++ piece.now else self.old) }
    {
        if self.len() <= self.taken {
            self.compact();
        }
        self.bytes.extend_from_slice(piece)
    }

    /// Gives up the room of the bytes that were taken.
    fn compact(&mut self)
        ensures { self.new ≡ self.old }
    {
        let len = self.bytes.len() - self.taken;
        self.bytes.copy_within(self.taken.., 0);
        self.bytes.truncate(len);
        self.taken = 0;
    }

    /// Takes bytes at the front.
    pub(crate) fn drop_front(&mut self, len: usize)
        requires { len ≤ length self.old }
        ensures { self.new ≡ drop len self.old }
    {
        self.taken += len;
    }
}
