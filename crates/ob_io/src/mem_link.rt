//! A link in memory.
ghost use Rattle.std.specs.Prelude.{◌≡◌, ◌<◌, ◌≤◌, [], length, Some, option_map};

use crate::Failed;
use crate::counting::Counting;
use crate::link::Link;
use crate::memory::Calls;
use std::alloc::Global;

/// Bytes that are read in pieces of at most a given length, and what was written. Its room grows while memory allows; a
/// byte that finds no room is taken all the same, and from then on what was written is told no longer. It fails at the
/// calls of a list of numbers and at no other, reads and writes counted as one, the first call being 0.
#[derive(Drop)]
pub struct MemLink {
    bytes: Vec<u8>,
    place: usize,
    piece: usize,
    output: Vec<u8>,
    is_told: bool,
    calls: Calls,
    read_faults: u64,
    write_faults: u64,
    ghost within: { place ≤ length bytes.items },
    ghost piece_some: { 0 < piece },
}

impl MemLink {
    ghost use Rattle.ob_io.specs.LinkMemory.{link_left, link_taken, link_held};
    ghost use Rattle.ob_io.specs.Memory.{AtFirst};

    /// A link that fails at the calls of these numbers, and else gives and takes pieces of at most `piece`.
    pub fn new(alloc: Global, bytes: Vec<u8>, piece: usize, failing: Vec<u64>) -> MemLink
        requires { 0 < piece }
        ensures left { link_left result ≡ bytes.items }
        ensures pieces { result.piece ≡ piece }
        ensures calls { AtFirst failing result.calls }
        ensures fresh { (link_held result ≡ Some []) × (link_taken result ≡ [])
            × (result.read_faults ≡ 0) × (result.write_faults ≡ 0) }
    {
        MemLink {
            bytes,
            place: 0,
            piece,
            output: Vec::new(alloc),
            is_told: true,
            calls: Calls::new(failing),
            read_faults: 0,
            write_faults: 0,
        }
    }

    /// What was written, where that is still told.
    pub fn written(&self) -> Option<&[u8]>
        ensures { option_map (λ bytes. bytes.now) result ≡ link_held self.now }
    {
        if self.is_told {
            Some(self.output.as_slice())
        } else {
            None
        }
    }

    /// What was read.
    pub fn taken(&self) -> &[u8]
        ensures { result.now ≡ link_taken self.now }
    {
        &self.bytes[..self.place]
    }
}

impl Link for MemLink {
    ghost use Rattle.std.specs.Prelude.{Some, IfOk, is_err};
    ghost use Rattle.std.specs.Io.{ReadsAtMost, WritesAtMost};
    ghost use Rattle.ob_io.specs.Faults.{HasCause};
    ghost use Rattle.ob_io.specs.Told.{WriteGains};
    ghost use Rattle.ob_io.specs.Links.{inlet, ReadTakes};
    ghost use Rattle.ob_io.specs.Memory.{CountsCall, next_fails};
    ghost use Rattle.ob_io.specs.LinkMemory.{link_left, link_taken, link_held};

    ghost left = { λ s. Some (link_left s) };

    ghost taken = { λ s. Some (link_taken s) };

    ghost held = { λ s. link_held s };

    ghost read_faults = { λ s. s.read_faults };

    ghost write_faults = { λ s. s.write_faults };

    fn read(&mut self, buf: &mut [u8]) -> Result<usize, Failed>
        requires { 0 < length buf.old }
        ensures bound { ReadsAtMost result buf.new }
        ensures bytes { ReadTakes (inlet (Some (link_left self.old)) (Some (link_taken self.old)))
            (inlet (Some (link_left self.new)) (Some (link_taken self.new))) result buf.new }
        ensures cause { HasCause self.old.read_faults self.new.read_faults result }
        ensures apart { (link_held self.new ≡ link_held self.old)
            × (self.new.write_faults ≡ self.old.write_faults) }
        ensures planned { is_err result ≡ next_fails self.old.calls }
        ensures counted { CountsCall self.old.calls self.new.calls }
    {
        if self.calls.next() {
            self.read_faults = self.read_faults.saturating_add(1);
            return Err(Failed);
        }
        let (_, rest) = self.bytes.split_at(self.place);
        let count = rest.len().min(buf.len()).min(self.piece);
        let (front, _) = rest.split_at(count);
        buf[..count].copy_from_slice(front);
        self.place += count;
        Ok(count)
    }

    fn write(&mut self, piece: &[u8]) -> Result<usize, Failed>
        requires { 0 < length piece.now }
        ensures bound { WritesAtMost result piece.now }
        ensures progress { IfOk result (λ count. 0 < count) }
        ensures bytes { WriteGains (link_held self.old) (link_held self.new) result piece.now }
        ensures cause { HasCause self.old.write_faults self.new.write_faults result }
        ensures apart { (link_left self.new ≡ link_left self.old)
            × (link_taken self.new ≡ link_taken self.old) × (self.new.read_faults ≡ self.old.read_faults) }
        ensures planned { is_err result ≡ next_fails self.old.calls }
        ensures counted { CountsCall self.old.calls self.new.calls }
    {
        if self.calls.next() {
            self.write_faults = self.write_faults.saturating_add(1);
            return Err(Failed);
        }
        let count = piece.len().min(self.piece);
        let (front, _) = piece.split_at(count);
        if self.output.extend_from_slice(front).is_err() {
            self.is_told = false;
        }
        Ok(count)
    }

    fn within(&mut self, ms: u32)
        ensures same { self.new ≡ self.old }
    {
        let _ = ms;
    }
}

impl Counting for MemLink {
    fn has_failed(&self) -> bool {
        self.read_faults > 0 || self.write_faults > 0
    }
}
