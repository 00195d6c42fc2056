//! A link that waits for another.
ghost use Rattle.std.specs.Prelude.{◌≡◌, ◌+◌};

use crate::Failed;
use crate::counting::Counting;
use crate::link::Link;
use std::alloc::Global;
use std::sync::Arc;
use std::sync::atomic::{AtomicU64, Ordering};

/// A link round another link, with two words that it shares with other links. A read looks at `gate` until it isn't 0,
/// and fails where it stays 0 for 100,000,000 looks; then the link within reads. A write is the link's within, and sets
/// `signal` to 1 whether it fails or not. So a link that has the `signal` of another as its `gate` reads nothing before
/// the other was written to.
#[derive(Drop)]
pub struct Gated<L> {
    link: L,
    gate: Arc<AtomicU64, Global>,
    signal: Arc<AtomicU64, Global>,
    /// How many reads failed at the gate.
    shut: u64,
}

const LOOKS: u32 = 100_000_000;

impl<L> Gated<L> {
    /// This link between these two words.
    pub fn new(link: L, gate: Arc<AtomicU64, Global>, signal: Arc<AtomicU64, Global>) -> Gated<L>
        ensures link { result.link ≡ link }
        ensures shut { result.shut ≡ 0 }
    {
        Gated {
            link,
            gate,
            signal,
            shut: 0,
        }
    }

    /// The link within.
    pub fn link(&self) -> &L
        ensures { result.now ≡ self.now.link }
    {
        &self.link
    }

    // Whether the gate opens.
    fn opens(&self) -> bool {
        for _ in 0..LOOKS {
            if self.gate.load(Ordering::SeqCst) != 0 {
                return true;
            }
        }
        false
    }
}

impl<L: Link> Link for Gated<L> {
    ghost left = { λ s. L.left s.link };

    ghost taken = { λ s. L.taken s.link };

    ghost held = { λ s. L.held s.link };

    ghost read_faults = { λ s. L.read_faults s.link + s.shut };

    ghost write_faults = { λ s. L.write_faults s.link };

    fn read(&mut self, buf: &mut [u8]) -> Result<usize, Failed> {
        if !self.opens() {
            self.shut = self.shut.saturating_add(1);
            return Err(Failed);
        }
        self.link.read(buf)
    }

    fn write(&mut self, piece: &[u8]) -> Result<usize, Failed> {
        let written = self.link.write(piece);
        self.signal.store(1, Ordering::SeqCst);
        written
    }

    fn within(&mut self, ms: u32) {
        self.link.within(ms);
    }
}

impl<L: Counting> Counting for Gated<L> {
    fn has_failed(&self) -> bool {
        self.link.has_failed() || self.shut > 0
    }
}
