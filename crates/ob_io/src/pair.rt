//! A link that is made of a source and a sink.
use crate::link::Link;
use crate::{Failed, Sink, Source};

/// A link that reads from a source and writes to a sink. It tells what they tell, and nothing of what was taken.
#[derive(Drop)]
pub struct Pair<S, K> {
    pub source: S,
    pub sink: K,
}

impl<S: Source, K: Sink> Link for Pair<S, K> {
    ghost use Rattle.std.specs.Prelude.{None};

    ghost left = { λ p. S.left p.source };

    ghost taken = { λ p. None };

    ghost held = { λ p. K.held p.sink };

    ghost read_faults = { λ p. S.faults p.source };

    ghost write_faults = { λ p. K.faults p.sink };

    fn read(&mut self, buf: &mut [u8]) -> Result<usize, Failed> {
        self.source.read(buf)
    }

    fn write(&mut self, piece: &[u8]) -> Result<usize, Failed> {
        self.sink.write(piece)
    }

    fn within(&mut self, ms: u32) {
        let _ = ms;
    }
}
