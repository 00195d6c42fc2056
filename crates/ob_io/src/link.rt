//! Links: where bytes come from and go to in one, as a connection is.
ghost use Rattle.std.specs.Prelude.{◌≡◌, ℕ, ◌<◌, ◌≤◌, List, length, IfOk};
ghost use Rattle.std.specs.declared.option.Option.{Option};
ghost use Rattle.std.specs.Io.{ReadsAtMost, WritesAtMost};
ghost use Rattle.ob_io.specs.Faults.{HasCause};
ghost use Rattle.ob_io.specs.Links.{inlet, ReadTakes};
ghost use Rattle.ob_io.specs.Told.{WriteGains, Sends};

use crate::Failed;

/// A source and a sink in one, as a connection is.
pub trait Link {
    /// The bytes that are left to read, where they are known.
    ghost left: { Self → Option (List ℕ) };

    /// The bytes that were read, where they are known.
    ghost taken: { Self → Option (List ℕ) };

    /// The bytes that were written, where they are known.
    ghost held: { Self → Option (List ℕ) };

    /// How often a read has failed.
    ghost read_faults: { Self → ℕ };

    /// How often a write has failed.
    ghost write_faults: { Self → ℕ };

    /// Takes some of the bytes that are left; none only at the end. A failed read takes none.
    fn read(&mut self, buf: &mut [u8]) -> Result<usize, Failed>
        requires { 0 < length buf.old }
        ensures bound { ReadsAtMost result buf.new }
        ensures bytes { ReadTakes (inlet (left self.old) (taken self.old))
            (inlet (left self.new) (taken self.new)) result buf.new }
        ensures cause { HasCause (read_faults self.old) (read_faults self.new) result }
        ensures apart { (held self.new ≡ held self.old)
            × (write_faults self.new ≡ write_faults self.old) };

    /// Appends a front of the piece, of at least one byte. A failed write appends nothing.
    fn write(&mut self, piece: &[u8]) -> Result<usize, Failed>
        requires { 0 < length piece.now }
        ensures bound { WritesAtMost result piece.now }
        ensures progress { IfOk result (λ count. 0 < count) }
        ensures bytes { WriteGains (held self.old) (held self.new) result piece.now }
        ensures cause { HasCause (write_faults self.old) (write_faults self.new) result }
        ensures apart { (left self.new ≡ left self.old) × (taken self.new ≡ taken self.old)
            × (read_faults self.new ≡ read_faults self.old) };

    /// All reads and writes from now on, until the next such call, may take so many milliseconds together: one that goes on for
    /// longer fails. No clause promises that.
    fn within(&mut self, ms: u32)
        ensures left { left self.new ≡ left self.old }
        ensures taken { taken self.new ≡ taken self.old }
        ensures held { held self.new ≡ held self.old }
        ensures faults { (read_faults self.new ≡ read_faults self.old)
            × (write_faults self.new ≡ write_faults self.old) };
}

/// Writes all the bytes, or those before the first write that fails.
pub fn send<L: Link>(link: &mut L, bytes: &[u8]) -> Result<(), Failed>
    ensures sends { Sends (L.held link.old) (L.held link.new) result bytes.now }
    ensures cause { HasCause (L.write_faults link.old) (L.write_faults link.new) result }
    ensures apart { (L.left link.new ≡ L.left link.old) × (L.taken link.new ≡ L.taken link.old)
        × (L.read_faults link.new ≡ L.read_faults link.old) }
{
    let mut rest = bytes;
    while !rest.is_empty() {
        let Ok(count) = link.write(rest) else {
            return Err(Failed);
        };
        let (_, unsent) = rest.split_at(count);
        rest = unsent;
    }
    Ok(())
}
