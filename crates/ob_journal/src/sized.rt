//! Entries of a byte that says how many follow it, for tests.
ghost use Rattle.ob_journal.specs.Sized.{IsSized, one_sized, no_sized};

use crate::Shape;

/// Entries of a byte that says how many bytes follow it.
pub struct Sized;

impl Shape for Sized {
    ghost is_entry = { IsSized };

    ghost one_first = { one_sized };

    ghost some_byte = { no_sized };

    fn first(bytes: &[u8]) -> Option<usize> {
        let [count, rest @ ..] = bytes else {
            return None;
        };
        let len = *count as usize;
        if rest.len() < len {
            return None;
        }
        Some(1 + len)
    }
}
