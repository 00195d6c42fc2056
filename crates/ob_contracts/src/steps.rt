//! Counting views and built parts without taking time or memory for it: what is counted exists in contracts alone.

ghost use Rattle.std.specs.Prelude.{◌≡◌, ℕ, ◌+◌, ◌<◌};

use std::marker::Model;
use std::sync::ledger::{Blank, Book, Ledger, Share};

/// How many steps were taken: a step is a view that is taken of an object, or a part of an effective object that is built.
/// Contracts see it as that number. It takes no bytes, and nothing outside of this crate adds to it.
///
/// A function that counts takes `steps: &mut Steps<L>` for any ledger `L`. A caller that counts nothing calls one
/// that takes a `blank: Blank`, as `counted::<Brand>(.., Blank::new(1))`, and begins there by `Steps::begin`.
#[derive(Drop)]
pub struct Steps<L: Ledger> {
    book: Book<L>,
    share: Share<L>,
}

impl<L: Ledger> Model for Steps<L> {
    ghost Value = { ℕ };

    ghost view = { λ s. s.book.total };

    ghost invariant = { λ s. 0 < s.share.parts };
}

impl<L: Ledger> Steps<L> {
    /// A counter of a ledger of its own, at 0.
    pub fn begin(blank: Blank) -> Steps<L>
        requires name { blank.name ≡ L.name }
        requires parts { blank.parts ≡ L.parts }
        requires cut { 0 < blank.parts }
        ensures { result ≡ 0 }
    {
        let (book, share) = blank.open::<L>();
        Steps { book, share }
    }

    /// Counts so many steps.
    pub(crate) fn add(&mut self, number: u64)
        ensures { self.new ≡ self.old + number }
    {
        self.book.add(&mut self.share, number);
    }
}
