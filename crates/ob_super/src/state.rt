//! What a supervisor has in hand.
ghost use Rattle.std.specs.Prelude.{◌≡◌, true};
ghost use Rattle.ob_super.specs.Names.{are_apart, names};

use crate::upstream::Followed;
use std::alloc::Global;

/// Several servers, each followed by a watch over a link.
#[derive(Drop)]
pub struct Super<L> {
    pub(crate) alloc: Global,
    pub(crate) followed: Vec<Followed<L>>,
    /// How many rounds there were.
    pub(crate) rounds: u64,
    ghost apart: { are_apart (names followed.items) ≡ true },
}
