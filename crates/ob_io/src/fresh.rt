//! Links with which nothing was done yet.
ghost use Rattle.std.specs.Prelude.{◌≡◌, [], IfSome};
ghost use Rattle.std.proofs.Props.{props};

use crate::link::Link;

/// A link with which nothing was done yet: nothing was taken from it or written to it, and no call failed.
#[derive(Drop)]
pub struct Fresh<L: Link> {
    link: L,
    ghost taken_none: { IfSome (L.taken link) (λ bytes. bytes ≡ []) } by { Prim.hlevel props },
    ghost held_none: { IfSome (L.held link) (λ bytes. bytes ≡ []) } by { Prim.hlevel props },
    ghost reads_none: { L.read_faults link ≡ 0 },
    ghost writes_none: { L.write_faults link ≡ 0 },
}

impl<L: Link> Fresh<L> {
    ghost use Rattle.ob_io.specs.Visits.{IsFresh};

    /// This link, which is one with which nothing was done.
    pub fn new(link: L) -> Fresh<L>
        requires { IsFresh (L.taken link) (L.held link) (L.read_faults link) (L.write_faults link) }
        ensures { result.link ≡ link }
    {
        Fresh { link }
    }

    /// The link.
    pub fn into_link(self) -> L
        ensures same { result ≡ self.link }
        ensures fresh { IsFresh (L.taken result) (L.held result) (L.read_faults result) (L.write_faults result) }
    {
        self.link
    }
}
