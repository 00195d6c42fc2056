// Things that are kept while memory allows.
ghost use Rattle.std.specs.Prelude.{◌≡◌, [], ◌∷◌, ◌++◌, Some, None, true, false, option_map, if◌then◌else◌};
ghost use Rattle.ob_io.specs.Told.{Gains};

use std::alloc::Global;

/// Things in the order in which they came. One that finds no room is let go, and from then on they are told no longer.
#[derive(Drop)]
pub(crate) struct Kept<T> {
    things: Vec<T>,
    is_told: bool,
}

impl<T: Drop> Kept<T> {
    pub(crate) fn new(alloc: Global) -> Kept<T>
        ensures { (result.things.items ≡ []) × (result.is_told ≡ true) }
    {
        Kept {
            things: Vec::new(alloc),
            is_told: true,
        }
    }

    pub(crate) fn keep(&mut self, thing: T)
        ensures { self.new.is_told ≡ true
            → (self.old.is_told ≡ true) × (self.new.things.items ≡ self.old.things.items ++ thing ∷ []) }
    {
        if self.things.push(thing).is_ok() {
            return;
        }
        self.is_told = false;
    }

    pub(crate) fn forget(&mut self)
        ensures { self.new ≡ record self.old { is_told = false } }
    {
        self.is_told = false;
    }

    /// All of them, where they are still told.
    pub(crate) fn all(&self) -> Option<&[T]>
        ensures { option_map (λ things. things.now) result
            ≡ (if self.now.is_told then Some self.now.things.items else None) }
    {
        if self.is_told {
            Some(self.things.as_slice())
        } else {
            None
        }
    }
}

/// A place of the network that was called, and whether that failed.
#[derive(Drop)]
pub(crate) struct Place {
    host: Vec<u8>,
    port: u16,
    failed: bool,
}

impl Kept<Place> {
    ghost use Rattle.ob_io.specs.Kept.{dials_of};

    /// Keeps a call of this place.
    pub(crate) fn note(&mut self, host: &str, port: u16, failed: bool)
        ensures { Gains (dials_of self.old.is_told self.old.things.items)
            (record { host = host.now; port = port; failed = failed } ∷ [])
            (dials_of self.new.is_told self.new.things.items) }
    {
        let alloc = *Vec::allocator(&self.things);
        match host.as_bytes().to_vec(alloc) {
            Ok(host) => self.keep(Place { host, port, failed }),
            Err(_) => self.forget(),
        }
    }
}
