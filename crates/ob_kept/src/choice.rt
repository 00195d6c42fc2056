//! Which entries of a record may go.
//!
//! It is a guess, of which nothing is said: what is left is done again, and compared.
use ob_record::Sieve;
use ob_site::Site;
use ob_site_rules::Request;
use ob_values::Verb;
use std::alloc::{AllocError, Global};
use std::collections::BTreeMap;

/// At which entry each text was put to last. It lets no entry stay.
#[derive(Drop)]
pub(crate) struct LastPuts {
    alloc: Global,
    places: BTreeMap<String, u64>,
    place: u64,
}

impl LastPuts {
    /// Of no entry yet.
    pub(crate) fn new(alloc: Global) -> LastPuts {
        LastPuts {
            alloc,
            places: BTreeMap::new(alloc),
            place: 0,
        }
    }

    /// Whether a later entry than that of this place puts to the same text.
    fn has_later(&self, request: &Request, place: u64) -> bool {
        match self.places.get(request.target.as_str()) {
            Some(last) => place < *last,
            None => false,
        }
    }
}

impl Sieve for LastPuts {
    fn stays(&mut self, request: &Request) -> Result<bool, AllocError> {
        if request.verb == Verb::Put {
            let target = String::from_str(self.alloc, request.target.as_str())?;
            self.places.insert(target, self.place)?;
        }
        self.place = self.place.saturating_add(1);
        Ok(false)
    }
}

/// Lets all entries stay but each Put to the path of a bare node that a later entry puts to.
#[derive(Drop)]
pub(crate) struct Covered<'a> {
    pub(crate) site: &'a Site,
    pub(crate) last: &'a LastPuts,
    pub(crate) place: u64,
}

impl<'a> Sieve for Covered<'a> {
    fn stays(&mut self, request: &Request) -> Result<bool, AllocError> {
        let place = self.place;
        self.place = place.saturating_add(1);
        let goes = request.verb == Verb::Put
            && self.last.has_later(request, place)
            && self.site.is_bare(&request.target);
        Ok(!goes)
    }
}
