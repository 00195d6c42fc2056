//! What an object says of itself, beside its children.
ghost use Rattle.std.specs.Prelude.{◌≡◌, ◌&&◌, Bool, true, None, IfOk};
ghost use Rattle.std.specs.Option.{option_copied};
ghost use Rattle.ob_object.specs.Object.{empty_head};
ghost use Rattle.ob_object.specs.Fits.{fits_slot, fits_name, fits_words, fits_if_there};

use crate::facet::Facets;
use crate::kind::Kind;
use crate::words::Words;
use ob_values::{Text, Value};
use std::alloc::AllocError;

/// The value of an object: not given, null, or a value.
#[derive(Drop)]
pub enum Slot {
    Absent,
    Null,
    Is(Value),
}

/// What an object says of itself, beside its children.
pub struct Head {
    pub kind: Kind,
    /// The name among its siblings, of 1 to 255 bytes.
    pub name: Option<Text>,
    pub href: Option<Text>,
    /// The words of its contracts.
    pub is: Option<Words>,
    /// The words of its children's contracts, of a list or a feed.
    pub of: Option<Words>,
    /// The words of the contracts of what it is called with, of an op or a feed.
    pub input: Option<Words>,
    /// The words of the contracts of what it answers, of an op.
    pub output: Option<Words>,
    pub slot: Slot,
    pub facets: Facets,
}

impl Drop for Head {
    // By one call for each part, so that to drop a head is one call to whoever may have to.
    fn drop(self) {
        let Head {
            kind: _,
            name,
            href,
            is,
            of,
            input,
            output,
            slot,
            facets,
        } = self;
        drop(name);
        drop(href);
        drop(is);
        drop(of);
        drop(input);
        drop(output);
        drop(slot);
        drop(facets);
    }
}

/// Whether the slot's value, if there is one, is of the kind.
pub(crate) fn fits_slot(kind: Kind, slot: &Slot) -> bool
    ensures { result ≡ fits_slot kind slot.now }
{
    match slot {
        Slot::Is(value) => kind.fits_value(value),
        Slot::Absent | Slot::Null => true,
    }
}

// Whether the limit, if there is one, fits the kind.
fn fits_if_there(kind: Kind, limit: Option<&Value>) -> bool
    ensures { result ≡ fits_if_there kind (option_copied limit.entry) }
{
    match limit {
        Some(limit) => kind.fits_limit(limit),
        None => true,
    }
}

/// Whether min and max fit the kind.
pub(crate) fn fits_limits(kind: Kind, min: Option<&Value>, max: Option<&Value>) -> bool
    ensures { result ≡ (fits_if_there kind (option_copied min.entry) && fits_if_there kind (option_copied max.entry)) }
{
    fits_if_there(kind, min) && fits_if_there(kind, max)
}

/// Whether a name, where there is one, has 1 to 255 bytes.
pub(crate) fn fits_name(name: Option<&Text>) -> bool
    ensures { result ≡ fits_name (option_copied name.entry) }
{
    match name {
        Some(text) => {
            let len = text.as_str().len();
            1 <= len && len <= 255
        }
        None => true,
    }
}

/// Whether words may stand there, where the kind has such a list or not.
pub(crate) fn fits_words(has: bool, words: Option<&Words>) -> bool
    ensures { result ≡ fits_words has (option_copied words.entry) }
{
    match words {
        Some(words) => {
            let _words = words.as_slice();
            has
        }
        None => true,
    }
}

/// Says of words that each of them is a word, so that they may stand where the kind has such a list.
pub(crate) fn know_words(words: Option<&Words>)
    ensures { (has : Bool) → has ≡ true → fits_words has (option_copied words.entry) ≡ true }
{
    if let Some(words) = words {
        let _words = words.as_slice();
    }
}

impl Slot {
    /// A copy of the slot.
    pub fn copy(&self) -> Result<Slot, AllocError>
        ensures { IfOk result (λ copy. copy ≡ self.now) }
    {
        match self {
            Slot::Absent => Ok(Slot::Absent),
            Slot::Null => Ok(Slot::Null),
            Slot::Is(value) => {
                let value = value.copy()?;
                Ok(Slot::Is(value))
            }
        }
    }
}

impl Head {
    /// A kind, and nothing else.
    pub fn empty(kind: Kind) -> Head
        ensures { result ≡ empty_head kind }
    {
        Head {
            kind,
            name: None,
            href: None,
            is: None,
            of: None,
            input: None,
            output: None,
            slot: Slot::Absent,
            facets: Facets::none(),
        }
    }
}
