//! The contracts that words name.
ghost use Rattle.std.specs.Prelude.{◌≡◌, ◌≤◌, ◌<◌, false, is_some, None, Some, length, [], ◌∷◌, ◌++◌, IfOk, OnOk, OnErr};
ghost use Rattle.std.specs.Option.{option_copied};
ghost use Rattle.ob_object.specs.Default.{default_of};
ghost use Rattle.ob_object.specs.Object.{parts};
ghost use Rattle.ob_contracts.specs.Adding.{library_names};
ghost use Rattle.ob_contracts.specs.Index.{at_place, place_of};
ghost use Rattle.ob_contracts.specs.Inherit.{contract_of, result_of};
ghost use Rattle.ob_contracts.specs.Renewing.{with_contract};
ghost use Rattle.ob_contracts.specs.Sound.{AllSound};

use crate::adding::library_names;
use crate::named::put_named;
use ob_object::{Kind, Obj, Slot};
use ob_values::Text;
use std::alloc::{AllocError, Global};
use std::collections::{BTreeMap, BTreeSet};
use std::marker::Model;

/// A library: what words stand for, each contract with all that it inherits, in the order of adding.
/// No contract has more than 512 parts.
pub struct Library {
    contracts: Vec<(Text, Obj)>,
    // Where the contract of each word stands.
    places: BTreeMap<String, usize>,
    // Each word that a contract names in an `is` or `of`, at any depth. Words of a contract that found no
    // memory may stand here too.
    named: BTreeSet<String>,
    defaults: Defaults,
}

impl Drop for Library {
    // By one call for each part, so that to drop a library is one call to whoever may have to.
    fn drop(self) {
        let Library {
            contracts,
            places,
            named,
            defaults,
        } = self;
        drop(contracts);
        drop(places);
        drop(named);
        drop(defaults);
    }
}

// The slots of objects that give none, to be lent.
#[derive(Drop)]
struct Defaults {
    absent: Slot,
    null: Slot,
    no: Slot,
    zero: Slot,
    zero_real: Slot,
    empty: Slot,
    empty_uri: Slot,
    no_time: Slot,
}

impl Model for Library {
    ghost use Rattle.std.specs.Prelude.{◌≡◌, List, ℕ};
    ghost use Rattle.std.specs.Coded.{coded_list, coded×, coded_ℕ};
    ghost use Rattle.ob_object.specs.contracts.object.Obj.{the_row};
    ghost use Rattle.ob_object.specs.Default.{default_of};
    ghost use Rattle.ob_object.specs.declared.kind.Kind.TheVariants as kind;
    ghost use Rattle.ob_contracts.specs.Index.{IsIndex};
    ghost use Rattle.ob_contracts.specs.Inherit.{Contracts};
    ghost use Rattle.ob_contracts.specs.Named.{HasNamed};
    ghost use Rattle.ob_contracts.specs.Sound.{AllSound};

    ghost Value = { Contracts };

    ghost coded = { coded_list (coded× (coded_list coded_ℕ) the_row.coded) };

    ghost view = { λ a. a.contracts.items };

    ghost invariant = { λ a. AllSound a.contracts.items
        × (a.defaults.absent ≡ default_of kind.Obj) × (a.defaults.null ≡ default_of kind.Enum)
        × (a.defaults.no ≡ default_of kind.Bool) × (a.defaults.zero ≡ default_of kind.Int)
        × (a.defaults.zero_real ≡ default_of kind.Real) × (a.defaults.empty ≡ default_of kind.Str)
        × (a.defaults.empty_uri ≡ default_of kind.Uri) × (a.defaults.no_time ≡ default_of kind.Reltime)
        × IsIndex a.places a.contracts.items
        × HasNamed a.named a.contracts.items };
}

impl Library {
    /// A library without contracts.
    pub fn new(alloc: Global) -> Library
        ensures { result ≡ [] }
    {
        Library {
            contracts: Vec::new(alloc),
            places: BTreeMap::new(alloc),
            named: BTreeSet::new(alloc),
            defaults: Defaults {
                absent: Kind::Obj.default_slot(),
                null: Kind::Enum.default_slot(),
                no: Kind::Bool.default_slot(),
                zero: Kind::Int.default_slot(),
                zero_real: Kind::Real.default_slot(),
                empty: Kind::Str.default_slot(),
                empty_uri: Kind::Uri.default_slot(),
                no_time: Kind::Reltime.default_slot(),
            },
        }
    }

    /// The allocator of the library.
    pub fn allocator(&self) -> Global {
        *self.contracts.allocator()
    }

    /// The words and what they stand for, in the order of adding.
    pub fn contracts(&self) -> &[(Text, Obj)]
        ensures value { result.now ≡ self.now }
        ensures sound { AllSound self.now }
    {
        self.contracts.as_slice()
    }

    /// A copy: the same words for the same contracts, in the same order.
    pub fn copy(&self) -> Result<Library, AllocError>
        ensures { IfOk result (λ copy. copy ≡ self.now) }
    {
        let mut copy = Library::new(self.allocator());
        let contracts = copy_contracts(self.contracts.as_slice(), self.allocator())?;
        let places = self.places.clone()?;
        let named = self.named.clone()?;
        copy.contracts = contracts;
        copy.places = places;
        copy.named = named;
        Ok(copy)
    }

    /// Puts a new word and what it stands for last: a contract with all that it inherits. Its own words alone are put
    /// to those that are named, since all that it inherits are there already.
    pub(crate) fn put(&mut self, uri: Text, contract: &Obj, made: Obj) -> Result<(), AllocError>
        requires made { made ≡ result_of self.old contract.now None None }
        requires small { parts made ≤ 512 }
        requires new { is_some (contract_of self.old uri) ≡ false }
        ensures ok { OnOk result (self.new ≡ self.old ++ (uri, made) ∷ []) }
        ensures err { OnErr result (self.new ≡ self.old) }
    {
        let _head = made.head();
        let alloc = self.allocator();
        let word = String::from_str(alloc, uri.as_str())?;
        let place = self.contracts.as_slice().len();
        self.contracts.reserve(1)?;
        put_named(alloc, &mut self.named, contract)?;
        self.places.insert(word, place)?;
        self.contracts.push_reserved((uri, made));
        Ok(())
    }

    /// Puts what another own object comes to at a place, and gives the contract that stood there. Its own words alone are put to
    /// those that are named, since all that it inherits are there already.
    pub(crate) fn put_at(&mut self, place: usize, own: &Obj, made: Obj) -> Result<Obj, AllocError>
        requires within { place < length self.old }
        requires made { made ≡ result_of self.old own.now None None }
        requires small { parts made ≤ 512 }
        ensures ok { OnOk result (self.new ≡ with_contract place made self.old) }
        ensures old { IfOk result (λ old. at_place self.old place ≡ Some old) }
        ensures err { OnErr result (self.new ≡ self.old) }
    {
        let _head = made.head();
        put_named(self.allocator(), &mut self.named, own)?;
        let entry = &mut self.contracts[place];
        Ok(std::mem::replace(&mut entry.1, made))
    }

    /// Where the contract of a word stands.
    pub(crate) fn place_of(&self, uri: &str) -> Option<usize>
        ensures { result ≡ place_of uri.now self.now }
    {
        self.places.get(uri).copied()
    }

    /// Whether a contract names a word. Each is gone through only where the word may be named.
    pub(crate) fn names(&self, word: &Text) -> bool
        ensures { result ≡ library_names word.now self.now }
    {
        self.named.contains(word.as_str()) && library_names(word, self.contracts())
    }

    /// The contract that a word names.
    pub fn get(&self, uri: &str) -> Option<&Obj>
        ensures { option_copied result ≡ contract_of self.now uri.now }
    {
        let contracts = self.contracts();
        match self.place_of(uri) {
            Some(place) => contract_in(contracts, place),
            None => None,
        }
    }

    /// The slot that an object of a kind has where none is given, lent.
    pub(crate) fn default_slot(&self, kind: Kind) -> &Slot
        ensures { result.now ≡ default_of kind }
    {
        let slots = &self.defaults;
        match kind {
            Kind::Bool => &slots.no,
            Kind::Int => &slots.zero,
            Kind::Real => &slots.zero_real,
            Kind::Str => &slots.empty,
            Kind::Uri => &slots.empty_uri,
            Kind::Reltime => &slots.no_time,
            Kind::Enum | Kind::Abstime | Kind::Date | Kind::Time => &slots.null,
            Kind::Obj | Kind::List | Kind::Op | Kind::Feed | Kind::Ref | Kind::Err => &slots.absent,
        }
    }
}

// Words and what they stand for, copied.
fn copy_contracts(contracts: &[(Text, Obj)], alloc: Global) -> Result<Vec<(Text, Obj)>, AllocError>
    ensures { IfOk result (λ copies. copies.items ≡ contracts.now) }
{
    let mut copies = Vec::new(alloc);
    for contract in contracts {
        let word = contract.0.copy()?;
        let object = contract.1.copy()?;
        copies.push((word, object))?;
    }
    Ok(copies)
}

// The contract at a place.
fn contract_in(contracts: &[(Text, Obj)], place: usize) -> Option<&Obj>
    ensures { option_copied result ≡ at_place contracts.now place }
{
    match contracts.get(place) {
        Some(contract) => Some(&contract.1),
        None => None,
    }
}
