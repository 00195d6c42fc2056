//! What an object keeps of what it says of itself, beside its children.
ghost use Rattle.std.specs.Prelude.{◌≡◌, None, IfOk, MatchResult};
ghost use Rattle.std.specs.Option.{option_copied, option_or};
ghost use Rattle.ob_object.specs.Completed.{completed, slot_or};
ghost use Rattle.ob_object.specs.Object.{empty_head};
ghost use Rattle.ob_object.specs.Fits.{fits_head};
ghost use Rattle.ob_object.specs.Kept.{there};
ghost use Rattle.ob_object.specs.Paths.{node_path};

use crate::facet::Facets;
use crate::head::{Head, Slot, fits_limits, fits_name, fits_slot, fits_words};
use crate::kind::Kind;
use crate::rare::{Rare, completed_rare, copy_rare, take_rare};
use crate::status::Status;
use crate::words::Words;
use ob_values::{Text, Value};
use std::alloc::{AllocError, Global};
use std::marker::Model;

/// What an object says of itself, beside its children, in the room that a common object needs: contracts see it as the
/// plain `Head`. A part that few objects have (of, in, out, display, displayName, icon, range, tz) takes memory when it is
/// put; every other call takes none.
pub struct Attributes {
    // A part that may be absent stands beside a truth, since an option of it takes 8 bytes more.
    name: Text,
    href: Text,
    pub(crate) words: Words,
    slot: Slot,
    pub(crate) unit: Text,
    pub(crate) low: Value,
    pub(crate) high: Value,
    pub(crate) places: i64,
    pub(crate) rare: Option<Box<Rare>>,
    kind: Kind,
    pub(crate) status: Option<Status>,
    pub(crate) writable: Option<bool>,
    has_name: bool,
    has_href: bool,
    has_words: bool,
    pub(crate) has_unit: bool,
    pub(crate) has_low: bool,
    pub(crate) has_high: bool,
    pub(crate) has_places: bool,
}

impl Model for Attributes {
    ghost use Rattle.std.specs.Prelude.{option_map};
    ghost use Rattle.ob_object.specs.declared.head.Head.{Head};
    ghost use Rattle.ob_object.specs.Kept.{there, rare_of};

    ghost Value = { Head };

    ghost view = { λ a. record {
      kind = a.kind;
      name = there a.has_name a.name;
      href = there a.has_href a.href;
      is = there a.has_words a.words;
      of = (rare_of (option_map (λ b. b.value) a.rare)).of;
      input = (rare_of (option_map (λ b. b.value) a.rare)).input;
      output = (rare_of (option_map (λ b. b.value) a.rare)).output;
      slot = a.slot;
      facets = record {
        display = (rare_of (option_map (λ b. b.value) a.rare)).display;
        display_name = (rare_of (option_map (λ b. b.value) a.rare)).display_name;
        icon = (rare_of (option_map (λ b. b.value) a.rare)).icon;
        min = there a.has_low a.low;
        max = there a.has_high a.high;
        precision = there a.has_places a.places;
        range = (rare_of (option_map (λ b. b.value) a.rare)).range;
        status = a.status;
        tz = (rare_of (option_map (λ b. b.value) a.rare)).tz;
        unit = there a.has_unit a.unit;
        writable = a.writable;
      };
    } };
}

impl Drop for Attributes {
    // By one call for each part, as a head.
    fn drop(self) {
        let Attributes {
            name,
            href,
            words,
            slot,
            unit,
            low,
            high,
            places: _,
            rare,
            kind: _,
            status: _,
            writable: _,
            has_name: _,
            has_href: _,
            has_words: _,
            has_unit: _,
            has_low: _,
            has_high: _,
            has_places: _,
        } = self;
        drop(name);
        drop(href);
        drop(words);
        drop(slot);
        drop(unit);
        drop(low);
        drop(high);
        drop(rare);
    }
}

/// Fills a place that isn't filled from another that may be.
fn fill<T: Drop>(place: &mut T, has: &mut bool, given: T, has_given: bool)
    ensures { there has.new place.new ≡ option_or (there has.old place.old) (there has_given given) }
{
    if !*has {
        *place = given;
        *has = has_given;
    }
}

/// Sets a slot, where none is given.
fn fill_slot(own: &mut Slot, given: Slot)
    ensures { own.new ≡ slot_or own.old given }
{
    if let Slot::Absent = own {
        *own = given;
    }
}

impl Attributes {
    /// A kind, and nothing else.
    pub fn empty(alloc: Global, kind: Kind) -> Attributes
        ensures { result ≡ empty_head kind }
    {
        Attributes {
            name: Text::empty(),
            href: Text::empty(),
            words: Words::new(alloc),
            slot: Slot::Absent,
            unit: Text::empty(),
            low: Value::Bool(false),
            high: Value::Bool(false),
            places: 0,
            rare: None,
            kind,
            status: None,
            writable: None,
            has_name: false,
            has_href: false,
            has_words: false,
            has_unit: false,
            has_low: false,
            has_high: false,
            has_places: false,
        }
    }

    /// The kind.
    pub fn kind(&self) -> Kind
        ensures { result ≡ self.now.kind }
    {
        self.kind
    }

    /// The slot.
    pub fn slot(&self) -> &Slot
        ensures { result.now ≡ self.now.slot }
    {
        &self.slot
    }

    /// The name.
    pub fn name(&self) -> Option<&Text>
        ensures { option_copied result ≡ self.now.name }
    {
        if self.has_name {
            Some(&self.name)
        } else {
            None
        }
    }

    /// The href, as it was written.
    pub fn href(&self) -> Option<&Text>
        ensures { option_copied result ≡ self.now.href }
    {
        if self.has_href {
            Some(&self.href)
        } else {
            None
        }
    }

    /// The path of a node: its href, unless it is a ref or an err.
    pub fn node_path(&self) -> Option<&Text>
        ensures { option_copied result ≡ node_path self.now }
    {
        match self.kind() {
            Kind::Ref | Kind::Err => None,
            _ => self.href(),
        }
    }

    /// The words of its contracts.
    pub fn is(&self) -> Option<&Words>
        ensures { option_copied result ≡ self.now.is }
    {
        if self.has_words {
            Some(&self.words)
        } else {
            None
        }
    }

    /// The words of its children's contracts, of a list or a feed.
    pub fn of(&self) -> Option<&Words>
        ensures { option_copied result ≡ self.now.of }
    {
        match &self.rare {
            Some(rare) => rare.of.as_ref(),
            None => None,
        }
    }

    /// The words of the contracts of what it is called with, of an op or a feed.
    pub fn input(&self) -> Option<&Words>
        ensures { option_copied result ≡ self.now.input }
    {
        match &self.rare {
            Some(rare) => rare.input.as_ref(),
            None => None,
        }
    }

    /// The words of the contracts of what it answers, of an op.
    pub fn output(&self) -> Option<&Words>
        ensures { option_copied result ≡ self.now.output }
    {
        match &self.rare {
            Some(rare) => rare.output.as_ref(),
            None => None,
        }
    }

    /// Whether each attribute fits the kind.
    pub fn fits(&self) -> bool
        ensures { result ≡ fits_head self.now }
    {
        let kind = self.kind();
        let lists = fits_words(true, self.is())
            && fits_words(kind.has_of(), self.of())
            && fits_words(kind.has_input(), self.input())
            && fits_words(kind.has_output(), self.output());
        fits_name(self.name())
            && lists
            && fits_slot(kind, self.slot())
            && fits_limits(kind, self.min(), self.max())
    }

    /// Sets it, or takes it away: the name.
    pub fn put_name(&mut self, name: Option<Text>)
        ensures { self.new ≡ record self.old { name = name } }
    {
        match name {
            Some(name) => {
                self.name = name;
                self.has_name = true;
            }
            None => {
                self.name = Text::empty();
                self.has_name = false;
            }
        }
    }

    /// Sets it, or takes it away: the href, as it was written.
    pub fn put_href(&mut self, href: Option<Text>)
        ensures { self.new ≡ record self.old { href = href } }
    {
        match href {
            Some(href) => {
                self.href = href;
                self.has_href = true;
            }
            None => {
                self.href = Text::empty();
                self.has_href = false;
            }
        }
    }

    /// Sets it, or takes it away: the words of its contracts.
    pub fn put_is(&mut self, is: Option<Words>)
        ensures { self.new ≡ record self.old { is = is } }
    {
        match is {
            Some(is) => {
                self.words = is;
                self.has_words = true;
            }
            None => {
                self.words = Words::new(self.words.allocator());
                self.has_words = false;
            }
        }
    }

    /// Sets the slot, and gives the old one.
    pub fn replace_slot(&mut self, slot: Slot) -> Slot
        ensures old { result ≡ self.old.slot }
        ensures new { self.new ≡ record self.old { slot = slot } }
    {
        std::mem::replace(&mut self.slot, slot)
    }

    /// Sets the slot.
    pub fn put_slot(&mut self, slot: Slot)
        ensures { self.new ≡ record self.old { slot = slot } }
    {
        self.slot = slot;
    }

    /// Sets it, or takes it away: the words of its children's contracts, of a list or a feed.
    /// It comes back where there is no memory; all is then as it was.
    pub fn put_of(&mut self, of: Option<Words>) -> Result<(), Option<Words>>
        ensures { MatchResult result
            (λ _. self.new ≡ record self.old { of = of })
            (λ back. (back ≡ of) × (self.new ≡ self.old)) }
    {
        if of.is_none() && self.rare.is_none() {
            return Ok(());
        }
        match take_rare(self.words.allocator(), &mut self.rare) {
            Ok(mut rare) => {
                rare.of = of;
                self.rare = Some(rare);
                Ok(())
            }
            Err(_) => Err(of),
        }
    }

    /// Sets it, or takes it away: the words of the contracts of what it is called with, of an op or a feed.
    /// It comes back where there is no memory; all is then as it was.
    pub fn put_input(&mut self, input: Option<Words>) -> Result<(), Option<Words>>
        ensures { MatchResult result
            (λ _. self.new ≡ record self.old { input = input })
            (λ back. (back ≡ input) × (self.new ≡ self.old)) }
    {
        if input.is_none() && self.rare.is_none() {
            return Ok(());
        }
        match take_rare(self.words.allocator(), &mut self.rare) {
            Ok(mut rare) => {
                rare.input = input;
                self.rare = Some(rare);
                Ok(())
            }
            Err(_) => Err(input),
        }
    }

    /// Sets it, or takes it away: the words of the contracts of what it answers, of an op.
    /// It comes back where there is no memory; all is then as it was.
    pub fn put_output(&mut self, output: Option<Words>) -> Result<(), Option<Words>>
        ensures { MatchResult result
            (λ _. self.new ≡ record self.old { output = output })
            (λ back. (back ≡ output) × (self.new ≡ self.old)) }
    {
        if output.is_none() && self.rare.is_none() {
            return Ok(());
        }
        match take_rare(self.words.allocator(), &mut self.rare) {
            Ok(mut rare) => {
                rare.output = output;
                self.rare = Some(rare);
                Ok(())
            }
            Err(_) => Err(output),
        }
    }

    /// What a head says, kept. It takes memory only for what few objects have.
    pub fn from_head(alloc: Global, mut head: Head) -> Result<Attributes, AllocError>
        ensures { IfOk result (λ kept. kept ≡ head) }
    {
        let mut kept = Attributes::empty(alloc, head.kind);
        kept.put_name(head.name.take());
        kept.put_href(head.href.take());
        kept.put_is(head.is.take());
        kept.put_slot(std::mem::replace(&mut head.slot, Slot::Absent));
        let facets = std::mem::replace(&mut head.facets, Facets::none());
        match kept.keep_lists(
            head.of.take(),
            head.input.take(),
            head.output.take(),
            facets,
        ) {
            Ok(()) => Ok(kept),
            Err(_) => Err(AllocError),
        }
    }

    // Sets the lists that few objects have, and the facets.
    fn keep_lists(
        &mut self,
        of: Option<Words>,
        input: Option<Words>,
        output: Option<Words>,
        facets: Facets,
    ) -> Result<(), AllocError>
        ensures { IfOk result (λ _. self.new ≡ record self.old { of = of; input = input; output = output; facets = facets }) }
    {
        if self.put_of(of).is_err()
            || self.put_input(input).is_err()
            || self.put_output(output).is_err()
            || self.put_facets(facets).is_err()
        {
            Err(AllocError)
        } else {
            Ok(())
        }
    }

    /// Takes each part that it lacks from what is given: `of`, `in`, `out`, the slot and the facets. It keeps its kind, its
    /// name, its href and its `is`. It takes no memory.
    pub fn complete(&mut self, given: Attributes)
        ensures { self.new ≡ completed self.old given }
    {
        let Attributes {
            name,
            href,
            words,
            slot,
            unit,
            low,
            high,
            places,
            rare,
            kind: _,
            status,
            writable,
            has_name: _,
            has_href: _,
            has_words: _,
            has_unit,
            has_low,
            has_high,
            has_places,
        } = given;
        drop(name);
        drop(href);
        drop(words);
        fill_slot(&mut self.slot, slot);
        fill(&mut self.unit, &mut self.has_unit, unit, has_unit);
        fill(&mut self.low, &mut self.has_low, low, has_low);
        fill(&mut self.high, &mut self.has_high, high, has_high);
        fill(&mut self.places, &mut self.has_places, places, has_places);
        self.status = self.status.or(status);
        self.writable = self.writable.or(writable);
        self.rare = completed_rare(self.rare.take(), rare);
    }

    /// A copy without the href, and with another slot.
    pub fn copy_with(&self, slot: &Slot) -> Result<Attributes, AllocError>
        ensures { IfOk result (λ copy. copy ≡ record self.now { href = None; slot = slot.now }) }
    {
        let alloc = self.words.allocator();
        Ok(Attributes {
            name: self.name.copy()?,
            href: Text::empty(),
            words: self.words.copy()?,
            slot: slot.copy()?,
            unit: self.unit.copy()?,
            low: self.low.copy()?,
            high: self.high.copy()?,
            places: self.places,
            rare: copy_rare(alloc, &self.rare)?,
            kind: self.kind,
            status: self.status,
            writable: self.writable,
            has_name: self.has_name,
            has_href: false,
            has_words: self.has_words,
            has_unit: self.has_unit,
            has_low: self.has_low,
            has_high: self.has_high,
            has_places: self.has_places,
        })
    }

    /// A copy.
    pub fn copy(&self) -> Result<Attributes, AllocError>
        ensures { IfOk result (λ copy. copy ≡ self.now) }
    {
        let mut copy = self.copy_with(&self.slot)?;
        copy.href = self.href.copy()?;
        copy.has_href = self.has_href;
        Ok(copy)
    }
}
