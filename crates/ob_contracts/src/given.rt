//! What the sources of an object give to its head.
ghost use Rattle.std.specs.Prelude.{◌≡◌, IfOk, OnOk};
ghost use Rattle.std.specs.Option.{option_copied};
ghost use Rattle.ob_object.specs.Completed.{completed, slot_or};
ghost use Rattle.ob_object.specs.Facets.{no_facets};
ghost use Rattle.ob_contracts.specs.Given.{giver_in, given_part, given_facets, given_head, headed};
ghost use Rattle.ob_contracts.specs.Places.{sources_of};
ghost use Rattle.ob_contracts.specs.Shown.{finish, IsLooked};
ghost use Rattle.ob_contracts.specs.declared.reading.Part.TheVariants as part;

use crate::lookup::Looked;
use crate::reading::{Part, has_part, slot_or_default};
use ob_object::{Attributes, Obj, Slot, Status, Words, copy_text, copy_value, copy_words};
use ob_values::{Text, Value};
use std::alloc::{AllocError, Global};

impl<'a> Looked<'a> {
    /// The first source that gives a part, where the object lacks it.
    fn giver(&self, part: &Part) -> Option<&'a Obj>
        requires { IsLooked self.now }
        ensures { option_copied result ≡ giver_in part.now self.now.sources.own.now (sources_of self.now.sources) }
    {
        if has_part(self.sources.own, part) {
            None
        } else {
            self.first_giver(part)
        }
    }

    fn of(&self) -> Option<&'a Words>
        requires { IsLooked self.now }
        ensures { option_copied result ≡ given_part (λ s. s.head.of) part.Of self.now.sources.own.now (sources_of self.now.sources) }
    {
        match self.giver(&Part::Of) {
            Some(source) => source.head().of(),
            None => None,
        }
    }

    fn input(&self) -> Option<&'a Words>
        requires { IsLooked self.now }
        ensures { option_copied result ≡ given_part (λ s. s.head.input) part.Input self.now.sources.own.now (sources_of self.now.sources) }
    {
        match self.giver(&Part::Input) {
            Some(source) => source.head().input(),
            None => None,
        }
    }

    fn output(&self) -> Option<&'a Words>
        requires { IsLooked self.now }
        ensures { option_copied result ≡ given_part (λ s. s.head.output) part.Output self.now.sources.own.now (sources_of self.now.sources) }
    {
        match self.giver(&Part::Output) {
            Some(source) => source.head().output(),
            None => None,
        }
    }

    fn display(&self) -> Option<&'a Text>
        requires { IsLooked self.now }
        ensures { option_copied result ≡ given_part (λ s. s.head.facets.display) part.Display self.now.sources.own.now (sources_of self.now.sources) }
    {
        match self.giver(&Part::Display) {
            Some(source) => source.head().display(),
            None => None,
        }
    }

    fn display_name(&self) -> Option<&'a Text>
        requires { IsLooked self.now }
        ensures { option_copied result ≡ given_part (λ s. s.head.facets.display_name) part.DisplayName self.now.sources.own.now (sources_of self.now.sources) }
    {
        match self.giver(&Part::DisplayName) {
            Some(source) => source.head().display_name(),
            None => None,
        }
    }

    fn icon(&self) -> Option<&'a Text>
        requires { IsLooked self.now }
        ensures { option_copied result ≡ given_part (λ s. s.head.facets.icon) part.Icon self.now.sources.own.now (sources_of self.now.sources) }
    {
        match self.giver(&Part::Icon) {
            Some(source) => source.head().icon(),
            None => None,
        }
    }

    fn min(&self) -> Option<&'a Value>
        requires { IsLooked self.now }
        ensures { option_copied result ≡ given_part (λ s. s.head.facets.min) part.Min self.now.sources.own.now (sources_of self.now.sources) }
    {
        match self.giver(&Part::Min) {
            Some(source) => source.head().min(),
            None => None,
        }
    }

    fn max(&self) -> Option<&'a Value>
        requires { IsLooked self.now }
        ensures { option_copied result ≡ given_part (λ s. s.head.facets.max) part.Max self.now.sources.own.now (sources_of self.now.sources) }
    {
        match self.giver(&Part::Max) {
            Some(source) => source.head().max(),
            None => None,
        }
    }

    fn precision(&self) -> Option<i64>
        requires { IsLooked self.now }
        ensures { result ≡ given_part (λ s. s.head.facets.precision) part.Precision self.now.sources.own.now (sources_of self.now.sources) }
    {
        match self.giver(&Part::Precision) {
            Some(source) => source.head().precision(),
            None => None,
        }
    }

    fn range(&self) -> Option<&'a Text>
        requires { IsLooked self.now }
        ensures { option_copied result ≡ given_part (λ s. s.head.facets.range) part.Range self.now.sources.own.now (sources_of self.now.sources) }
    {
        match self.giver(&Part::Range) {
            Some(source) => source.head().range(),
            None => None,
        }
    }

    fn status(&self) -> Option<Status>
        requires { IsLooked self.now }
        ensures { result ≡ given_part (λ s. s.head.facets.status) part.Status self.now.sources.own.now (sources_of self.now.sources) }
    {
        match self.giver(&Part::Status) {
            Some(source) => source.head().status(),
            None => None,
        }
    }

    fn tz(&self) -> Option<&'a Text>
        requires { IsLooked self.now }
        ensures { option_copied result ≡ given_part (λ s. s.head.facets.tz) part.Tz self.now.sources.own.now (sources_of self.now.sources) }
    {
        match self.giver(&Part::Tz) {
            Some(source) => source.head().tz(),
            None => None,
        }
    }

    fn unit(&self) -> Option<&'a Text>
        requires { IsLooked self.now }
        ensures { option_copied result ≡ given_part (λ s. s.head.facets.unit) part.Unit self.now.sources.own.now (sources_of self.now.sources) }
    {
        match self.giver(&Part::Unit) {
            Some(source) => source.head().unit(),
            None => None,
        }
    }

    fn writable(&self) -> Option<bool>
        requires { IsLooked self.now }
        ensures { result ≡ given_part (λ s. s.head.facets.writable) part.Writable self.now.sources.own.now (sources_of self.now.sources) }
    {
        match self.giver(&Part::Writable) {
            Some(source) => source.head().writable(),
            None => None,
        }
    }

    /// The slot of the object with all that it inherits, where no default is asked, or with the default of its kind.
    fn slot(&self, defaults: bool) -> &'a Slot
        requires { IsLooked self.now }
        ensures { result.now ≡ (finish defaults (headed self.now.sources.own.now (sources_of self.now.sources))).head.slot }
    {
        let slot = self.holder(&Part::Slot).slot();
        if defaults {
            slot_or_default(self.sources.library, self.sources.own.kind(), slot)
        } else {
            slot
        }
    }

    /// Puts a copy of each list of words that the object lacks.
    fn put_lists(&self, given: &mut Attributes) -> Result<(), AllocError>
        requires { IsLooked self.now }
        ensures { OnOk result (given.new ≡ record given.old {
          of = (given_head self.now.sources.own.now (sources_of self.now.sources)).of;
          input = (given_head self.now.sources.own.now (sources_of self.now.sources)).input;
          output = (given_head self.now.sources.own.now (sources_of self.now.sources)).output;
        }) }
    {
        if given.put_of(copy_words(self.of())?).is_err()
            || given.put_input(copy_words(self.input())?).is_err()
            || given.put_output(copy_words(self.output())?).is_err()
        {
            Err(AllocError)
        } else {
            Ok(())
        }
    }

    /// Puts a copy of each facet that the object lacks, where none is.
    fn put_facets(&self, given: &mut Attributes) -> Result<(), AllocError>
        requires looked { IsLooked self.now }
        requires none { given.old.facets ≡ no_facets }
        ensures { OnOk result (given.new ≡ record given.old { facets = given_facets self.now.sources.own.now (sources_of self.now.sources) }) }
    {
        if given.put_display(copy_text(self.display())?).is_err()
            || given
                .put_display_name(copy_text(self.display_name())?)
                .is_err()
            || given.put_icon(copy_text(self.icon())?).is_err()
            || given.put_range(copy_text(self.range())?).is_err()
            || given.put_tz(copy_text(self.tz())?).is_err()
        {
            return Err(AllocError);
        }
        given.put_min(copy_value(self.min())?);
        given.put_max(copy_value(self.max())?);
        given.put_unit(copy_text(self.unit())?);
        given.put_precision(self.precision());
        given.put_status(self.status());
        given.put_writable(self.writable());
        Ok(())
    }

    /// A copy of the slot that the object lacks.
    fn given_slot(&self, defaults: bool) -> Result<Slot, AllocError>
        requires { IsLooked self.now }
        ensures { IfOk result (λ slot. slot_or self.now.sources.own.now.head.slot slot ≡ (finish defaults (headed self.now.sources.own.now (sources_of self.now.sources))).head.slot) }
    {
        if has_part(self.sources.own, &Part::Slot) {
            Ok(Slot::Absent)
        } else {
            self.slot(defaults).copy()
        }
    }

    /// A copy of each part that the object lacks and that it inherits, and of the default of its kind where it has no slot
    /// and defaults are asked.
    pub(crate) fn given(&self, alloc: Global, defaults: bool) -> Result<Attributes, AllocError>
        requires { IsLooked self.now }
        ensures { IfOk result (λ given. completed self.now.sources.own.now.head given ≡ (finish defaults (headed self.now.sources.own.now (sources_of self.now.sources))).head) }
    {
        let mut given = Attributes::empty(alloc, self.sources.own.kind());
        self.put_lists(&mut given)?;
        self.put_facets(&mut given)?;
        let slot = self.given_slot(defaults)?;
        given.put_slot(slot);
        Ok(given)
    }
}
