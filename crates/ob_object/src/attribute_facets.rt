//! The facets that an object keeps: what of it is shown, in what limits, and how it is.
ghost use Rattle.std.specs.Prelude.{◌≡◌, None, MatchResult};
ghost use Rattle.std.specs.Option.{option_copied};
ghost use Rattle.ob_object.specs.Kept.{facets_lent};

use crate::attributes::Attributes;
use crate::facet::Facets;
use crate::lent::LentFacets;
use crate::rare::take_rare;
use crate::status::Status;
use ob_values::{Text, Value};
use std::alloc::AllocError;

impl Attributes {
    /// The status.
    pub fn status(&self) -> Option<Status>
        ensures { result ≡ self.now.facets.status }
    {
        self.status
    }

    /// Whether clients may write the value.
    pub fn writable(&self) -> Option<bool>
        ensures { result ≡ self.now.facets.writable }
    {
        self.writable
    }

    /// How many places of a real count.
    pub fn precision(&self) -> Option<i64>
        ensures { result ≡ self.now.facets.precision }
    {
        if self.has_places {
            Some(self.places)
        } else {
            None
        }
    }

    /// The address of the unit of a number.
    pub fn unit(&self) -> Option<&Text>
        ensures { option_copied result ≡ self.now.facets.unit }
    {
        if self.has_unit {
            Some(&self.unit)
        } else {
            None
        }
    }

    /// The least value, or the least length of a str or a list.
    pub fn min(&self) -> Option<&Value>
        ensures { option_copied result ≡ self.now.facets.min }
    {
        if self.has_low { Some(&self.low) } else { None }
    }

    /// The greatest value, or the greatest length.
    pub fn max(&self) -> Option<&Value>
        ensures { option_copied result ≡ self.now.facets.max }
    {
        if self.has_high {
            Some(&self.high)
        } else {
            None
        }
    }

    /// Text for people, of the object's state.
    pub fn display(&self) -> Option<&Text>
        ensures { option_copied result ≡ self.now.facets.display }
    {
        match &self.rare {
            Some(rare) => rare.display.as_ref(),
            None => None,
        }
    }

    /// Text for people, in place of the name.
    pub fn display_name(&self) -> Option<&Text>
        ensures { option_copied result ≡ self.now.facets.display_name }
    {
        match &self.rare {
            Some(rare) => rare.display_name.as_ref(),
            None => None,
        }
    }

    /// The address of a picture.
    pub fn icon(&self) -> Option<&Text>
        ensures { option_copied result ≡ self.now.facets.icon }
    {
        match &self.rare {
            Some(rare) => rare.icon.as_ref(),
            None => None,
        }
    }

    /// The address of the object whose children name the values of an enum.
    pub fn range(&self) -> Option<&Text>
        ensures { option_copied result ≡ self.now.facets.range }
    {
        match &self.rare {
            Some(rare) => rare.range.as_ref(),
            None => None,
        }
    }

    /// The zone of a time.
    pub fn tz(&self) -> Option<&Text>
        ensures { option_copied result ≡ self.now.facets.tz }
    {
        match &self.rare {
            Some(rare) => rare.tz.as_ref(),
            None => None,
        }
    }

    /// The facets.
    pub fn facets(&self) -> LentFacets<'_>
        ensures { facets_lent result ≡ self.now.facets }
    {
        LentFacets {
            display: self.display(),
            display_name: self.display_name(),
            icon: self.icon(),
            min: self.min(),
            max: self.max(),
            precision: self.precision(),
            range: self.range(),
            status: self.status(),
            tz: self.tz(),
            unit: self.unit(),
            writable: self.writable(),
        }
    }

    /// Sets it, or takes it away: the address of the unit of a number.
    pub fn put_unit(&mut self, unit: Option<Text>)
        ensures { self.new ≡ record self.old { facets = record self.old.facets { unit = unit } } }
    {
        match unit {
            Some(unit) => {
                self.unit = unit;
                self.has_unit = true;
            }
            None => {
                self.unit = Text::empty();
                self.has_unit = false;
            }
        }
    }

    /// Sets it, or takes it away: the least value, or the least length of a str or a list.
    pub fn put_min(&mut self, min: Option<Value>)
        ensures { self.new ≡ record self.old { facets = record self.old.facets { min = min } } }
    {
        match min {
            Some(min) => {
                self.low = min;
                self.has_low = true;
            }
            None => {
                self.low = Value::Bool(false);
                self.has_low = false;
            }
        }
    }

    /// Sets it, or takes it away: the greatest value, or the greatest length.
    pub fn put_max(&mut self, max: Option<Value>)
        ensures { self.new ≡ record self.old { facets = record self.old.facets { max = max } } }
    {
        match max {
            Some(max) => {
                self.high = max;
                self.has_high = true;
            }
            None => {
                self.high = Value::Bool(false);
                self.has_high = false;
            }
        }
    }

    /// Sets the status, or takes it away.
    pub fn put_status(&mut self, status: Option<Status>)
        ensures { self.new ≡ record self.old { facets = record self.old.facets { status = status } } }
    {
        self.status = status;
    }

    /// Sets whether clients may write the value, or takes it away.
    pub fn put_writable(&mut self, writable: Option<bool>)
        ensures { self.new ≡ record self.old { facets = record self.old.facets { writable = writable } } }
    {
        self.writable = writable;
    }

    /// Sets how many places of a real count, or takes it away.
    pub fn put_precision(&mut self, precision: Option<i64>)
        ensures { self.new ≡ record self.old { facets = record self.old.facets { precision = precision } } }
    {
        match precision {
            Some(places) => {
                self.places = places;
                self.has_places = true;
            }
            None => self.has_places = false,
        }
    }

    /// Sets it, or takes it away: text for people, of the object's state.
    /// It comes back where there is no memory; all is then as it was.
    pub fn put_display(&mut self, display: Option<Text>) -> Result<(), Option<Text>>
        ensures { MatchResult result
            (λ _. self.new ≡ record self.old { facets = record self.old.facets { display = display } })
            (λ back. (back ≡ display) × (self.new ≡ self.old)) }
    {
        if display.is_none() && self.rare.is_none() {
            return Ok(());
        }
        match take_rare(self.words.allocator(), &mut self.rare) {
            Ok(mut rare) => {
                rare.display = display;
                self.rare = Some(rare);
                Ok(())
            }
            Err(_) => Err(display),
        }
    }

    /// Sets it, or takes it away: text for people, in place of the name.
    /// It comes back where there is no memory; all is then as it was.
    pub fn put_display_name(&mut self, display_name: Option<Text>) -> Result<(), Option<Text>>
        ensures { MatchResult result
            (λ _. self.new ≡ record self.old { facets = record self.old.facets { display_name = display_name } })
            (λ back. (back ≡ display_name) × (self.new ≡ self.old)) }
    {
        if display_name.is_none() && self.rare.is_none() {
            return Ok(());
        }
        match take_rare(self.words.allocator(), &mut self.rare) {
            Ok(mut rare) => {
                rare.display_name = display_name;
                self.rare = Some(rare);
                Ok(())
            }
            Err(_) => Err(display_name),
        }
    }

    /// Sets it, or takes it away: the address of a picture.
    /// It comes back where there is no memory; all is then as it was.
    pub fn put_icon(&mut self, icon: Option<Text>) -> Result<(), Option<Text>>
        ensures { MatchResult result
            (λ _. self.new ≡ record self.old { facets = record self.old.facets { icon = icon } })
            (λ back. (back ≡ icon) × (self.new ≡ self.old)) }
    {
        if icon.is_none() && self.rare.is_none() {
            return Ok(());
        }
        match take_rare(self.words.allocator(), &mut self.rare) {
            Ok(mut rare) => {
                rare.icon = icon;
                self.rare = Some(rare);
                Ok(())
            }
            Err(_) => Err(icon),
        }
    }

    /// Sets it, or takes it away: the address of the object whose children name the values of an enum.
    /// It comes back where there is no memory; all is then as it was.
    pub fn put_range(&mut self, range: Option<Text>) -> Result<(), Option<Text>>
        ensures { MatchResult result
            (λ _. self.new ≡ record self.old { facets = record self.old.facets { range = range } })
            (λ back. (back ≡ range) × (self.new ≡ self.old)) }
    {
        if range.is_none() && self.rare.is_none() {
            return Ok(());
        }
        match take_rare(self.words.allocator(), &mut self.rare) {
            Ok(mut rare) => {
                rare.range = range;
                self.rare = Some(rare);
                Ok(())
            }
            Err(_) => Err(range),
        }
    }

    /// Sets it, or takes it away: the zone of a time.
    /// It comes back where there is no memory; all is then as it was.
    pub fn put_tz(&mut self, tz: Option<Text>) -> Result<(), Option<Text>>
        ensures { MatchResult result
            (λ _. self.new ≡ record self.old { facets = record self.old.facets { tz = tz } })
            (λ back. (back ≡ tz) × (self.new ≡ self.old)) }
    {
        if tz.is_none() && self.rare.is_none() {
            return Ok(());
        }
        match take_rare(self.words.allocator(), &mut self.rare) {
            Ok(mut rare) => {
                rare.tz = tz;
                self.rare = Some(rare);
                Ok(())
            }
            Err(_) => Err(tz),
        }
    }

    // Takes those facets that few objects have.
    fn keep_rare(&mut self, facets: &mut Facets) -> Result<(), AllocError>
        ensures { MatchResult result
            (λ _. (self.new ≡ record self.old {
              facets = record self.old.facets {
                display = facets.old.display;
                display_name = facets.old.display_name;
                icon = facets.old.icon;
                range = facets.old.range;
                tz = facets.old.tz;
              };
            }) × (facets.new ≡ record facets.old { display = None; display_name = None; icon = None; range = None; tz = None }))
            (λ _. (self.new ≡ self.old) × (facets.new ≡ facets.old)) }
    {
        if self.rare.is_none() && !facets.has_rare() {
            return Ok(());
        }
        let mut rare = take_rare(self.words.allocator(), &mut self.rare)?;
        rare.display = facets.display.take();
        rare.display_name = facets.display_name.take();
        rare.icon = facets.icon.take();
        rare.range = facets.range.take();
        rare.tz = facets.tz.take();
        self.rare = Some(rare);
        Ok(())
    }

    /// Sets the facets. They come back where there is no memory; all is then as it was.
    pub fn put_facets(&mut self, mut facets: Facets) -> Result<(), Facets>
        ensures { MatchResult result
            (λ _. self.new ≡ record self.old { facets = facets })
            (λ back. (back ≡ facets) × (self.new ≡ self.old)) }
    {
        if self.keep_rare(&mut facets).is_err() {
            return Err(facets);
        }
        self.put_unit(facets.unit.take());
        self.put_min(facets.min.take());
        self.put_max(facets.max.take());
        self.put_precision(facets.precision);
        self.put_status(facets.status);
        self.put_writable(facets.writable);
        Ok(())
    }
}
