//! Facets: what an object says of its value.
ghost use Rattle.std.specs.Prelude.{◌≡◌, ◌↔◌, false};
ghost use Rattle.ob_object.specs.Facets.{no_facets};
ghost use Rattle.ob_object.specs.Kept.{HasNoRare};

use crate::status::Status;
use ob_values::{Text, Value};

/// The names of the facets.
#[derive(Clone, Copy, PartialEq, Eq)]
pub enum Facet {
    Display,
    DisplayName,
    Icon,
    Min,
    Max,
    Precision,
    Range,
    Status,
    Tz,
    Unit,
    Writable,
}

/// A facet's value, lent.
#[derive(Clone, Copy)]
pub enum FacetRef<'a> {
    /// Of min and max.
    Limit(&'a Value),
    /// Of precision.
    Number(i64),
    /// Of status.
    Word(Status),
    /// Of writable.
    Truth(bool),
    /// Of the others.
    Words(&'a Text),
}

/// The facets of an object.
/// Source: oBIX 1.1, section 4.2.7.
pub struct Facets {
    /// Text for people, of the object's state.
    pub display: Option<Text>,
    /// Text for people, in place of the name.
    pub display_name: Option<Text>,
    /// The address of a picture.
    pub icon: Option<Text>,
    /// The least value, or the least length of a str or a list.
    pub min: Option<Value>,
    /// The greatest value, or the greatest length.
    pub max: Option<Value>,
    /// How many places of a real count.
    pub precision: Option<i64>,
    /// The address of the object whose children name the values of an enum.
    pub range: Option<Text>,
    pub status: Option<Status>,
    /// The zone of a time.
    pub tz: Option<Text>,
    /// The address of the unit of a number.
    pub unit: Option<Text>,
    /// Whether clients may write the value.
    pub writable: Option<bool>,
}

impl Drop for Facets {
    // By one call for each part, as a head.
    fn drop(self) {
        let Facets {
            display,
            display_name,
            icon,
            min,
            max,
            precision: _,
            range,
            status: _,
            tz,
            unit,
            writable: _,
        } = self;
        drop(display);
        drop(display_name);
        drop(icon);
        drop(min);
        drop(max);
        drop(range);
        drop(tz);
        drop(unit);
    }
}

impl Facets {
    /// No facets.
    pub fn none() -> Facets
        ensures { result ≡ no_facets }
    {
        Facets {
            display: None,
            display_name: None,
            icon: None,
            min: None,
            max: None,
            precision: None,
            range: None,
            status: None,
            tz: None,
            unit: None,
            writable: None,
        }
    }

    /// Whether one is there that few objects have.
    pub(crate) fn has_rare(&self) -> bool
        ensures { (result ≡ false) ↔ HasNoRare self.now }
    {
        self.display.is_some()
            || self.display_name.is_some()
            || self.icon.is_some()
            || self.range.is_some()
            || self.tz.is_some()
    }
}
