//! An object of a document with its number.
ghost use Rattle.std.specs.Prelude.{◌≡◌, option_map};
ghost use Rattle.ob_object.specs.Object.{parts};
ghost use Rattle.ob_parts.specs.Least.{least};
ghost use Rattle.ob_parts.specs.Numbered.{child, plus, root};
ghost use Rattle.ob_parts.specs.Offences as form;
ghost use Rattle.ob_parts.specs.Views.{part_of};

use crate::offence::Offence;
use ob_object::Obj;

/// An object of a document, with its number: the root has 0, and the others follow in document order. Numbers stand still at
/// the last of 64 bits.
#[derive(Clone, Copy)]
pub struct Part<'a> {
    pub number: u64,
    pub object: &'a Obj,
}

impl<'a> Part<'a> {
    /// The root of a document.
    pub fn root(object: &'a Obj) -> Part<'a>
        ensures { part_of result ≡ root object.now }
    {
        Part { number: 0, object }
    }

    /// The number of the first child, if there is one.
    pub fn number_inside(self) -> u64
        ensures { result ≡ plus self.entry.number 1 }
    {
        self.number.saturating_add(1)
    }

    /// The child of a name.
    pub fn child(self, name: &str) -> Option<Part<'a>>
        ensures { option_map part_of result ≡ child name.now (part_of self.entry) }
    {
        let mut number = self.number_inside();
        for object in self.object.children() {
            if object.is_named(name) {
                return Some(Part { number, object });
            }
            number = number_behind(number, object);
        }
        None
    }

    /// This part, which breaks a rule.
    pub fn breaks<R>(self, rule: R) -> Offence<R>
        ensures { result ≡ form.breaks rule (part_of self.entry) }
    {
        Offence {
            part: self.number,
            rule,
        }
    }

    /// This part, which breaks a rule unless it is as it has to be.
    pub fn unless<R: Copy>(self, is_right: bool, rule: R) -> Option<Offence<R>>
        ensures { result ≡ least (form.unless is_right rule (part_of self.entry)) }
    {
        if is_right {
            None
        } else {
            Some(self.breaks(rule))
        }
    }
}

/// The number behind an object and all that is in it.
pub fn number_behind(number: u64, object: &Obj) -> u64
    ensures { result ≡ plus number (parts object.now) }
{
    number.saturating_add(object.parts())
}
