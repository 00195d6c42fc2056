//! Parts that offend against a form, and the first of them.
ghost use Rattle.std.specs.Prelude.{◌≡◌};
ghost use Rattle.ob_parts.specs.Least as order;

/// A part that offends against a form, by its number in the order of the document, and the rule of the form that it breaks.
#[derive(Clone, Copy, PartialEq, Eq, Debug)]
pub struct Offence<R> {
    pub part: u64,
    pub rule: R,
}

/// The earlier of two offences, where there are any; of two at one part the first one.
pub fn earlier<R: Copy>(one: Option<Offence<R>>, other: Option<Offence<R>>) -> Option<Offence<R>>
    ensures { result ≡ order.earlier one other }
{
    match one {
        Some(one) => match other {
            Some(other) => Some(if other.part < one.part { other } else { one }),
            None => Some(one),
        },
        None => other,
    }
}
