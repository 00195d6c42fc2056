//! The words of a refusal.

ghost use Rattle.std.specs.Prelude.{◌≡◌, IfOk, string_bytes};
ghost use Rattle.ob_xml.specs.Words as spec;
ghost use Rattle.ob_xml.specs.Words.{refusal_words};

use crate::refused::{Refused, Why};
use ob_values::ValueFault;
use std::alloc::{AllocError, Global};
use std::fmt::{self, Display, Formatter, Write};

fn value_str(fault: ValueFault) -> &'static str
    ensures { result.now ≡ spec.value_words fault }
{
    match fault {
        ValueFault::NotBool => "Value NotBool",
        ValueFault::NotNumber => "Value NotNumber",
        ValueFault::NotFinite => "Value NotFinite",
        ValueFault::Digits => "Value Digits",
        ValueFault::Range => "Value Range",
        ValueFault::NotTime => "Value NotTime",
        ValueFault::NotStatus => "Value NotStatus",
        ValueFault::NotName => "Value NotName",
    }
}

fn why_str(why: Why) -> &'static str
    ensures { result.now ≡ spec.why_words why }
{
    match why {
        Why::Markup => "Markup",
        Why::Element => "Element",
        Why::Mismatch => "Mismatch",
        Why::Twice => "Twice",
        Why::SameName => "SameName",
        Why::Value(fault) => value_str(fault),
        Why::Text => "Text",
        Why::Deep => "Deep",
        Why::Big => "Big",
        Why::Ended => "Ended",
        Why::Memory => "Memory",
    }
}

impl Refused {
    /// The cause and the place, as `Value Digits at 6`.
    pub fn words(self, alloc: Global) -> Result<String, AllocError>
        ensures { IfOk result (λ words. string_bytes words ≡ refusal_words self) }
    {
        let why = why_str(self.why);
        let at = self.at;
        format!(in alloc; "{why} at {at}")
    }
}

impl Display for Why {
    fn fmt<W: Write>(&self, f: &mut Formatter<W>) -> fmt::Result {
        f.write_str(why_str(*self))
    }
}

impl Display for Refused {
    fn fmt<W: Write>(&self, f: &mut Formatter<W>) -> fmt::Result {
        let why = why_str(self.why);
        let at = self.at;
        write!(f, "{why} at {at}")
    }
}
