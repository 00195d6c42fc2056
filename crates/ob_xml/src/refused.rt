//! Why a document is refused.

ghost use Rattle.std.specs.Prelude.{◌≡◌};

use ob_values::ValueFault;
use std::alloc::{AllocError, AllocFailed};
use std::error::Error;

/// The cause of a refusal.
#[derive(Clone, Copy, Debug, PartialEq, Eq)]
pub enum Why {
    /// A construct is malformed, or stands where none may.
    Markup,
    /// The kind of a tag isn't one of the sixteen.
    Element,
    /// An end tag of another kind.
    Mismatch,
    /// A second attribute of one name in one tag.
    Twice,
    /// A second child of one name in one element.
    SameName,
    /// The value of an attribute can't be read.
    Value(ValueFault),
    /// Something other than white space between tags.
    Text,
    /// A start tag at level 33.
    Deep,
    /// More than 16,777,216 bytes.
    Big,
    /// The input ends before the document does.
    Ended,
    /// There was no memory. The place is then the number of bytes fed.
    Memory,
}

impl Error for Why {}

impl From<AllocError> for Why {
    ghost use Rattle.ob_xml.specs.declared.refused.Why.TheVariants.{Memory};

    ghost from_gives = { λ _ e. e ≡ Memory };

    fn from(_e: AllocError) -> Why {
        Why::Memory
    }
}

impl<T: Drop> From<AllocFailed<T>> for Why {
    ghost use Rattle.ob_xml.specs.declared.refused.Why.TheVariants.{Memory};

    ghost from_gives = { λ _ e. e ≡ Memory };

    fn from(_e: AllocFailed<T>) -> Why {
        Why::Memory
    }
}

/// The place, in bytes from the start of the document, and the cause of the first refused construct.
#[derive(Clone, Copy, Debug, PartialEq, Eq)]
pub struct Refused {
    pub at: u64,
    pub why: Why,
}

impl Error for Refused {}
