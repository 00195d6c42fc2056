//! Why bytes spell no value.
use thiserror::Error;

/// Why bytes spell no value of a kind.
#[derive(Clone, Copy, Debug, PartialEq, Eq, Error)]
pub enum ValueFault {
    /// A bool of another form.
    #[error("NotBool")]
    NotBool,
    /// An int, a real or a precision of another form.
    #[error("NotNumber")]
    NotNumber,
    /// A real that is one of the words `NaN`, `INF` and `-INF`.
    #[error("NotFinite")]
    NotFinite,
    /// A real of the right form that needs more than 18 digits or more than 18 places.
    #[error("Digits")]
    Digits,
    /// A value of another kind, of the right form, that is out of its kind's range.
    #[error("Range")]
    Range,
    /// A date, a time, an abstime or a reltime of another form.
    #[error("NotTime")]
    NotTime,
    /// A status that is none of the eight words.
    #[error("NotStatus")]
    NotStatus,
    /// A name of no byte, or of more than 255.
    #[error("NotName")]
    NotName,
}
