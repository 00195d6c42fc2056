//! The media type of a body.

/// The media type of a body, as the first Content-Type field tells it.
#[derive(Clone, Copy, PartialEq, Eq)]
pub enum Media {
    /// There is no such field.
    Absent,
    /// `text/xml` or `application/xml`, in any case, with or without parameters.
    Xml,
    /// Any other, the empty one too.
    Other,
}
