//! How much of a message is taken.

/// The most bytes of a head, its empty lines included.
pub const HEAD_LIMIT: usize = 8192;

/// The most fields of a head.
pub const FIELD_LIMIT: usize = 64;

/// More fields than fit in the most bytes of a head, since each takes three bytes or more.
pub(crate) const FIELDS_IN_HEAD: usize = 2731;

/// The most bytes of a request's body.
pub const BODY_LIMIT: usize = 1_048_576;

/// The most bytes of a reply's body.
pub const REPLY_LIMIT: usize = 16_777_216;
