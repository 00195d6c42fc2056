//! A reply that holds its own bytes.
use ob_values::Bytes;

/// A whole reply.
#[derive(Drop)]
pub struct Reply {
    /// The three digits of the status, as a number below 1,000.
    pub status: u16,
    pub body: Bytes,
}
