//! What a watch consists of.

/// A watch, its lease, or one of its ops.
///
/// Source: oBIX 1.1, chapter 12 (Watch).
#[derive(Clone, Copy, PartialEq, Eq)]
pub enum WatchPart {
    /// The watch itself.
    Whole,
    /// The time that it lasts without a request.
    Lease,
    /// The op that puts items on it.
    Add,
    /// The op that takes items off it.
    Remove,
    /// The op that tells what has changed since the last poll.
    PollChanges,
    /// The op that tells all that is watched.
    PollRefresh,
    /// The op that ends it.
    Delete,
}
