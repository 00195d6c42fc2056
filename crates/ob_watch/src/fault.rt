//! Why a watch wasn't made, or an item not added.
use thiserror::Error;

/// Why a watch wasn't made, or an item not added.
#[derive(Clone, Copy, Debug, PartialEq, Eq, Error)]
pub enum WatchFault {
    /// No watch of that number is held.
    #[error("no such watch")]
    NoWatch,
    /// The most watches stand, or the last number was given.
    #[error("too many watches")]
    Full,
    /// The watch has its most items, and none of that href.
    #[error("too many items")]
    ItemsFull,
    /// All watches together have their most items, and this one none of that href.
    #[error("too many items in all")]
    AllItemsFull,
    /// The hrefs of all watches would have too many bytes with that one, and this watch has no item of it.
    #[error("too many bytes of hrefs in all")]
    AllBytesFull,
    /// There was no memory.
    #[error("no memory")]
    Memory,
}
