//! Why a request is refused.

/// Why a request, an item of a batch, or an href that is added to a watch is refused.
///
/// Source: oBIX 1.1, chapter 10 (Networking: errors). Which err answers which refusal, and its words,
/// are this profile's own.
#[derive(Clone, Copy, PartialEq, Eq)]
pub enum Fault {
    /// The path names nothing.
    NoSuchObject,
    /// What is there takes no request of this verb.
    NotSupported,
    /// The input is no object of the form that is asked for.
    OtherShape,
    /// What is there is neither watched as an object nor as a feed.
    NotWatchable,
    /// The request is of those that a batch leaves out.
    NotInBatch,
    /// The object isn't shown as writable.
    NotWritable,
    /// The value is of another kind.
    OtherKind,
    /// The value is below the least one.
    BelowMin,
    /// The value is above the greatest one.
    AboveMax,
    /// The enum's value isn't in its range.
    NotInRange,
    /// The text has more than 4,096 bytes.
    TextTooLong,
    /// The lease isn't from a second to a day.
    LeaseOutOfRange,
    /// 1,000 watches stand.
    TooManyWatches,
    /// The watch has 2,048 items.
    TooManyItems,
    /// The href has more than 1,024 bytes.
    HrefTooLong,
    /// The batch has more than 1,000 items.
    TooManyBatchItems,
    /// Records and alarm events would be more than 1,000,000.
    TooManyEntries,
    /// All watches together have 200,000 items.
    TooManyItemsInAll,
    /// The hrefs of all watches together would have more than 16,777,216 bytes.
    TooManyHrefBytes,
}
