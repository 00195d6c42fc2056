//! What is counted in a storm.

/// What is counted in the replies to a storm's requests, and at its end.
#[derive(Clone, Copy, PartialEq, Eq)]
pub struct Totals {
    /// The requests of the storm.
    pub requests: u64,
    /// The replies that are an err.
    pub errs: u64,
    /// The entries of a WatchOut that are neither a feed nor an err.
    pub objects: u64,
    /// The events in the feeds of a WatchOut.
    pub events: u64,
    /// The records that the history shows at the end.
    pub records: u64,
    /// The alarms that the alarm subject shows at the end.
    pub alarms: u64,
}
