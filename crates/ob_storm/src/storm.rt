//! Which storm.

/// A storm of requests.
#[derive(Clone, Copy)]
pub struct Storm {
    /// What the draws begin with.
    pub seed: u64,
    /// How many clients ask, in turn.
    pub clients: u32,
    /// How many requests they make in all, those before the storm aside.
    pub requests: u32,
}
