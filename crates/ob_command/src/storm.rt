//! A storm of requests on a site of its own.
ghost use Rattle.std.specs.Prelude.{◌<◌};

/// A storm of requests.
#[derive(Clone, Copy)]
pub struct Storm {
    /// What the draws begin with.
    pub seed: u64,
    /// How many clients ask, in turn.
    pub clients: u32,
    /// How many requests they make in all.
    pub requests: u32,
    ghost some_clients: { 0 < clients },
}
