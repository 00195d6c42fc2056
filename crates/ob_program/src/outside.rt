//! What a run computes with and is lent of the outside, in the parts that its commands take.
use std::alloc::Global;

/// What a command computes with.
#[derive(Clone, Copy, Drop)]
pub(crate) struct Means<'r, R> {
    /// The runtime of its threads.
    pub(crate) rt: &'r R,
    pub(crate) alloc: Global,
}

/// The files that are read, and the devices of records.
#[derive(Drop)]
pub(crate) struct Storage<'f, 'd, F, V> {
    pub(crate) files: &'f mut F,
    pub(crate) devices: &'d mut V,
}

/// A port whose links are served, the clock of their requests' moments, and where it is printed how that goes.
#[derive(Drop)]
pub(crate) struct Front<'s, 'p, 'c, K, P, C> {
    pub(crate) sink: &'s mut K,
    pub(crate) port: &'p mut P,
    pub(crate) clock: &'c mut C,
}

/// A link, and the dialer that reaches the servers from which its requests are answered.
#[derive(Drop)]
pub(crate) struct Relay<'l, 'w, L, W> {
    pub(crate) link: &'l mut L,
    pub(crate) dialer: &'w mut W,
}
