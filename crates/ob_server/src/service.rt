//! What links and doors are served with.
use ob_machine::Machine;
use ob_turn::Desk;
use ob_values::Text;
use std::alloc::Global;

/// What the links of any machine are served with.
#[derive(Clone, Copy, Drop)]
pub struct Serving<'r, 'n, R> {
    /// The runtime of waits and threads.
    pub rt: &'r R,
    pub alloc: Global,
    /// The name space that each document names.
    pub ns: Option<&'n Text>,
}

/// A link, and the clock of its requests' moments.
#[derive(Drop)]
pub struct TimedLink<'l, 'c, L, C> {
    pub link: &'l mut L,
    pub clock: &'c mut C,
}

/// A port whose links are served, and the clock of their requests' moments.
#[derive(Drop)]
pub struct TimedPort<'p, 'c, P, C> {
    pub port: &'p mut P,
    pub clock: &'c mut C,
}

/// What all links of a desk are served with.
#[derive(Clone, Copy, Drop)]
pub(crate) struct Service<'r, 'd, 'n, M: Machine, R> {
    pub(crate) rt: &'r R,
    pub(crate) alloc: Global,
    pub(crate) desk: &'d Desk<M>,
    /// The name space that each document names.
    pub(crate) ns: Option<&'n Text>,
}
