use ob_times::Moment;

/// What a caller of a machine is told.
#[derive(Drop)]
pub enum Answer<P> {
    /// The step was done, with this reply.
    Done(P),
    /// Memory was wanting, and the machine is as it was.
    NoMemory,
}

/// One call in a history: who asked, what, when, and the answer. Histories stand in contracts, and
/// the code keeps none.
pub struct Entry<Q, P> {
    /// The caller's number.
    pub caller: u64,
    pub request: Q,
    pub moment: Moment,
    pub answer: Answer<P>,
}
