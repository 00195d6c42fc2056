use ob_machine::Entry;
use std::collections::LinkedList;

// Numbers, and the history that had been seen under them.
pub struct Past<Q, P> {
    pub numbers: LinkedList<u64>,
    pub seen: LinkedList<Entry<Q, P>>,
}

// What a seat of the table knows: the numbers of its callers, the length of the history when it was
// made, the history that it has seen, whether it has the turn, and the histories that were joined in
// it and not yet compared. No value of it is made.
pub struct Known<Q, P> {
    pub numbers: LinkedList<u64>,
    pub since: u64,
    pub seen: LinkedList<Entry<Q, P>>,
    pub has_turn: bool,
    pub pasts: LinkedList<Past<Q, P>>,
}
