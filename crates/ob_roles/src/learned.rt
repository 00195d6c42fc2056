//! What is known of the contracts of a site.
use crate::kinds::Known;
use crate::taking::Table;

/// The contracts by their words, each with few of the words of its parts, and what the words are.
#[derive(Clone, Copy)]
pub(crate) struct Learned<'t, 'k> {
    pub(crate) table: &'t Table,
    pub(crate) known: &'k Known,
}
