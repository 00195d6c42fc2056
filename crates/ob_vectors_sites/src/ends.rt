//! Files of records at rest: how far their entries go.
use ob_journal::{Extent, NoJournal, find};
use ob_record_journal::Blocks;
use ob_rows::{Row, Table};
use std::alloc::{AllocError, Global};

/// Rows of a file each: where its entries end, as the blocks of a record, or where it ceases to be a journal's.
#[derive(Drop)]
pub(crate) struct Ends;

impl Table for Ends {
    fn answer(&mut self, _alloc: Global, asked: Row, told: &mut String) -> Result<(), AllocError> {
        match find::<Blocks>(asked.bytes) {
            Ok(Extent::Entries { end }) => write!(told, "entries to {end}"),
            Ok(Extent::Unmade) => told.push_str("unmade"),
            Err(NoJournal { place }) => write!(told, "no journal's from {place}"),
        }
    }
}
