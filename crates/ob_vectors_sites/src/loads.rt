//! Site files: what they open, or why they open nothing.
use crate::sites::load_site;
use ob_load::LoadFault;
use ob_rows::{Row, Table};
use ob_times::Moment;
use std::alloc::{AllocError, Global};

/// Rows of site documents, each opened at 2026-01-05T08:00:00Z: `opens`, or the words of the refusal.
#[derive(Drop)]
pub(crate) struct Loads;

impl Table for Loads {
    fn answer(&mut self, alloc: Global, asked: Row, told: &mut String) -> Result<(), AllocError> {
        let Some(boot) = Moment::new(1_767_600_000_000) else {
            return Ok(());
        };
        match load_site(alloc, asked.bytes, boot) {
            Ok(_loaded) => told.push_str("opens"),
            Err(LoadFault::Memory) => Err(AllocError),
            Err(fault) => told.push_str(fault.words(alloc)?.as_str()),
        }
    }
}
