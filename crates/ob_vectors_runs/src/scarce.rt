//! Files for which there may be no memory.
use ob_io::{FileFault, Files, RefusedFile};
use std::alloc::Global;

/// Files, which find memory when they are read, or never do.
#[derive(Drop)]
pub(crate) struct Scarce<F> {
    pub(crate) files: F,
    pub(crate) is_scarce: bool,
}

impl<F: Files> Files for Scarce<F> {
    ghost content = { λ s. F.content s.files };

    ghost faults = { λ s. F.faults s.files };

    ghost refused = { λ s. F.refused s.files };

    fn read_file(&mut self, alloc: Global, name: &str, limit: u64) -> Result<Vec<u8>, FileFault> {
        if self.is_scarce {
            return Err(FileFault::Memory);
        }
        self.files.read_file(alloc, name, limit)
    }

    fn last_refused(&self) -> Option<&RefusedFile> {
        self.files.last_refused()
    }
}
