//! Hrefs: what each text is resolved to against `http://h/obix/`, by the URL Standard, and what it is located as where the
//! server goes by many names.
use crate::bases::fault_word;
use ob_href::{Base, HrefFault, Path, locate, resolve};
use ob_rows::{Row, Table};
use std::alloc::{AllocError, Global};

/// Hrefs, resolved and located.
#[derive(Drop)]
pub(crate) struct Hrefs {
    base: Base,
}

fn tell(told: &mut String, path: &Result<Path, HrefFault>) -> Result<(), AllocError> {
    match path {
        Ok(path) => told.push_str(path.as_str()),
        Err(fault) => told.push_str(fault_word(*fault)),
    }
}

impl Hrefs {
    /// The hrefs of documents of `http://h/obix/`.
    pub(crate) fn new(alloc: Global) -> Result<Self, HrefFault> {
        let base = Base::new(alloc, "http://h/obix/")?;
        Ok(Hrefs { base })
    }
}

impl Table for Hrefs {
    fn answer(&mut self, alloc: Global, asked: Row, told: &mut String) -> Result<(), AllocError> {
        let Ok(text) = std::str::from_utf8(asked.bytes) else {
            return told.push_str("no text");
        };
        tell(told, &resolve(alloc, &self.base, text))?;
        told.push_str(" => ")?;
        tell(told, &locate(alloc, &self.base, text))
    }
}
