//! Bases: the parts of each, and what is joined to it.
use ob_href::{Base, HrefFault};
use ob_rows::{Row, Table, push_number, push_words};
use std::alloc::{AllocError, Global};

/// A base, and an href that is joined to it where one stands behind a blank.
#[derive(Drop)]
pub(crate) struct Bases;

/// The word of a fault.
pub(crate) fn fault_word(fault: HrefFault) -> &'static str {
    match fault {
        HrefFault::NotUrl => "NotUrl",
        HrefFault::Fragment => "Fragment",
        HrefFault::OtherOrigin => "OtherOrigin",
        HrefFault::Memory => "Memory",
    }
}

fn tell(base: &Base, told: &mut String) -> Result<(), AllocError> {
    let scheme = if base.is_https() { "https" } else { "http" };
    let root = if base.is_root() { "root" } else { "no root" };
    push_words(told, &[scheme, base.host()])?;
    push_number(told, u64::from(base.port()))?;
    push_words(told, &["", base.root_path()])?;
    told.push_str(root)
}

fn tell_either(base: &Result<Base, HrefFault>, told: &mut String) -> Result<(), AllocError> {
    match base {
        Ok(base) => tell(base, told),
        Err(fault) => told.push_str(fault_word(*fault)),
    }
}

fn tell_joined(
    base: &Result<Base, HrefFault>,
    href: &str,
    told: &mut String,
) -> Result<(), AllocError> {
    match base {
        Ok(base) => tell_either(&base.join(href), told),
        Err(fault) => told.push_str(fault_word(*fault)),
    }
}

impl Table for Bases {
    fn answer(&mut self, alloc: Global, asked: Row, told: &mut String) -> Result<(), AllocError> {
        match asked.text.split_once(' ') {
            Some((base, href)) => tell_joined(&Base::new(alloc, base), href, told),
            None => tell_either(&Base::new(alloc, asked.text), told),
        }
    }
}
