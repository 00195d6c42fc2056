//! Which configs a supervisor follows, and the part by which another one is refused.
use crate::spelled::object;
use ob_io::MemLink;
use ob_object::Obj;
use ob_rows::{Row, Table, number_at, text_of};
use ob_super::{ConfigFault, Super};
use std::alloc::{AllocError, Global};

/// Configs: `config`, or the part and the rule by which one is refused. `many UPSTREAMS HREFS` is a config of so many
/// upstreams, each with so many hrefs.
#[derive(Drop)]
pub(crate) struct Configs;

// A config of so many upstreams, each with so many hrefs.
fn many(alloc: Global, upstreams: u64, hrefs: u64) -> Result<String, AllocError> {
    let mut text = String::from_str(alloc, "<list>")?;
    for upstream in 0..upstreams {
        write!(
            text,
            "<obj name=\"u{upstream}\"><uri name=\"url\" val=\"http://h/\"/><list name=\"hrefs\">"
        )?;
        for href in 0..hrefs {
            write!(text, "<uri val=\"/{href}\"/>")?;
        }
        text.push_str("</list></obj>")?;
    }
    text.push_str("</list>")?;
    Ok(text)
}

// Tells what comes of a config.
fn tell_config(alloc: Global, config: &Obj, told: &mut String) -> Result<(), AllocError> {
    let made: Result<Super<MemLink>, ConfigFault> = Super::new(alloc, config, 10_000);
    match &made {
        Ok(_) => told.push_str("config"),
        Err(ConfigFault::Shape(offence)) => {
            let part = offence.part;
            let rule = offence.rule.word();
            write!(told, "{part} {rule}")
        }
        Err(ConfigFault::Memory) => Err(AllocError),
    }
}

fn tell_text(alloc: Global, text: &str, told: &mut String) -> Result<(), AllocError> {
    match &object(alloc, text) {
        Some(config) => tell_config(alloc, config, told),
        None => told.push_str("no object"),
    }
}

impl Table for Configs {
    fn answer(&mut self, alloc: Global, asked: Row, told: &mut String) -> Result<(), AllocError> {
        if !asked.text.starts_with("many ") {
            return tell_text(alloc, text_of(asked.bytes), told);
        }
        let upstreams = number_at(asked.text, 1).unwrap_or(0);
        let hrefs = number_at(asked.text, 2).unwrap_or(0);
        let text = many(alloc, upstreams, hrefs)?;
        tell_text(alloc, text.as_str(), told)
    }
}
