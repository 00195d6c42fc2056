//! Why a file opens no site.
ghost use Rattle.std.specs.Prelude.{◌≡◌, ◌++◌, string_bytes, IfOk};
ghost use Rattle.ob_site_file.specs.Words.{broken_words, contract_words};

use ob_contracts::LibFault;
use ob_parts::Offence;
use ob_site_rules::SiteRule;
use ob_values::Text;
use ob_xml::Refused;
use std::alloc::{AllocError, AllocFailed, Global};
use thiserror::Error;

/// Why a file opens no site, in the order in which the refusals are looked for. A part is told by its number in the
/// order of the document, the root being 0.
#[derive(Drop, Debug, Error)]
pub enum LoadFault {
    /// The file can't be read.
    #[error("Read")]
    Read,
    /// The bytes are no document.
    #[error("{0}")]
    Document(Refused),
    /// The root is no obj with the URL of a root as its href.
    #[error("RootHref")]
    RootHref,
    /// The href of a node is no path of the site.
    #[error("Href {part}")]
    Href { part: u64 },
    /// A contract isn't taken.
    #[error("Contract {0}")]
    Contract(LibFault),
    /// Two nodes, or a node and what the site computes, have one path.
    #[error("PathTwice {}", .path.as_str())]
    PathTwice { path: Text },
    /// A part breaks a rule of the roles.
    #[error("Rule {} {}", .0.part, .0.rule.word())]
    Rule(Offence<SiteRule>),
    /// The root shows more than 200,000 parts.
    #[error("Size")]
    Size,
    /// There was no memory.
    #[error("Memory")]
    Memory,
}

/// A part that breaks a rule, and the rule.
fn rule_words(alloc: Global, offence: &Offence<SiteRule>) -> Result<String, AllocError>
    ensures { IfOk result (λ words. string_bytes words ≡ broken_words offence.now) }
{
    let part = offence.part;
    let rule = offence.rule.word();
    format!(in alloc; "Rule {part} {rule}")
}

/// A word with a text behind it.
fn word_and_text(alloc: Global, word: &str, text: &Text) -> Result<String, AllocError>
    ensures { IfOk result (λ words. string_bytes words ≡ word.now ++ text.now) }
{
    let text = text.as_str();
    format!(in alloc; "{word}{text}")
}

/// Why a contract isn't taken, and its word.
fn contract_words(alloc: Global, fault: &LibFault) -> Result<String, AllocError>
    ensures { IfOk result (λ words. string_bytes words ≡ contract_words fault.now) }
{
    match fault {
        LibFault::Twice { uri } => word_and_text(alloc, "Contract Twice ", uri),
        LibFault::Later { uri } => word_and_text(alloc, "Contract Later ", uri),
        LibFault::Large { uri } => word_and_text(alloc, "Contract Large ", uri),
        LibFault::Memory => String::from_str(alloc, "Contract Memory"),
    }
}

impl LoadFault {
    ghost use Rattle.ob_site_file.specs.Passes.{contract_fault};
    ghost use Rattle.ob_site_file.specs.Words.{load_words};

    /// The words that are printed for the refusal, as `RootHref`, `Href 5`, `PathTwice /obix/n`,
    /// `Contract Later /obix/def/A`, `Rule 5 source`, `Size`, and for a document `SameName at 25`. An error only for want of
    /// memory.
    pub fn words(&self, alloc: Global) -> Result<String, AllocError>
        ensures { IfOk result (λ words. string_bytes words ≡ load_words self.now) }
    {
        match self {
            LoadFault::Read => String::from_str(alloc, "Read"),
            LoadFault::Document(refused) => refused.words(alloc),
            LoadFault::RootHref => String::from_str(alloc, "RootHref"),
            LoadFault::Href { part } => format!(in alloc; "Href {part}"),
            LoadFault::Contract(fault) => contract_words(alloc, fault),
            LoadFault::PathTwice { path } => word_and_text(alloc, "PathTwice ", path),
            LoadFault::Rule(offence) => rule_words(alloc, offence),
            LoadFault::Size => String::from_str(alloc, "Size"),
            LoadFault::Memory => String::from_str(alloc, "Memory"),
        }
    }

    // The fault of a contract, where want of memory is that of the whole.
    pub(crate) fn of_contract(fault: LibFault) -> LoadFault
        ensures { result ≡ contract_fault fault }
    {
        match fault {
            LibFault::Memory => LoadFault::Memory,
            fault => LoadFault::Contract(fault),
        }
    }
}

impl From<AllocError> for LoadFault {
    ghost use Rattle.ob_site_file.specs.declared.fault.LoadFault.TheVariants.{Memory};

    ghost from_gives = { λ _ e. e ≡ Memory };

    fn from(_: AllocError) -> LoadFault {
        LoadFault::Memory
    }
}

impl<T: Drop> From<AllocFailed<T>> for LoadFault {
    ghost use Rattle.ob_site_file.specs.declared.fault.LoadFault.TheVariants.{Memory};

    ghost from_gives = { λ _ e. e ≡ Memory };

    fn from(_: AllocFailed<T>) -> LoadFault {
        LoadFault::Memory
    }
}
