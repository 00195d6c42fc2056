//! The words that tell an end on `errors`, where its line has some.
ghost use Rattle.std.specs.Prelude.{◌≡◌, ◌++◌, codes, decimal, option_copied, IfOk};
ghost use Rattle.ob_program.specs.Words.{file_words, told_cause};
ghost use Rattle.ob_site_file.specs.Words.{load_words};
ghost use Rattle.ob_xml.specs.Words.{refusal_words};

use ob_io::{Cause, RefusedFile};
use ob_load::LoadFault;
use ob_xml::Refused;
use std::alloc::{AllocError, Global};

/// A word with a number behind it.
pub(crate) fn word_and_number(alloc: Global, word: &str, number: u64) -> Result<Vec<u8>, AllocError>
    ensures { IfOk result (λ words. words.items ≡ word.now ++ (codes " " ++ decimal number)) }
{
    let text = format!(in alloc; "{word} {number}")?;
    text.as_bytes().to_vec(alloc)
}

/// The form that a file isn't of, its part that offends, and the rule that this breaks.
pub(crate) fn offence_words(
    alloc: Global,
    form: &str,
    part: u64,
    rule: &str,
) -> Result<Vec<u8>, AllocError>
    ensures { IfOk result (λ words. words.items ≡ form.now ++ (codes " " ++ (decimal part ++ (codes " " ++ rule.now)))) }
{
    let text = format!(in alloc; "{form} {part} {rule}")?;
    text.as_bytes().to_vec(alloc)
}

/// Why a document is refused, and where.
pub(crate) fn refusal_words(alloc: Global, refused: Refused) -> Result<Vec<u8>, AllocError>
    ensures { IfOk result (λ words. words.items ≡ refusal_words refused) }
{
    let words = refused.words(alloc)?;
    words.as_bytes().to_vec(alloc)
}

/// Why a file opens no site.
pub(crate) fn load_words(alloc: Global, fault: &LoadFault) -> Result<Vec<u8>, AllocError>
    ensures { IfOk result (λ words. words.items ≡ load_words fault.now) }
{
    let words = fault.words(alloc)?;
    words.as_bytes().to_vec(alloc)
}

/// The cause of a fault, behind what is told of it; nothing where the outside told none.
pub(crate) fn told_cause(alloc: Global, cause: Cause) -> Result<Vec<u8>, AllocError>
    ensures { IfOk result (λ words. words.items ≡ told_cause cause) }
{
    match cause {
        Cause::Untold => Ok(Vec::new(alloc)),
        Cause::InUse
        | Cause::NotAllowed
        | Cause::NotHere
        | Cause::Locked
        | Cause::Full
        | Cause::NoFile
        | Cause::NoFolder
        | Cause::IsFolder => {
            let mut words = b": ".to_vec(alloc)?;
            words.extend_from_slice(cause.words().as_bytes())?;
            Ok(words)
        }
    }
}

/// The file that could not be read, and why, where that is told.
pub(crate) fn file_words(
    alloc: Global,
    refused: Option<&RefusedFile>,
) -> Result<Vec<u8>, AllocError>
    ensures { IfOk result (λ words. words.items ≡ file_words (option_copied refused.entry)) }
{
    let Some(file) = refused else {
        return Ok(Vec::new(alloc));
    };
    let cause = told_cause(alloc, file.cause)?;
    let mut words = b": ".to_vec(alloc)?;
    words.extend_from_slice(file.name.as_bytes())?;
    words.extend_from_slice(&cause)?;
    Ok(words)
}
