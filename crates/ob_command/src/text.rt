//! Words that XML can carry, and URLs.
ghost use Rattle.std.specs.Prelude.{◌≡◌, ◌+◌, ◌∷◌, ◌++◌, if◌then◌else◌, map, string_bytes, option_map, option_copied, true, Some, None, IfOk};
ghost use Rattle.std.specs.List.{list_all};
ghost use Rattle.ob_scan.specs.Constructs.{is_char};
ghost use Rattle.ob_command.specs.Arguments.{operands};
ghost use Rattle.std.specs.Option.{option_and_then};
ghost use Rattle.ob_command.specs.Command.{server_url, leads_from};
ghost use Rattle.ob_command.specs.Texts.{is_text, first_other, text_if, texts_if};
ghost use Rattle.ob_command.specs.Words.{arguments_of};

use crate::argument::Arguments;
use ob_href::{Base, HrefFault, resolve};
use ob_values::Text;
use std::alloc::{AllocError, Global};

fn is_xml_char(character: char) -> bool
    ensures { result ≡ is_char character }
{
    matches!(
        character,
        '\t' | '\n'
            | '\r'
            | ' '..='\u{D7FF}'
            | '\u{E000}'..='\u{FFFD}'
            | '\u{10000}'..='\u{10FFFF}'
    )
}

/// Whether XML can carry each character of the word.
pub(crate) fn is_text(word: &str) -> bool
    ensures { result ≡ is_text word.now }
{
    word.chars().all(is_xml_char)
}

/// Whether each word is text that XML can carry.
pub(crate) fn are_texts(words: &[String]) -> bool
    ensures { result ≡ list_all is_text (map string_bytes words.now) }
{
    for word in words {
        if !is_text(word.as_str()) {
            return false;
        }
    }
    true
}

/// The first word that XML can't carry; nothing where there is none.
pub(crate) fn first_other(words: &[String]) -> &str
    ensures { result.now ≡ first_other (map string_bytes words.now) }
{
    for word in words {
        if !is_text(word.as_str()) {
            return word.as_str();
        }
    }
    ""
}

/// The word as a text, if XML can carry it. An error only for want of memory.
pub(crate) fn read_text(alloc: Global, word: &str) -> Result<Option<Text>, AllocError>
    ensures { IfOk result (λ text. text ≡ text_if word.now) }
{
    if !is_text(word) {
        return Ok(None);
    }
    let text = copied(alloc, word)?;
    Ok(Some(text))
}

/// A word that XML can carry, as a text. An error only for want of memory.
fn copied(alloc: Global, word: &str) -> Result<Text, AllocError>
    requires { is_text word.now ≡ true }
    ensures { IfOk result (λ text. text ≡ word.now) }
{
    let string = String::from_str(alloc, word)?;
    Text::from_string(string)
}

/// The operands as texts, if XML can carry each. An error only for want of memory.
pub(crate) fn read_texts(
    alloc: Global,
    given: Arguments<'_>,
) -> Result<Option<Vec<Text>>, AllocError>
    ensures { IfOk result (λ texts. option_map (λ t. t.items) texts ≡ texts_if (operands (arguments_of given.entry))) }
{
    let mut texts = Vec::new(alloc);
    let mut rest = given;
    while let Some((word, left)) = rest.next_operand() {
        let Some(text) = read_text(alloc, word)? else {
            return Ok(None);
        };
        texts.push(text)?;
        rest = left;
    }
    Ok(Some(texts))
}

/// The http URL without a fragment that a word is, if it is one. An error only for want of memory.
pub(crate) fn read_url(alloc: Global, word: &str) -> Result<Option<Base>, AllocError>
    ensures { IfOk result (λ url. url ≡ server_url word.now) }
{
    match Base::new(alloc, word) {
        Ok(url) if url.is_https() => Ok(None),
        Ok(url) => Ok(Some(url)),
        Err(HrefFault::Memory) => Err(AllocError),
        Err(_) => Ok(None),
    }
}

/// The URL of a word, from which a text names something on its server. An error only for want of memory.
pub(crate) fn read_url_of(alloc: Global, word: &str, text: &str) -> Result<Option<Base>, AllocError>
    ensures { IfOk result (λ url. url ≡ option_and_then (leads_from text.now) (server_url word.now)) }
{
    let Some(url) = read_url(alloc, word)? else {
        return Ok(None);
    };
    match resolve(alloc, &url, text) {
        Ok(_) => Ok(Some(url)),
        Err(HrefFault::Memory) => Err(AllocError),
        Err(_) => Ok(None),
    }
}
