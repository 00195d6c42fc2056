//! Lists of words in one text.

ghost use Rattle.std.specs.Prelude.{◌≡◌, [], ◌∷◌, true, not, IfOk, string_bytes};
ghost use Rattle.std.specs.List.{list_all};
ghost use Rattle.ob_values.specs.XmlText.{IsXmlText};
ghost use Rattle.ob_object.specs.Words.{is_white};
ghost use Rattle.ob_encoding.specs.WordLists.{is_blank, ended, words_of};
ghost use Rattle.std.specs.Prelude.{◌++◌};

use ob_object::{WordFault, Words};
use ob_values::Text;
use std::alloc::{AllocError, Global};

fn is_blank(c: char) -> bool
    ensures { result ≡ is_blank c }
{
    c == ' ' || c == '\t' || c == '\n' || c == '\r'
}

/// The words with one more, if it isn't empty.
fn with_word(words: Words, word: String) -> Result<Words, AllocError>
    requires text { IsXmlText (string_bytes word) }
    requires clean { list_all (λ c. not (is_white c)) (string_bytes word) ≡ true }
    ensures { IfOk result (λ ws. ws ≡ words ++ ended (string_bytes word) []) }
{
    if word.is_empty() {
        return Ok(words);
    }
    let mut words = words;
    match words.push(Text::from_string(word)?) {
        Ok(()) => Ok(words),
        Err(WordFault::NotWord { .. }) => unreachable!(),
        Err(WordFault::Memory { .. }) => Err(AllocError),
    }
}

/// The words of a text.
fn split_words(alloc: Global, text: &str) -> Result<Words, AllocError>
    requires { IsXmlText text.now }
    ensures { IfOk result (λ ws. ws ≡ words_of text.now) }
{
    let mut words = Words::new(alloc);
    let mut word = String::new(alloc);
    for c in text.chars() {
        if is_blank(c) {
            words = with_word(words, word)?;
            word = String::new(alloc);
        } else {
            word.push(c)?;
        }
    }
    with_word(words, word)
}

/// The words of a text, which is split at white space; none for a text of white space alone. An error only for want of memory.
pub fn read_words(alloc: Global, text: &Text) -> Result<Words, AllocError>
    ensures { IfOk result (λ ws. ws ≡ words_of text.now) }
{
    split_words(alloc, text.as_str())
}
