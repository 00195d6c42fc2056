// Words of rows.
use std::alloc::AllocError;

/// What stands before the first `|`, and what stands behind it; or all, and nothing.
pub fn split_bar(said: &str) -> (&str, &str) {
    said.split_once('|').unwrap_or((said, ""))
}

/// The first word, and what stands behind the space after it; or all, and nothing.
pub fn split_word(said: &str) -> (&str, &str) {
    said.split_once(' ').unwrap_or((said, ""))
}

/// The word at a place, the first being 0, or nothing.
pub fn word_at(text: &str, place: usize) -> &str {
    text.split(' ').nth(place).unwrap_or("")
}

/// The number at a place, if one is spelled there.
pub fn number_at(text: &str, place: usize) -> Option<u64> {
    word_at(text, place).parse().ok()
}

/// The part of a name in a file of parts: what stands behind the name on its line, and the lines behind that. A part begins
/// with `=== ` and its name.
pub fn named_part<'a>(parts: &'a str, name: &str) -> Option<(&'a str, &'a str)> {
    for part in parts.split("=== ") {
        let (head, text) = part.split_once('\n')?;
        let (named, rest) = split_word(head);
        if named == name {
            return Some((rest, text));
        }
    }
    None
}

/// The text that the bytes are, if they are one.
pub fn text_of(bytes: &[u8]) -> &str {
    std::str::from_utf8(bytes).unwrap_or("no text")
}

/// Puts bytes that are text behind `told`, and else that they are none. An error only for want of memory.
pub fn push_bytes(told: &mut String, bytes: &[u8]) -> Result<(), AllocError> {
    told.push_str(text_of(bytes))
}

/// Puts each word behind a text, and a blank behind it. An error only for want of memory.
pub fn push_words(text: &mut String, words: &[&str]) -> Result<(), AllocError> {
    for word in words {
        text.push_str(word)?;
        text.push_str(" ")?;
    }
    Ok(())
}

/// Puts a number behind a text. An error only for want of memory.
pub fn push_number(text: &mut String, number: u64) -> Result<(), AllocError> {
    write!(text, "{number}")
}
