//! Text that XML can carry.
ghost use Rattle.std.specs.Prelude.{◌≡◌, ◌↔◌, ◌++◌, [], IfOk, IfSome, IfNone, IsTrue, Some, nat_eq, refl};
ghost use Rattle.ob_values.specs.XmlText.{IsXmlChar, IsXmlText, is_printable, IsFirstBad, ReadsText};
ghost use Rattle.std.specs.String.{string_bytes};
ghost use Rattle.std.specs.Arc.{arc_str_bytes};
ghost use Rattle.ob_values.specs.SharedText.{bytes_of_shared};
ghost use Rattle.std.specs.Ordering.{nat_cmp};
ghost use Rattle.std.specs.Cmp.{partial_equiv_from_equiv};
ghost use Rattle.std.specs.Cmp.Lexicographic.{pointwise, slice_cmp, nat_list_eq_equiv, nat_list_cmp_total, texts_po, texts_ties};

use crate::TextFault;
use std::alloc::{AllocError, Global};
use std::cmp::Ordering;
use std::marker::Model;
use std::str;
use std::sync::ArcStr;

/// Text of characters that XML can carry. A copy takes no room for the characters: it shares them.
#[derive(Debug)]
pub struct Text {
    // None where the text is empty.
    shared: Option<ArcStr>,
}

impl Model for Text {
    ghost use Rattle.std.specs.Prelude.{List, ℕ};
    ghost use Rattle.std.specs.Arc.{arc_str_bytes};
    ghost use Rattle.ob_values.specs.SharedText.{bytes_of_shared};
    ghost use Rattle.ob_values.specs.XmlText.{IsXmlText};

    ghost Value = { List ℕ };

    ghost view = { λ t. bytes_of_shared arc_str_bytes t.shared };

    ghost invariant = { λ t. IsXmlText (bytes_of_shared arc_str_bytes t.shared) };
}

impl Drop for Text {
    // By one call, so that to drop a text is one call to whoever may have to.
    fn drop(self) {
        let Text { shared } = self;
        drop(shared);
    }
}

// The string, to be shared; nothing of an empty one.
fn share(string: String) -> Result<Option<ArcStr>, AllocError>
    ensures { IfOk result (λ s. bytes_of_shared arc_str_bytes s ≡ string_bytes string) }
{
    if string.is_empty() {
        return Ok(None);
    }
    Ok(Some(ArcStr::from_string(string)?))
}

impl Text {
    /// The text of the bytes, copied. NotUtf8 where they aren't UTF-8; else NotXmlChar, with the
    /// place in bytes of the first such character, where XML can't carry one; Memory where a good text
    /// finds no memory.
    pub fn from_utf8(alloc: Global, bytes: &[u8]) -> Result<Text, TextFault>
        ensures { ReadsText bytes.now result }
    {
        let Ok(text) = str::from_utf8(bytes) else {
            return Err(TextFault::NotUtf8);
        };
        if let Some(at) = first_not_xml(text) {
            return Err(TextFault::NotXmlChar { at: at as u64 });
        }
        match Text::of_str(alloc, text) {
            Ok(text) => Ok(text),
            Err(_) => Err(TextFault::Memory),
        }
    }

    // The text of a string that XML can carry, copied.
    fn of_str(alloc: Global, text: &str) -> Result<Text, AllocError>
        requires { IsXmlText text.now }
        ensures { IfOk result (λ t. t ≡ text.now) }
    {
        let string = String::from_str(alloc, text)?;
        Text::from_string(string)
    }

    /// The empty text. It takes no memory.
    pub fn empty() -> Text
        ensures { result ≡ [] }
    {
        Text { shared: None }
    }

    /// The text of a string that XML can carry. An error only for want of memory.
    pub fn from_string(string: String) -> Result<Text, AllocError>
        requires { IsXmlText (string_bytes string) }
        ensures { IfOk result (λ t. t ≡ string_bytes string) }
    {
        let shared = share(string)?;
        Ok(Text { shared })
    }

    /// The text of printable ASCII, from space to `~`, copied. An error only for want of memory.
    pub fn from_ascii(alloc: Global, text: &str) -> Result<Text, AllocError>
        requires { IsTrue (is_printable text.now) }
        ensures { IfOk result (λ t. t ≡ text.now) }
    {
        Text::of_str(alloc, text)
    }

    /// This text and printable ASCII behind it, as a new text. An error only for want of memory.
    pub fn followed_by(&self, alloc: Global, tail: &str) -> Result<Text, AllocError>
        requires { IsTrue (is_printable tail.now) }
        ensures { IfOk result (λ t. t ≡ self.now ++ tail.now) }
    {
        let mut string = String::from_str(alloc, self.as_str())?;
        string.push_str(tail)?;
        Text::from_string(string)
    }

    /// The text, of characters that XML can carry.
    pub fn as_str(&self) -> &str
        ensures value { result.now ≡ self.now }
        ensures xml { IsXmlText self.now }
    {
        match &self.shared {
            Some(shared) => shared.as_str(),
            None => "",
        }
    }

    /// Whether the two texts are one.
    pub fn is(&self, text: &str) -> bool
        ensures { IsTrue result ↔ (self.now ≡ text.now) }
    {
        self.as_str() == text
    }

    /// A copy of the text, which shares its characters. An error only where there are 2^63 of them.
    pub fn copy(&self) -> Result<Text, AllocError>
        ensures { IfOk result (λ t. t ≡ self.now) }
    {
        let shared = self.shared.clone()?;
        Ok(Text { shared })
    }
}

impl PartialEq for Text {
    ghost eq = { pointwise nat_eq };

    ghost laws = { partial_equiv_from_equiv nat_list_eq_equiv };

    fn eq(&self, other: &Text) -> bool {
        self.as_str() == other.as_str()
    }
}

impl Eq for Text {
    ghost laws = { nat_list_eq_equiv };
}

/// By bytes.
impl Ord for Text {
    ghost cmp = { slice_cmp nat_cmp };

    ghost total = { nat_list_cmp_total };

    ghost matches_partial_cmp = { λ x y. refl };

    ghost matches_eq = { texts_ties };

    fn cmp(&self, other: &Text) -> Ordering {
        self.as_str().cmp(other.as_str())
    }
}

impl PartialOrd for Text {
    ghost partial_cmp = { λ x y. Some (slice_cmp nat_cmp x y) };

    ghost laws = { texts_po };

    fn partial_cmp(&self, other: &Text) -> Option<Ordering> {
        Some(self.cmp(other))
    }
}

// Whether XML can carry the character.
fn is_xml_char(character: char) -> bool
    ensures { IsTrue result ↔ IsXmlChar character }
{
    matches!(
        character,
        '\t' | '\n'
            | '\r'
            | ' '..='\u{D7FF}'
            | '\u{E000}'..='\u{FFFD}'
            | '\u{10000}'..='\u{10FFFF}'
    )
}

// The place of the first character that XML can't carry.
fn first_not_xml(text: &str) -> Option<usize>
    ensures some { IfSome result (IsFirstBad text.now) }
    ensures none { IfNone result (IsXmlText text.now) }
{
    let mut at = 0;
    for character in text.chars() {
        if !is_xml_char(character) {
            return Some(at);
        }
        at += character.len_utf8();
    }
    None
}
