//! The places of the tree.
ghost use Rattle.std.specs.Prelude.{◌≡◌, IfOk, bytes_eq, decimal, option_map};
ghost use Rattle.ob_super.specs.Trees.{list_at, object_at};
ghost use Rattle.ob_super.specs.InHand as in_hand;

use itoa::Buffer;
use ob_values::Text;
use std::alloc::{AllocError, Global};

/// The path of the tree.
pub(crate) const ROOT: &str = "/obix/";

/// The path of the list of an upstream of this name.
pub(crate) fn list_path(alloc: Global, name: &Text) -> Result<Text, AllocError>
    ensures { IfOk result (λ path. path ≡ list_at name.now) }
{
    let text = name.as_str();
    let path = format!(in alloc; "/obix/{text}/")?;
    Text::from_string(path)
}

/// The path of the object of an upstream's href at a place.
pub(crate) fn object_path(alloc: Global, name: &Text, place: usize) -> Result<Text, AllocError>
    ensures { IfOk result (λ path. path ≡ object_at name.now place) }
{
    let text = name.as_str();
    let path = format!(in alloc; "/obix/{text}/{place}")?;
    Text::from_string(path)
}

// What follows a front of a text.
fn behind<'a>(front: &[u8], text: &'a [u8]) -> Option<&'a [u8]>
    ensures { in_hand.IsBehind front.now text.now (option_map (λ rest. rest.now) result) }
{
    text.strip_prefix(front)
}

/// What follows the path of the list of an upstream.
pub(crate) fn behind_list<'a>(name: &Text, path: &'a str) -> Option<&'a [u8]>
    ensures { in_hand.IsBehind (list_at name.now) path.now (option_map (λ rest. rest.now) result) }
{
    let Some(rest) = behind(ROOT.as_bytes(), path.as_bytes()) else {
        return None;
    };
    let Some(rest) = behind(name.as_str().as_bytes(), rest) else {
        return None;
    };
    behind(b"/", rest)
}

/// Whether the path is that of the list of an upstream.
pub(crate) fn is_list_path(name: &Text, path: &str) -> bool
    ensures { result ≡ bytes_eq (list_at name.now) path.now }
{
    match behind_list(name, path) {
        Some(rest) => rest.is_empty(),
        None => false,
    }
}

/// Whether a text is a number in decimal.
pub(crate) fn is_number(text: &[u8], number: usize) -> bool
    ensures { result ≡ bytes_eq (decimal number) text.now }
{
    let mut buffer = Buffer::new();
    buffer.format(number).as_bytes() == text
}
