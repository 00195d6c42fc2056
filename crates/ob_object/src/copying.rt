//! Copies of parts that may be there.
ghost use Rattle.std.specs.Prelude.{◌≡◌, None, IfOk, OnOk};
ghost use Rattle.std.specs.Option.{option_copied};

use crate::words::Words;
use ob_values::{Text, Value};
use std::alloc::AllocError;

/// A copy of a text that may be there.
pub fn copy_text(text: Option<&Text>) -> Result<Option<Text>, AllocError>
    ensures { IfOk result (λ copy. copy ≡ option_copied text.entry) }
{
    match text {
        Some(text) => {
            let copy = text.copy()?;
            Ok(Some(copy))
        }
        None => Ok(None),
    }
}

/// A copy of words that may be there.
pub fn copy_words(words: Option<&Words>) -> Result<Option<Words>, AllocError>
    ensures { IfOk result (λ copy. copy ≡ option_copied words.entry) }
{
    match words {
        Some(words) => {
            let copy = words.copy()?;
            Ok(Some(copy))
        }
        None => Ok(None),
    }
}

/// A copy of a value that may be there.
pub fn copy_value(value: Option<&Value>) -> Result<Option<Value>, AllocError>
    ensures { IfOk result (λ copy. copy ≡ option_copied value.entry) }
{
    match value {
        Some(value) => {
            let copy = value.copy()?;
            Ok(Some(copy))
        }
        None => Ok(None),
    }
}

/// Puts a copy of a text that may be there into an empty place.
pub(crate) fn put_text(place: &mut Option<Text>, text: &Option<Text>) -> Result<(), AllocError>
    requires { place.old ≡ None }
    ensures { OnOk result (place.new ≡ text.now) }
{
    if let Some(text) = text {
        *place = Some(text.copy()?);
    }
    Ok(())
}

/// Puts a copy of words that may be there into an empty place.
pub(crate) fn put_words(place: &mut Option<Words>, words: &Option<Words>) -> Result<(), AllocError>
    requires { place.old ≡ None }
    ensures { OnOk result (place.new ≡ words.now) }
{
    if let Some(words) = words {
        *place = Some(words.copy()?);
    }
    Ok(())
}
