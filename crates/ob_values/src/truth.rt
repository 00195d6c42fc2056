//! Truth values.
ghost use Rattle.std.specs.Prelude.{◌≡◌, Bool, Result};
ghost use Rattle.ob_values.specs.Truth.{IsTruth};
ghost use Rattle.ob_values.specs.Readers.{ReadsBool};
ghost use Rattle.ob_spelling.specs.Reads.{ReadsWord};
ghost use Rattle.ob_spelling.specs.declared.fault.ValueFault.{ValueFault};

use ob_spelling::{ValueFault, trimmed};

/// The truth value that the bytes spell: `true`, `false`, `1` or `0`, with white space round it.
/// NotBool for any other text.
pub fn read_bool(bytes: &[u8]) -> Result<bool, ValueFault>
    ensures reads { ReadsBool bytes.now result }
    ensures only { (answer : Result Bool ValueFault) → ReadsBool bytes.now answer → result ≡ answer }
{
    truth_of(trimmed(bytes))
}

// The truth value that the text spells.
fn truth_of(text: &[u8]) -> Result<bool, ValueFault>
    ensures { ReadsWord (IsTruth text.now) ValueFault.NotBool result }
{
    match text {
        b"true" => Ok(true),
        b"1" => Ok(true),
        b"false" => Ok(false),
        b"0" => Ok(false),
        _ => Err(ValueFault::NotBool),
    }
}
