//! What holds of every attribute.

ghost use Rattle.std.specs.Prelude.{◌≡◌, ℕ, List, Result};
ghost use Rattle.ob_object.specs.declared.kind.Kind.{Kind};
ghost use Rattle.ob_values.specs.Faults.{ValueFault};
ghost use Rattle.ob_encoding.specs.declared.field.Field.{Field};
ghost use Rattle.ob_encoding.specs.declared.part.Part.{Part};
ghost use Rattle.ob_encoding.specs.Parts.{ReadsPart};

use ob_values::one_reading;

/// An attribute says one thing.
pub fn one_part()
    ensures { (kind : Kind) (field : Field) (text : List ℕ) (a b : Result Part ValueFault) → ReadsPart kind field text a → ReadsPart kind field text b → a ≡ b }
{
    one_reading()
}
