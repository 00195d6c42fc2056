//! What all readers have in common.
ghost use Rattle.std.specs.Prelude.{◌≡◌, ℕ, ℤ, Bool, List, Result};
ghost use Rattle.ob_values.specs.Faults.{ValueFault};
ghost use Rattle.ob_values.specs.Times.{Date, Instant, Span, ReadsDate, ReadsTime, ReadsAbstime, ReadsReltime};
ghost use Rattle.ob_values.specs.Readers.{ReadsBool, ReadsInt, ReadsDec};

/// A law: bytes are read in one way, as a value or as a fault.
pub fn one_reading()
    ensures bools { (bytes : List ℕ) (a b : Result Bool ValueFault) → ReadsBool bytes a → ReadsBool bytes b → a ≡ b }
    ensures ints { (bytes : List ℕ) (a b : Result ℤ ValueFault) → ReadsInt bytes a → ReadsInt bytes b → a ≡ b }
    ensures decs { (bytes : List ℕ) (a b : Result ℤ ValueFault) → ReadsDec bytes a → ReadsDec bytes b → a ≡ b }
    ensures dates { (bytes : List ℕ) (a b : Result Date ValueFault) → ReadsDate bytes a → ReadsDate bytes b → a ≡ b }
    ensures times { (bytes : List ℕ) (a b : Result ℕ ValueFault) → ReadsTime bytes a → ReadsTime bytes b → a ≡ b }
    ensures abstimes { (bytes : List ℕ) (a b : Result Instant ValueFault) → ReadsAbstime bytes a → ReadsAbstime bytes b → a ≡ b }
    ensures reltimes { (bytes : List ℕ) (a b : Result Span ValueFault) → ReadsReltime bytes a → ReadsReltime bytes b → a ≡ b }
{}
