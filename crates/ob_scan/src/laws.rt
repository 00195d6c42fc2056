//! What holds of every text, for those who judge constructs one by one.

ghost use Rattle.std.specs.Prelude.{◌≡◌, List, ℕ};
ghost use Rattle.ob_scan.specs.Expansion.{Expands};
ghost use Rattle.ob_scan.specs.Judgement.{IsJudgedOnce, IsWellFound};

/// What was found or refused stays so, however the input goes on.
pub fn judged_once()
    ensures { IsJudgedOnce }
{}

/// A value stands for one text.
pub fn one_text()
    ensures { (raw text other : List ℕ) → Expands raw text → Expands raw other → text ≡ other }
{}

/// Nothing is waited for at the end, the end of the input is found there alone, and the value of an attribute that is found
/// stands for a text.
pub fn well_found()
    ensures { IsWellFound }
{}
