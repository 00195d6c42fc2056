//! What holds of every document.

ghost use Rattle.std.specs.Prelude.{◌≡◌, ℕ, Bool, List, ◌++◌, false};
ghost use Rattle.ob_xml.specs.declared.refused.Why.{Why};
ghost use Rattle.ob_xml.specs.Judged.{Verdict, fault, Judged};

/// A text has one verdict.
pub fn one_verdict()
    ensures { (bytes : List ℕ) (ended : Bool) (v w : Verdict) → Judged bytes ended v → Judged bytes ended w → v ≡ w }
{
    ob_scan::one_text();
    ob_encoding::one_part();
}

/// The first refused construct of a text is that of every longer one.
pub fn fault_stays()
    ensures { (bytes tail : List ℕ) (ended : Bool) (at : ℕ) (why : Why) → Judged bytes false (fault at why) → Judged (bytes ++ tail) ended (fault at why) }
{
    ob_scan::judged_once();
}
