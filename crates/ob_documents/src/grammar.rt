//! What holds of every document.
ghost use Rattle.std.specs.Prelude.{◌≡◌, ℕ, ◌≤◌, List, length, Option};
ghost use Rattle.ob_object.specs.Object.{Object};
ghost use Rattle.ob_encoding.specs.Canonical.{canonical_text};
ghost use Rattle.ob_documents.specs.Carried.{IsCarried};
ghost use Rattle.ob_documents.specs.Spelling.{Spells};

/// The canonical text of an object spells the object, where it has at most 16,777,216 bytes and the object at most 32
/// levels, and each text and value in it is one that XML can carry.
pub fn text_spells()
    ensures { (ns : Option (List ℕ)) (o : Object) → IsCarried ns o → length (canonical_text ns o) ≤ 16_777_216 → Spells (canonical_text ns o) ns o }
{}

/// No bytes spell two documents.
pub fn one_document()
    ensures { (bytes : List ℕ) (ns other : Option (List ℕ)) (o p : Object) → Spells bytes ns o → Spells bytes other p → (ns ≡ other) × (o ≡ p) }
{
    ob_scan::one_text();
    ob_encoding::one_part();
}
