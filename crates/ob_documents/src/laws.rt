//! What holds of every document.
ghost use Rattle.std.specs.Prelude.{◌≡◌, ◌≤◌, ℕ, List, Option, Some, Ok, codes, length, true, false};
ghost use Rattle.ob_object.specs.declared.head.Head.{Head};
ghost use Rattle.ob_object.specs.Fits.{fits_head};
ghost use Rattle.ob_object.specs.Object.{Object};
ghost use Rattle.ob_encoding.specs.declared.field.Field.{Field};
ghost use Rattle.ob_encoding.specs.declared.part.Part.{Part};
ghost use Rattle.ob_encoding.specs.Fields.{known};
ghost use Rattle.ob_encoding.specs.Kinds.{same};
ghost use Rattle.ob_encoding.specs.Parts.{ReadsPart, put_part};
ghost use Rattle.ob_encoding.specs.Canonical.{canonical_text};
ghost use Rattle.ob_documents.specs.Carried.{IsCarried, IsTextIfThere};
ghost use Rattle.ob_documents.specs.Held.{IsHeld, IsShallow};
ghost use Rattle.ob_documents.specs.Spelling.{Spells};
ghost use Rattle.ob_xml.specs.declared.doc.Doc.{Doc};
ghost use Rattle.ob_xml.specs.Judged.{document, Judged};

/// What bytes spell is what they are judged to be.
pub fn only()
    ensures { (bytes : List ℕ) (ns : Option (List ℕ)) (o : Object) → Spells bytes ns o → Judged bytes true (document (record { ns = ns; root = o })) }
{
    ob_scan::one_text();
}

/// What bytes are judged to be, they spell.
pub fn spelled()
    ensures { (bytes : List ℕ) (d : Doc) → Judged bytes true (document d) → Spells bytes d.ns d.root }
{
    ob_scan::well_found();
}

/// The canonical text of an object is judged to be that object, where it has at most 16,777,216 bytes and the object at
/// most 32 levels, and each text and value in it is one that XML can carry.
pub fn read_back()
    ensures { (ns : Option (List ℕ)) (o : Object) → IsCarried ns o → length (canonical_text ns o) ≤ 16_777_216 → Judged (canonical_text ns o) true (document (record { ns = ns; root = o })) }
{
    crate::text_spells();
    only();
}

/// What bytes spell, a document can carry: it has at most 32 levels, it is well formed, and each text and value in it is one
/// that XML can carry. So the canonical text of an object that was read spells it again, where it isn't too long.
pub fn carried()
    ensures { (bytes : List ℕ) (ns : Option (List ℕ)) (o : Object) → Spells bytes ns o → IsCarried ns o }
{}

/// An object in hand can be carried where no part of it stands in 32 others, and the namespace is text that XML can carry.
pub fn held_carried()
    ensures { (ns : Option (List ℕ)) (o : Object) → IsTextIfThere ns → IsHeld o → IsShallow 1 o.inner → IsCarried ns o }
{}

/// An attribute other than the name keeps a head that fits its kind so. So what is told as a name that can't be read is a
/// name of 0 or more than 255 bytes.
pub fn only_a_name_fails()
    ensures { (h : Head) (n text : List ℕ) (f : Field) (p : Part) → fits_head h ≡ true → known h.kind n ≡ Some f → same n (codes "name") ≡ false → ReadsPart h.kind f text (Ok p) → fits_head (put_part p h) ≡ true }
{}
