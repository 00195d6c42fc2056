//! How long the canonical text of an object is beside bytes that spell it.
//!
//! The function states a law by its contract and does nothing. What bytes spell which object is said by `ob_documents`
//! (`specs/Spelling.antt`), and the canonical text by `ob_encoding` (`specs/Canonical.antt`).
#![tactic(auto)]

ghost use Rattle.ob_size_laws.specs.Texts.{TextIsShort};

/// The canonical text of an object that bytes spell is at most sixteen times as long as these.
pub fn text_is_short()
    ensures { TextIsShort }
{}
