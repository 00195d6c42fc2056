//! A law of the end of a step that left another library.
ghost use Rattle.ob_site_settling.specs.Ended.{DefaultsEnd};

/// A step that left another library leaves all watches as the rules of watches have it, where it touches the own nodes
/// that it changed otherwise than by the library, and those of which a watch shows something else with it.
///
/// Source: oBIX 1.1, chapters 7 (Contracts) and 12 (Watch.pollChanges).
pub fn defaults_end()
    ensures { DefaultsEnd }
{}
