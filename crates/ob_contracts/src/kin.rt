//! Sets of words, to which words are put.
ghost use Rattle.std.specs.Prelude.{◌≡◌, ℕ, List, [], ◌∷◌, ◌||◌, OnOk};
ghost use Rattle.std.specs.BTreeSet.{contains_text};
ghost use Rattle.ob_contracts.specs.Adding.{is_among};
ghost use Rattle.ob_contracts.specs.Named.{KeepsKnown};

use ob_values::Text;
use std::alloc::{AllocError, Global};
use std::collections::BTreeSet;

/// Puts words.
pub(crate) fn put_words(
    alloc: Global,
    kin: &mut BTreeSet<String>,
    words: &[Text],
) -> Result<(), AllocError>
    ensures kept { KeepsKnown kin.old kin.new }
    ensures ok { OnOk result ((asked : List ℕ) → contains_text kin.new asked ≡ (contains_text kin.old asked || is_among asked words.now)) }
{
    for word in words {
        put_word(alloc, kin, word.as_str())?;
    }
    Ok(())
}

/// Puts a word that may be there.
fn put_word(alloc: Global, kin: &mut BTreeSet<String>, word: &str) -> Result<(), AllocError>
    ensures kept { KeepsKnown kin.old kin.new }
    ensures ok { OnOk result ((asked : List ℕ) → contains_text kin.new asked ≡ (contains_text kin.old asked || is_among asked (word.now ∷ []))) }
{
    if kin.contains(word) {
        return Ok(());
    }
    put_new_word(alloc, kin, word)
}

/// Puts a word that isn't there.
fn put_new_word(alloc: Global, kin: &mut BTreeSet<String>, word: &str) -> Result<(), AllocError>
    ensures kept { KeepsKnown kin.old kin.new }
    ensures ok { OnOk result ((asked : List ℕ) → contains_text kin.new asked ≡ (contains_text kin.old asked || is_among asked (word.now ∷ []))) }
{
    let word = String::from_str(alloc, word)?;
    kin.insert(word)?;
    Ok(())
}
