//! The words that contracts name, kept beside them.
ghost use Rattle.std.specs.Option.{option_copied};
ghost use Rattle.std.specs.Prelude.{OnOk};
ghost use Rattle.ob_contracts.specs.Adding.{is_among, head_names, names_word};
ghost use Rattle.ob_contracts.specs.Inherit.{words_in};
ghost use Rattle.ob_contracts.specs.Named.{HasAll, KeepsKnown};

use crate::kin::put_words;
use ob_object::{Attributes, Obj, Words};
use std::alloc::{AllocError, Global};
use std::collections::BTreeSet;

/// Puts each word that an object, or one in it, names. Where there is no memory for all, some may stand.
pub(crate) fn put_named(
    alloc: Global,
    known: &mut BTreeSet<String>,
    object: &Obj,
) -> Result<(), AllocError>
    ensures kept { KeepsKnown known.old known.new }
    ensures ok { OnOk result (HasAll known.new (λ word. names_word word object.now)) }
{
    put_head(alloc, known, object.head())?;
    for child in object.children() {
        put_named(alloc, known, child)?;
    }
    Ok(())
}

/// Puts the words of an `is` and an `of`.
fn put_head(
    alloc: Global,
    known: &mut BTreeSet<String>,
    head: &Attributes,
) -> Result<(), AllocError>
    ensures kept { KeepsKnown known.old known.new }
    ensures ok { OnOk result (HasAll known.new (λ word. head_names word head.now)) }
{
    put_list(alloc, known, head.is())?;
    put_list(alloc, known, head.of())
}

fn put_list(
    alloc: Global,
    known: &mut BTreeSet<String>,
    words: Option<&Words>,
) -> Result<(), AllocError>
    ensures kept { KeepsKnown known.old known.new }
    ensures ok { OnOk result (HasAll known.new (λ word. is_among word (words_in (option_copied words.entry)))) }
{
    match words {
        Some(words) => put_words(alloc, known, words.as_slice()),
        None => Ok(()),
    }
}
