//! Words that are looked up in place of others.
ghost use Rattle.std.specs.Prelude.{◌≡◌};
ghost use Rattle.std.specs.Option.{option_copied};
ghost use Rattle.ob_tree.specs.Standings.{is_of, items_of};

use ob_contracts::Tellers;

/// Words that are looked up in place of those of an object, where these are several: few of many tell something that none before
/// them does.
#[derive(Drop)]
pub struct Instead {
    /// In place of the object's own `is`.
    pub is: Option<Tellers>,
    /// In place of those that it gives to its children that have none.
    pub items: Option<Tellers>,
}

/// Those in place of the own `is`.
pub(crate) fn is_of(instead: Option<&Instead>) -> Option<&Tellers>
    ensures { option_copied result ≡ is_of (option_copied instead.entry) }
{
    match instead {
        Some(instead) => instead.is.as_ref(),
        None => None,
    }
}

/// Those for the children.
pub(crate) fn items_of(instead: Option<&Instead>) -> Option<&Tellers>
    ensures { option_copied result ≡ items_of (option_copied instead.entry) }
{
    match instead {
        Some(instead) => instead.items.as_ref(),
        None => None,
    }
}
