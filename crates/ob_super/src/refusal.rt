//! The errs that a supervisor itself replies.
ghost use Rattle.std.specs.Prelude.{◌≡◌, [], ◌∷◌, true, Some, IfOk, IsTrue};
ghost use Rattle.ob_values.specs.XmlText.{is_printable};
ghost use Rattle.ob_object.specs.Object.{none};
ghost use Rattle.ob_object.specs.Words.{is_word};
ghost use Rattle.ob_super.specs.Rounds.{plain_err, not_supported};
ghost use Rattle.ob_super.specs.Supervised.{no_such_object};

use ob_asking::one_word;
use ob_object::{Attributes, Kind, Obj};
use ob_values::Text;
use std::alloc::{AllocError, Global};

/// An err with these words.
pub(crate) fn err(alloc: Global, words: &str) -> Result<Obj, AllocError>
    requires { IsTrue (is_printable words.now) }
    ensures { IfOk result (λ o. o ≡ plain_err words.now) }
{
    let display = Text::from_ascii(alloc, words)?;
    let mut head = Attributes::empty(alloc, Kind::Err);
    if head.put_display(Some(display)).is_err() {
        return Err(AllocError);
    }
    Ok(Obj::from_attributes(alloc, head))
}

// An err of a contract.
fn err_of(alloc: Global, contract: &str, words: &str) -> Result<Obj, AllocError>
    requires named { IsTrue (is_printable contract.now) }
    requires word { is_word contract.now ≡ true }
    requires told { IsTrue (is_printable words.now) }
    ensures { IfOk result (λ o. o ≡ record { head = record (plain_err words.now).head { is = Some (contract.now ∷ []) }; inner = none }) }
{
    let contracts = one_word(alloc, contract)?;
    let mut made = err(alloc, words)?;
    match made.put_is(Some(contracts)) {
        Ok(()) => Ok(made),
        Err(_contracts) => unreachable!(),
    }
}

/// The reply where the verb isn't for a place, or an href leads to no place of the upstream's server.
pub(crate) fn not_supported(alloc: Global) -> Result<Obj, AllocError>
    ensures { IfOk result (λ o. o ≡ not_supported) }
{
    err_of(alloc, "obix:UnsupportedErr", "verb not supported here")
}

/// The reply where the tree has no such place.
pub(crate) fn no_such_object(alloc: Global) -> Result<Obj, AllocError>
    ensures { IfOk result (λ o. o ≡ no_such_object) }
{
    err_of(alloc, "obix:BadUriErr", "no such object")
}
