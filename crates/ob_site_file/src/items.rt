//! The items of own lists, with their numbers.
ghost use Rattle.std.specs.Prelude.{◌≡◌, ◌+◌, ◌<◌, ◌^◌, map};
ghost use Rattle.std.specs.Option.{option_copied};
ghost use Rattle.ob_object.specs.Object.{in_row, count};
ghost use Rattle.ob_object.specs.declared.kind.Kind.TheVariants as kind;
ghost use Rattle.ob_site_rules.specs.Roles.{is_part};
ghost use Rattle.ob_site_rules.specs.Loading.{numbered, items_of, child_of};
ghost use Rattle.ob_roles.specs.SiteParts.{part as site_part};
ghost use Rattle.ob_site_file.specs.Numbers.{IsNumbered};

use ob_object::{Kind, Obj};
use ob_roles::Part;

/// The items of an own list, the first of which has this number.
#[derive(Clone, Copy)]
pub(crate) struct Items<'a> {
    pub(crate) number: u64,
    pub(crate) objects: &'a [Obj],
}

// Whether an object is the own list of a name.
fn is_list(object: &Obj, name: &str) -> bool
    ensures { result ≡ is_part name.now kind.List object.now.head }
{
    object.is_named(name) && object.kind().same(Kind::List)
}

/// The items of the own list of a name; none where there is no such list. Their numbers are exact where those of the part fit 64
/// bits.
pub(crate) fn items_of<'a>(part: &Part<'a>, name: &str) -> Items<'a>
    ensures objects { result.objects.now ≡ map (λ i. i.1) (items_of name.now (site_part part.now)) }
    ensures items { IsNumbered (site_part part.now) → numbered result.number result.objects.now ≡ items_of name.now (site_part part.now) }
    ensures within { IsNumbered (site_part part.now) → result.number + count (in_row result.objects.now) < 2 ^ 64 }
{
    let mut number = part.number.saturating_add(1);
    for child in part.own.children() {
        if is_list(child, name) {
            return Items {
                number: number.saturating_add(1),
                objects: child.children(),
            };
        }
        number = number.saturating_add(child.parts());
    }
    Items {
        number,
        objects: &[],
    }
}

/// The child of a name, if it is of a kind.
pub(crate) fn child_of<'a>(object: &'a Obj, name: &str, kind: Kind) -> Option<&'a Obj>
    ensures { option_copied result ≡ child_of name.now kind object.now }
{
    match object.child(name) {
        Some(child) => {
            if child.kind().same(kind) {
                Some(child)
            } else {
                None
            }
        }
        None => None,
    }
}
