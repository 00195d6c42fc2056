//! The roles of all objects of a site, in the order of the document.
ghost use Rattle.std.specs.Prelude.{◌≡◌, ◌++◌, List, IfOk};
ghost use Rattle.std.specs.Option.{option_copied};
ghost use Rattle.ob_object.specs.Object.{Object, in_row};
ghost use Rattle.ob_contracts.specs.Inherit.{Contracts};
ghost use Rattle.ob_site_rules.specs.Roles.{row_roles, all_roles};
ghost use Rattle.ob_roles.specs.Kinds.{Tells};
ghost use Rattle.ob_roles.specs.Tables.{Holds, HoldsBrief};
ghost use Rattle.ob_roles.specs.Given.{IsGiven, IsAbove};

use crate::given::{Above, Given, above_of, base_of, given_by, gives_of, nothing, over_names};
use crate::kinds::Known;
use crate::learned::Learned;
use crate::roles::{Place, roles_by};
use crate::taking::Table;
use crate::told::is_below;
use ob_object::Obj;
use ob_site_rules::Roles;
use std::alloc::{AllocError, Global};
use std::collections::BTreeMap;

/// What stands round a row of objects.
#[derive(Clone, Copy)]
struct Round<'a, 'l, 'v> {
    /// Whether the row is that of the root alone.
    root: bool,
    /// Whether the row is that of the root's children.
    under: bool,
    /// Whether the row is inside the contracts of the site.
    inside: bool,
    /// What the words of a list or a feed give to the objects.
    list: &'l Given<'a>,
    /// The children that the objects may override.
    above: Above<'a, 'v>,
}

/// Puts last the roles of the objects of a row and of what is in them.
fn put_row<'a>(
    alloc: Global,
    learned: &Learned<'a, '_>,
    all: &mut Vec<Roles>,
    round: &Round<'a, '_, '_>,
    objects: &'a [Obj],
) -> Result<(), AllocError>
    ensures { IfOk result (λ _. (lib : Contracts) (ss : List Object) → Holds learned.now.table.now lib → Tells learned.now.known.now lib → IsGiven round.now.list.now lib → IsAbove round.now.above ss
        → all.new.items ≡ all.old.items ++ row_roles lib round.now.root round.now.under round.now.inside (option_copied round.now.list.now.words) ss (in_row objects.now)) }
{
    for object in objects {
        let head = object.head();
        let over = round.above.over(head);
        let below = is_below(round.inside, round.under, head);
        let place = Place {
            root: round.root,
            inside: below,
        };
        let roles = roles_by(learned.known, place, head, round.list, over);
        all.push(roles)?;
        let children = object.children();
        if children.len() > 0 {
            let own = given_by(alloc, learned.table, learned.known, head.is())?;
            let base = base_of(&own, &*round.list);
            let gives = gives_of(head, base, over);
            let handed = given_by(alloc, learned.table, learned.known, gives)?;
            let names = over_names(alloc, head, over)?;
            let above = above_of(head, base, &names);
            let within = Round {
                root: false,
                under: round.root,
                inside: below,
                list: &handed,
                above,
            };
            put_row(alloc, learned, all, &within, children)?;
        }
    }
    Ok(())
}

/// The roles of a root and of what is in it, in the order of the document, by the contracts of a library with the words
/// of their parts, few for each part, and by what the words are. An error only for want of memory.
pub fn all_roles(
    alloc: Global,
    table: &Table,
    known: &Known,
    root: &Obj,
) -> Result<Vec<Roles>, AllocError>
    ensures { IfOk result (λ rs. (lib : Contracts) → HoldsBrief table.now lib → Tells known.now lib → rs.items ≡ all_roles lib root.now) }
{
    let mut all = Vec::new(alloc);
    let names = BTreeMap::new(alloc);
    let above = Above {
        base: None,
        over: &names,
    };
    let list = nothing(alloc);
    let round = Round {
        root: true,
        under: false,
        inside: false,
        list: &list,
        above,
    };
    let learned = Learned { table, known };
    let row = std::slice::from_ref(root);
    put_row(alloc, &learned, &mut all, &round, row)?;
    Ok(all)
}
