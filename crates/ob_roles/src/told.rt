//! What the roles of an object mean for its children.
ghost use Rattle.std.specs.Prelude.{◌≡◌, ◌||◌, ◌∷◌, [], codes};
ghost use Rattle.ob_site_rules.specs.Roles.{no_roles, role_at, derived_names, is_part, is_dropped, holds_contracts, name_among};
ghost use Rattle.ob_site_rules.specs.State.{is_among};

use ob_object::{Attributes, Kind};
use ob_site_rules::Roles;

/// No role.
pub(crate) fn no_roles() -> Roles
    ensures { result ≡ no_roles }
{
    Roles {
        root: false,
        lobby: false,
        point: false,
        history: false,
        subject: false,
    }
}

/// The roles of the object of a number.
pub fn role_at(roles: &[Roles], number: u64) -> Roles
    ensures { result ≡ role_at roles.now number }
{
    match roles.get(number as usize) {
        Some(roles) => *roles,
        None => no_roles(),
    }
}

fn is_lobby_name(name: &str) -> bool
    ensures { result ≡ is_among name.now (codes "about" ∷ codes "batch" ∷ codes "watchService" ∷ []) }
{
    "about" == name || "batch" == name || "watchService" == name
}

fn is_history_name(name: &str) -> bool
    ensures { result ≡ is_among name.now (codes "count" ∷ codes "start" ∷ codes "end" ∷ codes "query" ∷ codes "feed" ∷ []) }
{
    "count" == name || "start" == name || "end" == name || "query" == name || "feed" == name
}

fn is_subject_name(name: &str) -> bool
    ensures { result ≡ is_among name.now (codes "count" ∷ codes "query" ∷ codes "feed" ∷ []) }
{
    "count" == name || "query" == name || "feed" == name
}

fn is_point_name(name: &str) -> bool
    ensures { result ≡ is_among name.now (codes "writePoint" ∷ []) }
{
    "writePoint" == name
}

/// Whether roles derive a child of a name.
#[tactic(auto, using(crate::proofs::Dropped::derived_among))]
fn derive(roles: Roles, name: &str) -> bool
    ensures { result ≡ is_among name.now (derived_names roles) }
{
    (roles.lobby && is_lobby_name(name))
        || (roles.point && is_point_name(name))
        || (roles.history && is_history_name(name))
        || (roles.subject && is_subject_name(name))
}

/// Whether an object has a name and is of a kind.
fn is_part(head: &Attributes, name: &str, kind: Kind) -> bool
    ensures { result ≡ is_part name.now kind head.now }
{
    match head.name() {
        Some(own) => own.as_str() == name && head.kind().same(kind),
        None => false,
    }
}

/// Whether roles derive a child of the name of an object.
fn derive_one(roles: Roles, head: &Attributes) -> bool
    ensures { result ≡ name_among (derived_names roles) head.now.name }
{
    match head.name() {
        Some(name) => derive(roles, name.as_str()),
        None => false,
    }
}

/// Whether an own child is dropped or taken out.
pub fn drops(roles: Roles, head: &Attributes) -> bool
    ensures { result ≡ is_dropped roles head.now }
{
    derive_one(roles, head)
        || (roles.history && is_part(head, "data", Kind::List))
        || (roles.subject && is_part(head, "rules", Kind::List))
        || (roles.root && is_part(head, "about", Kind::Obj))
}

/// Whether what is in a child of an object is inside the contracts of the site.
fn holds_contracts(root: bool, head: &Attributes) -> bool
    ensures { result ≡ holds_contracts root head.now }
{
    match head.name() {
        Some(name) => root && name.as_str() == "contracts",
        None => false,
    }
}

/// The same, where the object round it is inside or isn't.
pub(crate) fn is_below(inside: bool, under: bool, head: &Attributes) -> bool
    ensures { result ≡ (inside || holds_contracts under head.now) }
{
    inside || holds_contracts(under, head)
}

/// Whether what is in an object is inside the contracts of the site, where the object is or isn't.
pub(crate) fn is_inside(inside: bool, above: Roles, head: &Attributes) -> bool
    ensures { result ≡ (inside || holds_contracts above.root head.now) }
{
    inside || holds_contracts(above.root, head)
}
