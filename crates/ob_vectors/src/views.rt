//! Views beside the effective objects that they show.
use ob_contracts::View;
use ob_object::{Obj, Slot};

fn same_slot(one: &Slot, other: &Slot) -> bool {
    match (one, other) {
        (Slot::Is(one), Slot::Is(other)) => one.same(other),
        (Slot::Null, Slot::Null) => true,
        (Slot::Absent, Slot::Absent) => true,
        _ => false,
    }
}

// Whether the child at a place has the kind and the slot of this one.
fn shows_at(seen: &View, place: u64, child: &Obj) -> bool {
    match seen.next_child(place) {
        Some(shown) => { shown.kind().same(child.kind()) && same_slot(shown.slot(), child.slot()) }
        None => false,
    }
}

// Whether the child of its name, if it has one, has the slot of this one.
fn shows_named(seen: &View, child: &Obj) -> bool {
    let Some(name) = child.name() else {
        return true;
    };
    match seen.child(name.as_str()) {
        Some(shown) => same_slot(shown.slot(), child.slot()),
        None => false,
    }
}

/// Whether a view shows this object, as far as its slot and the kinds and slots of its children go, by place and by name.
pub(crate) fn shows(seen: &View, made: &Obj) -> bool {
    let mut place = 0u64;
    for child in made.children() {
        if !shows_at(seen, place, child) || !shows_named(seen, child) {
            return false;
        }
        place = place.saturating_add(1);
    }
    seen.next_child(place).is_none() && same_slot(seen.slot(), made.slot())
}
