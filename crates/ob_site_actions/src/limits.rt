//! Whether what a write or an acknowledgement stores would be too much.
ghost use Rattle.std.specs.Prelude.{◌≡◌, cond, Option, List, ℕ};
ghost use Rattle.ob_site_rules.specs.State.{numbered_from, board};
ghost use Rattle.ob_site_rules.specs.Shown.{rule_of};
ghost use Rattle.ob_site_rules.specs.Writes.{is_over, overfills};
ghost use Rattle.ob_site_rules.specs.Posts.{acked};
ghost use Rattle.ob_plain_state.specs.Fitting.{TakesIfRule};
ghost use Rattle.ob_site_actions.specs.Limits.{growing, any_counted_out};

use ob_object::{Attributes, Slot};
use ob_site_state::{State, same_slot};
use ob_values::Text;

/// One where something is so, and else none.
fn one_if(is_so: bool) -> u64
    ensures { result ≡ cond is_so 1 0 }
{
    if is_so { 1 } else { 0 }
}

/// How many histories of a node keep all their records: so many more records a value of it stores.
fn growing(state: &State, source: &Text) -> u64
    ensures { result ≡ growing state.now.plan source.now state.now.now.logs }
{
    state.sound_law();
    state.growing(source)
}

/// Whether a history of a node has had as many events as can be counted.
fn any_counted_out(state: &State, source: &Text) -> bool
    ensures { result ≡ any_counted_out state.now.plan source.now state.now.now.logs }
{
    state.sound_law();
    let recorders = state.recorders(source);
    for place in recorders {
        if state.events_ever(*place) >= 9_223_372_036_854_775_807 {
            return true;
        }
    }
    false
}

/// Whether a value of a node, whose head is given, changes it, and its records and its alarm event would be too many:
/// more than 1,000,000 in all, or more than a history can count.
///
/// The limits are this profile's own.
pub fn overfills(state: &State, path: &Text, head: &Attributes, slot: &Slot) -> bool
    requires { TakesIfRule (numbered_from 0 state.now.plan.rules) (rule_of state.now.plan path.now) slot.now }
    ensures { result ≡ overfills state.now.plan state.now.now state.now.time path.now head.now slot.now }
{
    if same_slot(slot, head.slot()) {
        return false;
    }
    state.sound_law();
    let is_event = state.would_act(path, slot);
    let more = growing(state, path).saturating_add(one_if(is_event));
    state.is_full(more) || any_counted_out(state, path)
}

/// Whether an acknowledgement of an alarm would be an alarm event too many.
pub fn ack_overfills(state: &State, number: u64) -> bool
    ensures { (user : Option (List ℕ)) → result ≡ is_over state.now.now.logs (acked (board state.now.plan state.now.now) number user state.now.time) }
{
    state.sound_law();
    let is_event = state.would_ack(number);
    state.is_full(one_if(is_event))
}
