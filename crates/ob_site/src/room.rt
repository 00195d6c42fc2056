//! Room for one more step to be counted.
ghost use Rattle.std.specs.Prelude.{◌≡◌, ◌<◌, ◌-◌, ◌^◌};
ghost use Rattle.ob_site.specs.Between.{IsSite};
ghost use Rattle.ob_site.specs.Views.{site_of};

use ob_site_state::State;
use ob_watch::Watches;

/// Counts the steps from 1 again: all that is to be reported stays so.
fn renumber(state: &mut State, watches: &mut Watches)
    requires { IsSite state.old watches.old }
    ensures same { site_of state.new watches.new ≡ site_of state.old watches.old }
    ensures kept { IsSite state.new watches.new }
    ensures room { state.new.steps < 2 ^ 64 - 1 }
{
    watches.renumber(state.tree());
    state.renumber();
}

/// Makes room for one more step: where the counter is at its end, the steps are counted from 1 again. It takes no memory.
pub(crate) fn make_room(state: &mut State, watches: &mut Watches)
    requires { IsSite state.old watches.old }
    ensures same { site_of state.new watches.new ≡ site_of state.old watches.old }
    ensures kept { IsSite state.new watches.new }
    ensures room { state.new.steps < 2 ^ 64 - 1 }
{
    if state.steps() < u64::MAX {
        return;
    }
    renumber(state, watches);
}
