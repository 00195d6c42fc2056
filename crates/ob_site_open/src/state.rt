//! The state that a document opens.
ghost use Rattle.std.specs.Prelude.{◌≡◌, [], None, map, replicate, IfOk};
ghost use Rattle.ob_object.specs.Object.{parts};
ghost use Rattle.ob_object.specs.WellFormed.{IsWellFormed};
ghost use Rattle.ob_tree.specs.Laid.{paths};
ghost use Rattle.ob_tree.specs.Paths.{first_twice};
ghost use Rattle.ob_plain_state.specs.States.{AreCounted, entry_of as opened_entry};
ghost use Rattle.ob_site_file.specs.Opened.{site_of};
ghost use Rattle.ob_site_state.specs.Kept.{entry_of};
ghost use Rattle.ob_site_state.specs.Tallies.{capacities_of};
ghost use Rattle.ob_opening_laws.specs.Records.{EachLog};
ghost use Rattle.ob_site_open.specs.Logs.{CanStand, HaveNanos};
ghost use Rattle.ob_site_open.specs.Opens.{IsFromRoot, just_opened};

use crate::board::board_of;
use crate::logs::{capacities_of, logs_of};
use crate::time::opening_time;
use ob_ground::Ground;
use ob_history::Log;
use ob_object::Obj;
use ob_site_file::Opened;
use ob_site_state::{Contents, RoleIndex, State};
use ob_times::Moment;
use ob_tree::{Tree, TreeFault};
use ob_values::Text;
use std::alloc::{AllocError, Global};

// The tree of a root of which no two nodes have one path.
fn tree_of(alloc: Global, root: Obj) -> Result<Tree, AllocError>
    requires { first_twice [] (paths root) ≡ None }
    ensures tree { IfOk result (λ tree. tree ≡ record { root = root; stamps = replicate (parts root) 0; steps = 0 }) }
    ensures well_formed { IsWellFormed root }
{
    let _head = root.head();
    match Tree::build(alloc, root) {
        Ok(tree) => Ok(tree),
        Err(TreeFault::Memory) => Err(AllocError),
        Err(TreeFault::PathTwice { path: _ }) => unreachable!(),
    }
}

// The time at which it stands opened.
fn time_of(opened: &Opened) -> Moment
    ensures { result ≡ (site_of opened.now).world.time }
{
    opening_time(opened.plan.boot, &opened.logs)
}

// The logs of what stands opened, rolled down to their capacities.
fn logs_in(alloc: Global, opened: &Opened) -> Result<Vec<(Text, Log)>, AllocError>
    requires counted { AreCounted (map opened_entry opened.now.logs.items) }
    requires stand { EachLog CanStand (site_of opened.now).world.site.logs }
    ensures logs { IfOk result (λ logs. map entry_of logs.items ≡ (site_of opened.now).world.site.logs) }
    ensures nanos { IfOk result (λ logs. EachLog HaveNanos (map entry_of logs.items)) }
{
    logs_of(alloc, &opened.logs, opened.plan.boot)
}

// How many records each history of what stands opened keeps, if not all.
fn capacities_in(alloc: Global, opened: &Opened) -> Result<Vec<Option<u64>>, AllocError>
    ensures { IfOk result (λ made. made.items ≡ capacities_of (site_of opened.now).world.site.logs) }
{
    capacities_of(alloc, &opened.logs)
}

/// The state of what some document's root opened at some moment: no step has changed anything yet. An error only for want of
/// memory.
pub fn state_of(alloc: Global, opened: Opened) -> Result<State, AllocError>
    requires opens { IsFromRoot (site_of opened) }
    requires counted { AreCounted (map opened_entry opened.logs.items) }
    ensures { IfOk result (λ state. state ≡ just_opened (site_of opened)) }
{
    let time = time_of(&opened);
    let logs = logs_in(alloc, &opened)?;
    let board = board_of(alloc, &opened.plan)?;
    let capacities = capacities_in(alloc, &opened)?;
    let roles = RoleIndex::of(alloc, &opened.plan)?;
    let Opened {
        plan,
        library,
        tree,
        logs: whole,
    } = opened;
    drop(whole);
    let tree = tree_of(alloc, tree)?;
    let ground = Ground::new(alloc, library, tree)?;
    let contents = Contents {
        ground,
        logs,
        board,
        roles,
    };
    let state = State::new(alloc, plan, time, contents, capacities)?;
    Ok(state)
}
