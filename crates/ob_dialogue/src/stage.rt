//! How far a dialogue has come.
ghost use Rattle.std.specs.Prelude.{◌≡◌, ◌<◌, ◌^◌, IfOk, option_map, unwrap_or, [], true, false};
ghost use Rattle.ob_dialogue.specs.Stages.{ops_of, ops_from, refresh_in, begun, onward, mended};
ghost use Rattle.ob_dialogue.specs.Plans.{place_at};
ghost use Rattle.ob_dialogue.specs.InHand as in_hand;

use crate::plan::DialoguePlan;
use ob_asking::{Place, child_place, place_at};
use ob_client::Mirror;
use ob_href::Base;
use ob_object::Obj;
use ob_values::Text;
use std::alloc::{AllocError, Global};

/// The ops of a watch that the dialogue calls.
pub(crate) struct Ops {
    pub(crate) add: Place,
    pub(crate) changes: Place,
    /// Where broken polls are mended.
    pub(crate) refresh: Option<Place>,
    pub(crate) delete: Place,
}

/// A watch, the hrefs that are added, what is held of it, and how many polls were answered.
pub(crate) struct Watching {
    pub(crate) ops: Ops,
    pub(crate) asked: Vec<Text>,
    pub(crate) mirror: Mirror,
    pub(crate) polled: u64,
}

/// What is asked next.
#[derive(Drop)]
pub(crate) enum Stage {
    Lobby(Place),
    Service(Place),
    Make(Place),
    Subject(Ops, Place),
    Add(Watching),
    /// The op `ack` of an alarm is called at this path, as this user.
    Ack(Watching, Text, Text),
    Poll(Watching),
    Mend(Watching),
    Delete(Watching),
    Over,
}

impl Drop for Ops {
    // By one call for each part.
    fn drop(self) {
        let Ops {
            add,
            changes,
            refresh,
            delete,
        } = self;
        drop(add);
        drop(changes);
        drop(refresh);
        drop(delete);
    }
}

impl Drop for Watching {
    // By one call for each part.
    fn drop(self) {
        let Watching {
            ops,
            asked,
            mirror,
            polled: _,
        } = self;
        drop(ops);
        drop(asked);
        drop(mirror);
    }
}

impl Ops {
    /// Where a broken poll is mended.
    pub(crate) fn mending(&self) -> &Text
        ensures { result.now ≡ in_hand.mending self.now }
    {
        match &self.refresh {
            Some(place) => &place.target,
            None => &self.changes.target,
        }
    }
}

/// The first stage: the lobby is asked for.
pub(crate) fn first(alloc: Global, plan: &DialoguePlan) -> Result<Option<Stage>, AllocError>
    ensures { IfOk result (λ s. option_map in_hand.stage s ≡ in_hand.lobby (place_at plan.now.url [])) }
{
    match place_at(alloc, &plan.url, "")? {
        Some(place) => Ok(Some(Stage::Lobby(place))),
        None => Ok(None),
    }
}

// Where broken polls are mended, if they are.
fn refresh_in(
    alloc: Global,
    mends: bool,
    base: &Base,
    watch: &Obj,
) -> Result<Option<Option<Place>>, AllocError>
    ensures { IfOk result (λ r. r ≡ refresh_in mends base.now watch.now) }
{
    if !mends {
        return Ok(Some(None));
    }
    match child_place(alloc, base, watch, "pollRefresh")? {
        Some(place) => Ok(Some(Some(place))),
        None => Ok(None),
    }
}

/// The ops of a watch, if it has all that are needed.
pub(crate) fn ops_of(
    alloc: Global,
    mends: bool,
    base: &Base,
    watch: &Obj,
) -> Result<Option<Ops>, AllocError>
    ensures { IfOk result (λ o. o ≡ ops_of mends base.now watch.now) }
{
    let add = child_place(alloc, base, watch, "add")?;
    let changes = child_place(alloc, base, watch, "pollChanges")?;
    let refresh = refresh_in(alloc, mends, base, watch)?;
    let delete = child_place(alloc, base, watch, "delete")?;
    Ok(put_together(add, changes, refresh, delete))
}

// The ops, if all of them are there.
fn put_together(
    add: Option<Place>,
    changes: Option<Place>,
    refresh: Option<Option<Place>>,
    delete: Option<Place>,
) -> Option<Ops>
    ensures { result ≡ ops_from add changes refresh delete }
{
    Some(Ops {
        add: add?,
        changes: changes?,
        refresh: refresh?,
        delete: delete?,
    })
}

/// A watch of which nothing is held yet.
pub(crate) fn begun(alloc: Global, ops: Ops, asked: Vec<Text>) -> Watching
    ensures value { in_hand.watching result ≡ begun ops asked.items }
    ensures live { result.mirror.stale ≡ false }
{
    Watching {
        ops,
        asked,
        mirror: Mirror::new(alloc),
        polled: 0,
    }
}

/// The stage behind an answered add or poll: a further poll, or the end.
pub(crate) fn onward(plan: &DialoguePlan, watching: Watching) -> Stage
    requires { watching.mirror.stale ≡ false }
    ensures value { in_hand.stage result ≡ onward plan.now (in_hand.watching watching) }
    ensures live { in_hand.IsLive result }
{
    if watching.polled < plan.polls {
        Stage::Poll(watching)
    } else {
        Stage::Delete(watching)
    }
}

/// The stage in which a broken poll is mended.
pub(crate) fn mended(stage: Stage) -> Stage
    requires { in_hand.IsLive stage }
    ensures value { in_hand.stage result ≡ mended (in_hand.stage stage) }
    ensures live { in_hand.IsLive result }
{
    match stage {
        Stage::Poll(mut watching) => {
            watching.mirror.lost();
            Stage::Mend(watching)
        }
        stage => stage,
    }
}

/// Whether a poll is asked, or a refresh in place of one.
pub(crate) fn is_poll(stage: &Stage) -> bool
    ensures { result ≡ in_hand.is_poll stage.now }
{
    matches!(stage, Stage::Poll(_) | Stage::Mend(_))
}
