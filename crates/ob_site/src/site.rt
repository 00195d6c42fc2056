//! A site.
ghost use Rattle.std.specs.Prelude.{◌≡◌, ◌↔◌, ◌+◌, ◌<◌, ◌≤◌, IsTrue, IfOk, OnOk, OnErr, option_copied};
ghost use Rattle.ob_watching.specs.Watches.{last_number};
ghost use Rattle.ob_site_rules.specs.Locating.{locate};
ghost use Rattle.ob_site_rules.specs.Sites.{step};
ghost use Rattle.ob_site_watches.specs.Polls.{object_entries, steps_for};
ghost use Rattle.ob_site.specs.Counts.{IsPoll, RequestTakes};
ghost use Rattle.ob_site.specs.Bare.{is_bare};
ghost use Rattle.ob_site.specs.Keeping.{Keeps, MayKeep, stepping};
ghost use Rattle.ob_points.specs.Points.{point_at, passes};

use crate::keeper::{Keeper, Nobody};
use crate::points::{is_bare, point};
use crate::step::{TimedRequest, step};
use ob_contracts::Steps;
use ob_machine::Machine;
use ob_object::Obj;
use ob_site_actions::passes;
use ob_site_rules::Request;
use ob_site_same::same_state;
use ob_site_state::State;
use ob_times::Moment;
use ob_values::{Text, Value};
use ob_watch::Watches;
use std::alloc::AllocError;
use std::marker::{Brand, Model};
use std::sync::ledger::{Blank, Ledger};

/// A site: its state in place, and its watches.
///
/// Contracts see it as the state of the definitions: the plan and the world.
pub struct Site {
    state: State,
    watches: Watches,
}

impl Model for Site {
    ghost use Rattle.ob_site_rules.specs.Sites.{SiteState};
    ghost use Rattle.ob_site.specs.Codes.{site_code};

    ghost Value = { SiteState };

    ghost coded = { site_code };

    ghost use Rattle.ob_site.specs.Views.{site_of};
    ghost use Rattle.ob_site.specs.Between.{IsSite};

    ghost view = { λ a. site_of a.state a.watches };

    ghost invariant = { λ a. IsSite a.state a.watches };
}

impl Drop for Site {
    // By one call for each part, so that to drop it is one call to whoever may have to.
    fn drop(self) {
        let Site { state, watches } = self;
        drop(state);
        drop(watches);
    }
}

impl Site {
    ghost use Rattle.ob_site.specs.Between.{IsOpened};
    ghost use Rattle.ob_site.specs.Views.{opened, without_watches};
    ghost use Rattle.ob_site_laws.specs.SiteLaws.{IsSoundSite};

    /// A site of a state that a document of at most 32 levels opened, without watches; the first will have number 1.
    pub fn open(state: State) -> Site
        requires { IsOpened state }
        ensures { result ≡ opened state }
    {
        state.sound_law();
        let alloc = state.allocator();
        let _changes = state.changes();
        Site {
            state,
            watches: Watches::new(alloc),
        }
    }

    /// The same as `step_counted` and as `step_kept`, with a keeper and a counter of steps.
    fn step_with<L: Ledger, K: Keeper>(
        &mut self,
        keeper: &mut K,
        request: &Request,
        moment: Moment,
        steps: &mut Steps<L>,
    ) -> Result<Obj, AllocError>
        requires ready { K.is_ready keeper.old }
        ensures done { IfOk result (λ reply. step locate self.old request.now moment ≡ (self.new, reply)) }
        ensures refused { OnErr result (self.new ≡ self.old) }
        ensures keeps { OnOk result (Keeps K.below K.keeps keeper.old keeper.new (stepping self.old request.now moment)) }
        ensures may_keep { OnErr result (MayKeep K.below K.may_keep keeper.old keeper.new (stepping self.old request.now moment)) }
        ensures steps { IfOk result (λ _. RequestTakes self.old request.now moment steps.old steps.new) }
        ensures polls { IfOk result (λ reply. IsPoll self.old request.now → steps.new ≤ steps.old + steps_for 32 (object_entries reply)) }
    {
        let asked = TimedRequest { request, moment };
        step(&mut self.state, &mut self.watches, keeper, asked, steps)
    }

    /// Does one request at a moment, and gives the reply, as `Machine::step` does, with a counter of the steps that it takes. A step
    /// is a view taken of what an object inherits, or one object of an effective object that is built: nothing of either is had
    /// without the counter.
    ///
    /// For a pollChanges they are a function of the site, the request and the moment: of each item on an object that has changed,
    /// the objects round it and the parts of what is shown there; for a pollRefresh the same of each item on an object. So a
    /// pollChanges counts at most as many as the entries for objects that it reports have parts, and for each of them 32, for
    /// the objects round it: a site has at most the 32 levels of its document. What finds no watch, makes one, looks at one or takes
    /// items from it counts none; of other requests no more is said. Want of memory leaves the site as it was.
    ///
    /// Source: oBIX 1.1, chapter 12 (Watch.pollChanges).
    pub fn step_counted<L: Ledger>(
        &mut self,
        request: &Request,
        moment: Moment,
        steps: &mut Steps<L>,
    ) -> Result<Obj, AllocError>
        ensures done { IfOk result (λ reply. step locate self.old request.now moment ≡ (self.new, reply)) }
        ensures refused { OnErr result (self.new ≡ self.old) }
        ensures steps { IfOk result (λ _. RequestTakes self.old request.now moment steps.old steps.new) }
        ensures polls { IfOk result (λ reply. IsPoll self.old request.now → steps.new ≤ steps.old + steps_for 32 (object_entries reply)) }
    {
        let mut nobody = Nobody;
        self.step_with(&mut nobody, request, moment, steps)
    }

    /// Does one request at a moment, and gives the reply, as `Machine::step` does, once a keeper has kept of it what another life
    /// of the site needs. An error for want of memory, or from the keeper, leaves the site as it was.
    ///
    /// The keeper is asked once at most, before anything of the step counts: to keep a request for the site itself that has
    /// changed it; or a make that was done, whose number can't have been given by what is kept. What isn't
    /// kept leaves the site as it was. After it was asked nothing can fail.
    pub fn step_kept<K: Keeper>(
        &mut self,
        keeper: &mut K,
        request: &Request,
        moment: Moment,
    ) -> Result<Obj, AllocError>
        requires ready { K.is_ready keeper.old }
        ensures done { IfOk result (λ reply. step locate self.old request.now moment ≡ (self.new, reply)) }
        ensures refused { OnErr result (self.new ≡ self.old) }
        ensures keeps { OnOk result (Keeps K.below K.keeps keeper.old keeper.new (stepping self.old request.now moment)) }
        ensures may_keep { OnErr result (MayKeep K.below K.may_keep keeper.old keeper.new (stepping self.old request.now moment)) }
    {
        step_by::<Brand, K>(self, keeper, request, moment, Blank::new(1))
    }

    /// The own object of the writable point at a path, without its children; None at every other path. It takes no memory.
    pub fn point(&self, path: &Text) -> Option<&Obj>
        ensures { option_copied result ≡ point_at self.now.plan self.now.world.site path.now }
    {
        point(&self.state, path)
    }

    /// Whether a path is that of an own node whose values no history records and no rule looks at: a Put there leaves nothing but
    /// the value and, where it is a part of a contract, what others inherit of it.
    pub fn is_bare(&self, path: &Text) -> bool
        ensures { result ≡ is_bare self.now.plan self.now.world.site path.now }
    {
        is_bare(&self.state, path)
    }

    /// Whether two sites of one plan are the same, apart from their watches and times: their own objects, libraries, logs,
    /// alarms and events. An error only for want of memory, since the own objects are copied to be compared.
    pub fn has_same(&self, other: &Site) -> Result<bool, AllocError>
        ensures { IfOk result (λ yes. self.now.plan ≡ other.now.plan → IsTrue yes ↔ (self.now.world.site ≡ other.now.world.site)) }
    {
        same_state(self.state.allocator(), &self.state, &other.state)
    }

    /// Whether the tests of a Put on a value let it through to what is shown at a path: its kind, a text too long, below min,
    /// above max, not in range. Where nothing is shown, none is let through. An error only for want of memory.
    pub fn passes(&self, path: &Text, value: &Value) -> Result<bool, AllocError>
        ensures { IfOk result (λ yes. yes ≡ passes self.now.plan self.now.world.site path.now value.now) }
    {
        passes_by::<Brand>(self, path, value, Blank::new(1))
    }

    /// The time of the last step.
    pub fn time(&self) -> Moment
        ensures { result ≡ self.now.world.time }
    {
        self.state.time()
    }

    /// The number that the next watch is given.
    pub fn next_number(&self) -> u64
        ensures { result ≡ self.now.world.next }
    {
        self.watches.next_number()
    }

    /// Drops all watches, as a restart does; numbers below this one count as given.
    pub fn restart(&mut self, below: u64)
        requires { below ≤ last_number + 1 }
        ensures { self.new ≡ without_watches self.old below }
    {
        self.watches.restart(below);
    }

    /// Every site is sound: numbers of watches rise, no watch has an href twice, and each history is
    /// within its capacity. So the laws of the watches hold from it on.
    pub fn sound_law(&self)
        ensures { IsSoundSite self.now }
    {
        let _ = &self.state;
    }
}

/// The same as `Site::passes`, with a counter of steps of its own.
fn passes_by<L: Ledger>(
    site: &Site,
    path: &Text,
    value: &Value,
    blank: Blank,
) -> Result<bool, AllocError>
    requires name { blank.name ≡ L.name }
    requires parts { blank.parts ≡ L.parts }
    requires cut { 0 < blank.parts }
    ensures { IfOk result (λ yes. yes ≡ passes site.now.plan site.now.world.site path.now value.now) }
{
    let mut steps = Steps::<L>::begin(blank);
    passes(&site.state, path, value, &mut steps)
}

/// The same as `step_kept`, with a counter of steps of its own.
fn step_by<L: Ledger, K: Keeper>(
    machine: &mut Site,
    keeper: &mut K,
    request: &Request,
    moment: Moment,
    blank: Blank,
) -> Result<Obj, AllocError>
    requires name { blank.name ≡ L.name }
    requires parts { blank.parts ≡ L.parts }
    requires cut { 0 < blank.parts }
    requires ready { K.is_ready keeper.old }
    ensures done { IfOk result (λ reply. step locate machine.old request.now moment ≡ (machine.new, reply)) }
    ensures refused { OnErr result (machine.new ≡ machine.old) }
    ensures keeps { OnOk result (Keeps K.below K.keeps keeper.old keeper.new (stepping machine.old request.now moment)) }
    ensures may_keep { OnErr result (MayKeep K.below K.may_keep keeper.old keeper.new (stepping machine.old request.now moment)) }
{
    let mut steps = Steps::<L>::begin(blank);
    machine.step_with(keeper, request, moment, &mut steps)
}

impl Machine for Site {
    type Request = Request;

    type Reply = Obj;

    ghost act = { step locate };

    /// Does one request at a moment, and gives the reply. Time never goes back: an earlier moment is that of
    /// the step before. Want of memory leaves the site as it was.
    fn step(&mut self, request: &Request, moment: Moment) -> Result<Obj, AllocError> {
        let mut nobody = Nobody;
        step_by::<Brand, Nobody>(self, &mut nobody, request, moment, Blank::new(1))
    }
}

/// A site may go to another thread, as a desk that several threads ask wants it.
pub fn crosses_threads() {
    is_send::<Site>();
}

fn is_send<T: Send>() {}
