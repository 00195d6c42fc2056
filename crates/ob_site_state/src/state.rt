//! The state of a site in place.
ghost use Rattle.std.specs.Prelude.{◌≡◌, ℕ, All, ◌-◌, List, Option, nat_lt, true, false, ◌<◌, ◌≤◌, ◌+◌, ◌^◌, [], None, max, map, option_map, length, replicate, slice_get, Some, IsTrue, IfOk, OnOk, OnErr, IfSome};
ghost use Rattle.ob_times.specs.Times.{moment_instant};
ghost use Rattle.ob_object.specs.declared.head.Head.{Head};
ghost use Rattle.ob_object.specs.Fits.{fits_slot};
ghost use Rattle.ob_object.specs.Object.{parts};
ghost use Rattle.ob_tree.specs.Laid.{head_at, changed};
ghost use Rattle.ob_alarms.specs.Limits.{Takes};
ghost use Rattle.ob_alarms.specs.Changes.{on_value, on_ack};
ghost use Rattle.ob_history.specs.Records.{IsRecord};
ghost use Rattle.ob_site_rules.specs.Build.{Path};
ghost use Rattle.ob_site_rules.specs.State.{Log as SiteLog, numbered_from, board, with_board, roll, at, is_among};
ghost use Rattle.ob_site_rules.specs.Writes.{stored, events_ever, records_from, with_record, recorded, board_after};
ghost use Rattle.ob_object.specs.WellFormed.{IsWellFormed};
ghost use Rattle.ob_tree.specs.Laid.{paths};
ghost use Rattle.ob_tree.specs.Paths.{first_twice, place_of};
ghost use Rattle.ob_site_rules.specs.Writes.{is_in_contract};
ghost use Rattle.ob_step_laws.specs.Given.{IsMade};
ghost use Rattle.ob_site_state.specs.OwnContracts.{HasNoted, with_slot_at};
ghost use Rattle.ob_step_laws.specs.Laws.{Apart};
ghost use Rattle.ob_site_rules.specs.Shown.{rule_of};
ghost use Rattle.ob_plain_state.specs.Fitting.{TakesIfRule};
ghost use Rattle.ob_site_state.specs.Roles.{recorders_of, AreRoles, is_at, stands_at};
ghost use Rattle.ob_site_state.specs.Recorded.{TakesRecord};
ghost use Rattle.std.specs.List.{list_any};
ghost use Rattle.ob_site_state.specs.Changes.{with_log, is_library, rewound, CanRewind, ChangesTell, IsNode, HasEvents};
ghost use Rattle.ob_site_state.specs.Stamping.{stamped_by};
ghost use Rattle.ob_site_state.specs.Kept.{keys, log_of, LogsAreBy, IsSoundFor, entry_of};
ghost use Rattle.ob_site_state.specs.Contents.{state_in};
ghost use Rattle.ob_site_state.specs.Tallies.{capacities_of, growing_in};
ghost use Rattle.ob_contracts.specs.Shown.{shown};
ghost use Rattle.ob_tree.specs.Children.{child_at};
ghost use Rattle.ob_tree.specs.Depths.{depth_at};
ghost use Rattle.ob_tree.specs.Shown.{standing_at};
ghost use Rattle.ob_tree.specs.Standings.{context};
ghost use Rattle.ob_ground.specs.Grounds.{alone_at, inside_at};
ghost use Rattle.std.specs.Option.{option_copied};
ghost use Rattle.ob_alarms.specs.Lists.{first_place};

use crate::change::Change;
use crate::contents::Contents;
use crate::numbers::number_in;
use crate::own_contracts::OwnContracts;
use crate::renewing::renew;
use crate::tally::{Tally, count_at};
use ob_alarms::{Alarms, Num};
use ob_contracts::{Library, Steps, View};
use ob_ground::Ground;
use ob_history::{Log, Record};
use ob_object::{Kind, Slot};
use ob_site_rules::Plan;
use ob_times::Moment;
use ob_tree::{NodeId, Standing, Tree};
use ob_values::Text;
use std::alloc::{AllocError, Global};
use std::marker::Model;
use std::sync::ledger::Ledger;

/// The state of a site, apart from its watches: what is fixed, the time, the library, the own objects, the log
/// of each history under its path, and the alarms.
///
/// What a step changes is noted, so that it can be taken back without memory. Contracts see the state now and
/// the state before the step.
pub struct State {
    alloc: Global,
    plan: Plan,
    time: Moment,
    contents: Contents,
    own: OwnContracts,
    // The time before the step, and what it has changed since, in order.
    since: Moment,
    found: Vec<Change>,
    tally: Tally,
}

impl Drop for State {
    // By one call for each part, so that to drop it is one call to whoever may have to.
    fn drop(self) {
        let State {
            alloc: _,
            plan,
            time: _,
            contents,
            own,
            since: _,
            found,
            tally,
        } = self;
        drop(plan);
        drop(contents);
        drop(own);
        drop(found);
        drop(tally);
    }
}

impl Model for State {
    ghost use Rattle.ob_site_state.specs.Kept.{Kept};
    ghost use Rattle.ob_site_state.specs.Codes.{kept_code};

    ghost Value = { Kept };

    ghost coded = { kept_code };

    ghost use Rattle.ob_site_state.specs.States.{kept, IsState};

    ghost view = { kept };

    ghost invariant = { IsState };
}

/// Whether a library is noted.
fn has_library(changes: &[Change]) -> bool
    ensures { result ≡ list_any is_library changes.now }
{
    changes.iter().any(|change| is_library(change))
}

/// Whether a change notes a library.
fn is_library(change: &Change) -> bool
    ensures { result ≡ is_library change.now }
{
    match change {
        Change::Contracts { told: _ } => true,
        Change::Slot { node: _, slot: _ }
        | Change::Records { place: _, len: _ }
        | Change::Event { rule: _, status: _ } => false,
    }
}

/// Notes the library as it is, by a copy, where the step has noted none. Want of memory leaves all as it was.
fn note_library(alloc: Global, found: &mut Vec<Change>, ground: &Ground) -> Result<(), AllocError>
    ensures ok { OnOk result (HasNoted ground.now found.old.items found.new.items) }
    ensures err { OnErr result (found.new.items ≡ found.old.items) }
{
    if has_library(found.as_slice()) {
        return Ok(());
    }
    found.reserve(1)?;
    let copy = ground.library().copy()?;
    let told = ground.told_by(alloc, copy)?;
    found.push_reserved(Change::Contracts { told });
    Ok(())
}

/// The later of two moments.
fn later(first: Moment, second: Moment) -> Moment
    ensures { result ≡ max first second }
{
    if first.ms() < second.ms() {
        second
    } else {
        first
    }
}

impl State {
    /// A state in which no step has changed anything yet; with how many records the history of each place keeps, if
    /// not all. An error only for want of memory.
    pub fn new(
        alloc: Global,
        plan: Plan,
        time: Moment,
        contents: Contents,
        capacities: Vec<Option<u64>>,
    ) -> Result<State, AllocError>
        requires root { contents.board.root ≡ plan.root }
        requires rules { contents.board.rules ≡ numbered_from 0 plan.rules }
        requires histories { keys (state_in contents).logs ≡ map (λ h. h.0) plan.histories }
        requires apart { Apart (map (λ h. h.0) plan.histories) }
        requires well_formed { IsWellFormed contents.ground.tree.root }
        requires differ { first_twice [] (paths contents.ground.tree.root) ≡ None }
        requires in_time { LogsAreBy time (state_in contents).logs }
        requires rolled { roll (state_in contents) ≡ state_in contents }
        requires sound { IsSoundFor plan (state_in contents) }
        requires roles { AreRoles contents.roles plan }
        requires capacities { capacities_of (state_in contents).logs ≡ capacities.items }
        requires made { IsMade (state_in contents) }
        ensures { IfOk result (λ state. state ≡ record { plan = plan; time = time; now = state_in contents; since = time; before = state_in contents; stamps = contents.ground.tree.stamps; steps = contents.ground.tree.steps }) }
    {
        let tally = Tally::new(alloc, plan.histories.as_slice(), capacities, &contents.logs)?;
        let own = OwnContracts::of(alloc, &contents.ground)?;
        Ok(State {
            alloc,
            plan,
            time,
            contents,
            own,
            since: time,
            found: Vec::new(alloc),
            tally,
        })
    }

    /// What is fixed.
    pub fn plan(&self) -> &Plan
        ensures { result.now ≡ self.now.plan }
    {
        &self.plan
    }

    /// The allocator of the state.
    pub fn allocator(&self) -> Global {
        self.alloc
    }

    /// The library of contracts.
    pub fn library(&self) -> &Library
        ensures { result.now ≡ self.now.now.library }
    {
        self.contents.ground.library()
    }

    /// The own objects, no two of which have one path, with their stamps.
    pub fn tree(&self) -> &Tree
        ensures value { result.now ≡ record { root = self.now.now.tree; stamps = self.now.stamps; steps = self.now.steps } }
        ensures differ { first_twice [] (paths self.now.now.tree) ≡ None }
    {
        self.contents.ground.tree()
    }

    /// Where an own object stands. It takes a view of each object round it, which counts one step each.
    pub fn standing<L: Ledger>(&self, node: NodeId, steps: &mut Steps<L>) -> Standing<'_>
        requires { node.number < parts self.now.now.tree }
        ensures stands { Some (context result) ≡ standing_at self.now.now.library node.number self.now.now.tree }
        ensures steps { steps.new ≡ steps.old + depth_at node.number self.now.now.tree }
    {
        self.contents.ground.standing(node, steps)
    }

    /// The child of a name that an own object has itself: looked up where it has more than eight, else looked for one by one.
    pub fn child(&self, node: NodeId, name: &str) -> Option<NodeId>
        requires { node.number < parts self.now.now.tree }
        ensures child { option_map (λ id. id.number) result ≡ child_at node.number name.now self.now.now.tree }
        ensures within { IfSome result (λ child. child.number < parts self.now.now.tree) }
    {
        self.contents.ground.child(node, name)
    }

    /// What an own object shows where it stands, but for its own children, lent. It counts one step, and one for each object
    /// round it.
    pub fn view<L: Ledger>(&self, node: NodeId, steps: &mut Steps<L>) -> View<'_>
        requires { node.number < parts self.now.now.tree }
        ensures view { Some (shown result) ≡ alone_at self.now.now.library node.number self.now.now.tree }
        ensures steps { steps.new ≡ steps.old + depth_at node.number self.now.now.tree + 1 }
    {
        self.contents.ground.view(node, steps)
    }

    /// Where a child of a name stands, or would stand, in an own object. It counts one step, and one for each object round it.
    pub fn inside<'a, L: Ledger>(
        &'a self,
        node: NodeId,
        name: Option<&Text>,
        steps: &mut Steps<L>,
    ) -> Standing<'a>
        requires { node.number < parts self.now.now.tree }
        ensures inside { Some (context result) ≡ inside_at self.now.now.library node.number (option_copied name.entry) self.now.now.tree }
        ensures steps { steps.new ≡ steps.old + depth_at node.number self.now.now.tree + 1 }
    {
        self.contents.ground.inside(node, name, steps)
    }

    /// The alarms, with the plan's rules and its root.
    pub fn alarms(&self) -> &Alarms
        ensures { result.now ≡ record (board self.now.plan self.now.now) { spare = result.now.spare } }
    {
        &self.contents.board
    }

    /// The log of a place.
    pub fn log(&self, place: usize) -> &Log
        requires { place < length self.now.now.logs }
        ensures { (l : Path × SiteLog) → slice_get self.now.now.logs place ≡ Some l → log_of result.now ≡ l.1 }
    {
        &self.contents.logs[place].1
    }

    /// The log of a place, under its path.
    pub fn history(&self, place: usize) -> &(Text, Log)
        requires { place < length self.now.now.logs }
        ensures { slice_get self.now.now.logs place ≡ Some (entry_of result.now) }
    {
        &self.contents.logs[place]
    }

    /// The log of the history at a path, by a look-up: the one that stands first under the path.
    pub fn log_at(&self, path: &Text) -> Option<&Log>
        ensures { option_map log_of (option_copied result) ≡ at path.now self.now.now.logs }
    {
        let Some(place) = self.contents.roles.history_at(path) else {
            return None;
        };
        match self.contents.logs.get(place) {
            Some(entry) => Some(&entry.1),
            None => None,
        }
    }

    /// The place of the history at a path, if there is one.
    pub fn history_at(&self, path: &Text) -> Option<usize>
        ensures { result ≡ first_place (stands_at path.now) self.now.plan.histories }
    {
        self.contents.roles.history_at(path)
    }

    /// The place of the writable point at a path, if there is one.
    pub fn point_at(&self, path: &Text) -> Option<usize>
        ensures { result ≡ first_place (is_at path.now) self.now.plan.points }
    {
        self.contents.roles.point_at(path)
    }

    /// Whether there is a writable point at a path.
    pub fn is_point(&self, path: &Text) -> bool
        ensures { result ≡ is_among path.now self.now.plan.points }
    {
        self.contents.roles.is_point(path)
    }

    /// How many events the history of a place has had.
    pub fn events_ever(&self, place: usize) -> u64
        requires { place < length self.now.now.logs }
        ensures value { (l : Path × SiteLog) → slice_get self.now.now.logs place ≡ Some l → result ≡ events_ever l.1 }
        ensures few { result < 2 ^ 63 }
    {
        let log = self.log(place);
        log.gone() + log.len()
    }

    /// The state now owes its plan nothing, no two nodes of its root have one path, those that roles derive among them,
    /// what roles name are own nodes, the logs are those of the plan's histories, in their order, and the library is what the site's
    /// contracts make of the built-in one.
    pub fn sound_law(&self)
        ensures sound { IsSoundFor self.now.plan self.now.now }
        ensures differ { first_twice [] (paths self.now.now.tree) ≡ None }
        ensures histories { keys self.now.now.logs ≡ map (λ h. h.0) self.now.plan.histories }
        ensures apart { Apart (map (λ h. h.0) self.now.plan.histories) }
        ensures made { IsMade self.now.now }
    {
        let _ = &self.time;
    }

    /// What the step has changed so far, each as it was before, in order. `ChangesTell` says what each tells of the step.
    pub fn changes(&self) -> &[Change]
        ensures before { rewound result.now self.now.now ≡ self.now.before }
        ensures can { CanRewind result.now self.now.now }
        ensures told { ChangesTell self.now.plan result.now self.now.now }
        ensures rolled { roll self.now.before ≡ self.now.before }
        ensures sound { IsSoundFor self.now.plan self.now.before }
    {
        &self.found
    }

    /// The time: the moment of the last step, or of this one.
    pub fn time(&self) -> Moment
        ensures { result ≡ self.now.time }
    {
        self.time
    }

    /// Begins a step at a moment. Time never goes back: an earlier moment is that of the step before.
    pub fn begin(&mut self, moment: Moment)
        ensures { self.new ≡ record self.old { time = max self.old.time moment } }
    {
        self.time = later(self.time, moment);
    }

    /// Sets the slot of an own node, whose value is of its kind. Where the node is a contract of the site or a part of one, that
    /// contract is made anew, and those that stand on it. Want of memory takes back all that the step has changed.
    ///
    /// Source: oBIX 1.1, chapter 7 (Contracts).
    pub fn set_slot<L: Ledger>(
        &mut self,
        node: NodeId,
        slot: Slot,
        steps: &mut Steps<L>,
    ) -> Result<(), AllocError>
        requires node { IsNode node.number self.old.now.tree }
        requires within { node.number < parts self.old.now.tree }
        requires fits { (h : Head) → head_at node.number self.old.now.tree ≡ Some h → IsTrue (fits_slot h.kind slot) }
        ensures ok { OnOk result (self.new ≡ record self.old { now = with_slot_at node.number slot self.old.now }) }
        ensures err { OnErr result (self.new ≡ record self.old { now = self.new.now }) }
    {
        let written = self.own.written(self.alloc, &self.contents.ground, node)?;
        let Some(written) = written else {
            return self.set_alone(node, slot);
        };
        note_library(self.alloc, &mut self.found, &self.contents.ground)?;
        self.found.reserve(1)?;
        let old = self.contents.set(node, slot);
        self.found.push_reserved(Change::Slot { node, slot: old });
        let ground = &mut self.contents.ground;
        match renew(self.alloc, ground, &self.own, written.as_slice(), steps) {
            Ok(()) => Ok(()),
            Err(error) => {
                self.contents.take_all_back(&mut self.found);
                self.tally.total = self.tally.total_before;
                Err(error)
            }
        }
    }

    /// Sets the slot of a node that is in no contract. Want of memory leaves all as it was.
    fn set_alone(&mut self, node: NodeId, slot: Slot) -> Result<(), AllocError>
        requires node { IsNode node.number self.old.now.tree }
        requires within { node.number < parts self.old.now.tree }
        requires fits { (h : Head) → head_at node.number self.old.now.tree ≡ Some h → IsTrue (fits_slot h.kind slot) }
        requires alone { (p : Path) → place_of p (paths self.old.now.tree) ≡ Some node.number → is_in_contract p self.old.now.tree ≡ false }
        ensures ok { OnOk result (self.new ≡ record self.old { now = with_slot_at node.number slot self.old.now }) }
        ensures err { OnErr result (self.new ≡ self.old) }
    {
        self.found.reserve(1)?;
        let before = self.contents.set(node, slot);
        self.found
            .push_reserved(Change::Slot { node, slot: before });
        Ok(())
    }

    /// Puts a record of a value, at the time, last in the log of a place. Want of memory leaves all as it was.
    pub fn record(&mut self, place: usize, kind: Kind, slot: Slot) -> Result<(), AllocError>
        requires there { place < length self.old.now.logs }
        requires counted { (l : Path × SiteLog) → slice_get self.old.now.logs place ≡ Some l → events_ever l.1 + 1 < 2 ^ 63 }
        requires is_record { IsRecord (record { time = moment_instant self.old.time; kind = kind; slot = slot }) }
        ensures ok { OnOk result (self.new ≡ record self.old { now = record self.old.now { logs = with_log (with_record (record { time = moment_instant self.old.time; kind = kind; slot = slot })) place self.old.now.logs } }) }
        ensures err { OnErr result (self.new ≡ self.old) }
    {
        self.found.reserve(1)?;
        let time = self.time.abstime();
        let len = self.contents.record(place, Record { time, kind, slot })?;
        self.tally.add(place);
        self.found.push_reserved(Change::Records { place, len });
        Ok(())
    }

    /// Lets a rule act on a value of its source, at the time. Want of memory leaves all as it was.
    pub fn take_value(&mut self, rule: u64, value: Option<Num>) -> Result<(), AllocError>
        requires { Takes (numbered_from 0 self.old.plan.rules) rule value }
        ensures ok { OnOk result (self.new ≡ record self.old { now = with_board self.old.now (on_value (board self.old.plan self.old.now) rule value self.old.time).0 }) }
        ensures err { OnErr result (self.new ≡ self.old) }
    {
        self.found.reserve(1)?;
        let status = self.contents.board.status_of(rule);
        let is_event = self.contents.take_value(rule, value, self.time)?;
        if is_event {
            self.found.push_reserved(Change::Event { rule, status });
        }
        Ok(())
    }

    /// Whether a value of the source of a rule would be an alarm event.
    pub fn would_turn(&self, rule: u64, value: &Option<Num>) -> bool
        requires { Takes (numbered_from 0 self.now.plan.rules) rule value.now }
        ensures { HasEvents result self.now.now (on_value (board self.now.plan self.now.now) rule value.now self.now.time).0 }
    {
        self.contents.board.would_turn(rule, value)
    }

    /// Whether an acknowledgement of an alarm would be an alarm event.
    pub fn would_ack(&self, number: u64) -> bool
        ensures { (user : Option (List ℕ)) → HasEvents result self.now.now (on_ack (board self.now.plan self.now.now) number user self.now.time).0 }
    {
        self.contents.board.would_ack(number)
    }

    /// Acknowledges an alarm for a user, if one is named, at the time. Want of memory leaves all as it was.
    pub fn acknowledge(&mut self, number: u64, user: Option<Text>) -> Result<(), AllocError>
        ensures ok { OnOk result (self.new ≡ record self.old { now = with_board self.old.now (on_ack (board self.old.plan self.old.now) number user self.old.time).0 }) }
        ensures err { OnErr result (self.new ≡ self.old) }
    {
        self.found.reserve(1)?;
        let rule = self.contents.rule_of_alarm(number);
        let status = self.contents.board.status_of(rule);
        let is_event = self.contents.acknowledge(number, user, self.time)?;
        if is_event {
            self.found.push_reserved(Change::Event { rule, status });
        }
        Ok(())
    }

    /// Whether so many more records and alarm events would be more than 1,000,000 stored ones.
    pub fn is_full(&self, more: u64) -> bool
        ensures { result ≡ nat_lt 1_000_000 (stored self.now.now.logs (board self.now.plan self.now.now) + more) }
    {
        let events = self.contents.board.events(0).len() as u64;
        let stored = self.tally.total.saturating_add(events);
        stored.saturating_add(more) > 1_000_000
    }

    /// How many records the history of a place keeps, if not all.
    pub fn capacity(&self, place: usize) -> Option<u64>
        requires { place < length self.now.now.logs }
        ensures { (l : Path × SiteLog) → slice_get self.now.now.logs place ≡ Some l → result ≡ l.1.capacity }
    {
        self.tally.capacities[place]
    }

    /// How many of the histories of a node keep all their records: so many more a value of it stores.
    pub fn growing(&self, source: &Text) -> u64
        ensures { result ≡ growing_in source.now self.now.plan.histories (capacities_of self.now.now.logs) }
    {
        count_at(&self.tally.growing, source)
    }

    /// Puts a record of a copy of a value last in the log of a place. Want of memory leaves all as it was.
    fn record_copy(&mut self, place: usize, kind: Kind, slot: &Slot) -> Result<(), AllocError>
        requires there { place < length self.old.now.logs }
        requires counted { (l : Path × SiteLog) → slice_get self.old.now.logs place ≡ Some l → events_ever l.1 + 1 < 2 ^ 63 }
        requires is_record { IsRecord (record { time = moment_instant self.old.time; kind = kind; slot = slot.now }) }
        ensures ok { OnOk result (self.new ≡ record self.old { now = record self.old.now { logs = with_log (with_record (record { time = moment_instant self.old.time; kind = kind; slot = slot.now })) place self.old.now.logs } }) }
        ensures err { OnErr result (self.new ≡ self.old) }
    {
        let copy = slot.copy()?;
        self.record(place, kind, copy)
    }

    /// The places of the histories that record a node, in order.
    pub fn recorders(&self, source: &Text) -> &[usize]
        ensures { result.now ≡ recorders_of self.now.plan source.now }
    {
        self.contents.roles.recorders(source)
    }

    /// The number of histories.
    pub fn histories(&self) -> usize
        ensures { result ≡ length self.now.now.logs }
    {
        self.contents.logs.len()
    }

    /// Puts a record of a value behind each history of a node. Want of memory leaves all but the state now as it was.
    pub fn record_all(&mut self, source: &Text, kind: Kind, slot: &Slot) -> Result<(), AllocError>
        requires { (place : ℕ) → TakesRecord self.old.plan (record { time = moment_instant self.old.time; kind = kind; slot = slot.now }) source.now self.old.now.logs place }
        ensures ok { OnOk result (self.new ≡ record self.old { now = record self.old.now { logs = recorded self.old.plan self.old.time source.now kind slot.now self.old.now.logs } }) }
        ensures err { OnErr result (self.new ≡ record self.old { now = self.new.now }) }
    {
        self.sound_law();
        let count = self.recorders(source).len();
        for next in 0..count {
            let place = self.recorders(source)[next];
            self.record_copy(place, kind, slot)?;
        }
        Ok(())
    }

    /// The place of the rule of a node, if it has one.
    pub fn rule_of(&self, source: &Text) -> Option<u64>
        ensures { result ≡ rule_of self.now.plan source.now }
    {
        match self.contents.roles.rule_of(source) {
            Some(place) => Some(place as u64),
            None => None,
        }
    }

    /// Lets the rule of a node act on a value of it. Want of memory leaves all as it was.
    pub fn act(&mut self, source: &Text, slot: &Slot) -> Result<(), AllocError>
        requires { TakesIfRule (numbered_from 0 self.old.plan.rules) (rule_of self.old.plan source.now) slot.now }
        ensures ok { OnOk result (self.new ≡ record self.old { now = with_board self.old.now (board_after self.old.plan self.old.now self.old.time source.now slot.now) }) }
        ensures err { OnErr result (self.new ≡ self.old) }
    {
        match self.rule_of(source) {
            Some(rule) => self.take_value(rule, number_in(slot)),
            None => Ok(()),
        }
    }

    /// Whether a value of a node would be an alarm event.
    pub fn would_act(&self, source: &Text, slot: &Slot) -> bool
        requires { TakesIfRule (numbered_from 0 self.now.plan.rules) (rule_of self.now.plan source.now) slot.now }
        ensures { HasEvents result self.now.now (board_after self.now.plan self.now.now self.now.time source.now slot.now) }
    {
        match self.rule_of(source) {
            Some(rule) => self.would_turn(rule, &number_in(slot)),
            None => false,
        }
    }

    /// Takes back all that the step has changed. It takes no memory.
    pub fn undo(&mut self)
        ensures { self.new ≡ record self.old { now = self.old.before; time = self.old.since } }
    {
        self.contents.take_all_back(&mut self.found);
        self.time = self.since;
        self.tally.total = self.tally.total_before;
    }

    /// Counts one more step, and stamps each of these nodes and all that is round it with its number. It takes no memory.
    ///
    /// Source: oBIX 1.1, chapter 12 (Watch.pollChanges); that a number stands for a flag is this profile's own.
    pub fn stamp(&mut self, changed: &[NodeId])
        requires few { self.old.steps < 2 ^ 64 - 1 }
        requires within { All (λ node. node.number < parts self.old.now.tree) changed.now }
        ensures { self.new ≡ stamped_by (map (λ node. node.number) changed.now) self.old }
    {
        self.contents.stamp(changed);
    }

    /// How many steps of the own objects were counted.
    pub fn steps(&self) -> u64
        ensures { result ≡ self.now.steps }
    {
        self.contents.ground.tree().steps()
    }

    /// Counts the steps of the own objects from 1 again: every stamp is 1, and so is the number of steps. It takes no memory.
    pub fn renumber(&mut self)
        ensures { self.new ≡ record self.old { stamps = replicate (parts self.old.now.tree) 1; steps = 1 } }
    {
        self.contents.renumber();
    }

    /// Ends the step: each history drops its oldest records, down to its capacity, and what the step has changed
    /// stays. It takes no memory, and looks at those histories alone that have a new record.
    pub fn commit(&mut self)
        ensures { self.new ≡ record self.old { now = roll self.old.now; since = self.old.time; before = roll self.old.now } }
    {
        self.contents.settle(&self.found);
        self.found.clear();
        self.since = self.time;
        self.tally.total_before = self.tally.total;
    }
}
