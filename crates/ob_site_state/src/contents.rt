//! What changes of a site: its library, its own objects, the logs of its histories and its alarms; and the roles of its
//! plan, by which it is looked up.
ghost use Rattle.std.specs.Prelude.{◌≡◌, ℕ, All, ◌-◌, ◌<◌, ◌≤◌, ◌+◌, ◌^◌, [], Bool, true, false, map, length, replicate, slice_get, Some, option_map, IsTrue, IfOk, OnOk, OnErr};
ghost use Rattle.ob_object.specs.declared.head.Head.{Head};
ghost use Rattle.ob_object.specs.Fits.{fits_slot};
ghost use Rattle.ob_object.specs.Object.{parts};
ghost use Rattle.ob_tree.specs.Laid.{head_at, changed};
ghost use Rattle.ob_alarms.specs.Limits.{Takes};
ghost use Rattle.ob_alarms.specs.Changes.{alarm_of, on_value, on_ack};
ghost use Rattle.ob_alarms.specs.declared.alarm.Alarm.{Alarm};
ghost use Rattle.ob_history.specs.Records.{MayFollow, IsRecord};
ghost use Rattle.ob_site_rules.specs.Build.{Path};
ghost use Rattle.ob_site_rules.specs.State.{Log as SiteLog, with_board};
ghost use Rattle.ob_site_rules.specs.Writes.{events_ever, with_record};
ghost use Rattle.ob_site_state.specs.Changes.{undone, rewound, settled_by, settled_all, with_log, CanUndo, CanRewind, IsPlaced, AddsEvent, is_turn, is_done};
ghost use Rattle.ob_site_state.specs.Contents.{state_in, SameRest};
ghost use Rattle.ob_site_state.specs.Stamping.{after_step};

use crate::RoleIndex;
use crate::change::Change;
use crate::ending::end_step;
use crate::logs::{cut_at, record_at, settle_at};
use ob_alarms::{AckResult, Alarms, Num, Turned};
use ob_ground::Ground;
use ob_history::{Log, Record};
use ob_object::Slot;
use ob_times::Moment;
use ob_tree::NodeId;
use ob_values::Text;
use std::alloc::AllocError;

/// What changes of a site: its ground, which has the library and the own objects, the log of each history under its path, and
/// the alarms. The roles are those of its plan, for look-ups; they never change.
pub struct Contents {
    pub ground: Ground,
    pub logs: Vec<(Text, Log)>,
    pub board: Alarms,
    pub roles: RoleIndex,
}

impl Drop for Contents {
    // By one call for each part, so that to drop it is one call to whoever may have to.
    fn drop(self) {
        let Contents {
            ground,
            logs,
            board,
            roles,
        } = self;
        drop(ground);
        drop(logs);
        drop(board);
        drop(roles);
    }
}

/// Whether a value turned an alarm.
fn is_turn(turned: Turned) -> bool
    ensures { result ≡ is_turn turned }
{
    match turned {
        Turned::Nothing => false,
        Turned::Raised { number: _ } | Turned::Normal { number: _ } => true,
    }
}

/// Whether an acknowledgement is noted.
fn is_done(answer: &AckResult) -> bool
    ensures { result ≡ is_done answer.now }
{
    match answer {
        AckResult::Done => true,
        AckResult::Already { user: _ } | AckResult::NoSuch { user: _ } => false,
    }
}

impl Contents {
    /// Sets the slot of an own object, and gives the old one.
    pub(crate) fn set(&mut self, node: NodeId, slot: Slot) -> Slot
        requires within { node.number < parts self.old.ground.tree.root }
        requires fits { (h : Head) → head_at node.number self.old.ground.tree.root ≡ Some h → IsTrue (fits_slot h.kind slot) }
        ensures old { Some result ≡ option_map (λ h. h.slot) (head_at node.number self.old.ground.tree.root) }
        ensures new { state_in self.new ≡ record (state_in self.old) { tree = changed (λ h. record h { slot = slot }) node.number self.old.ground.tree.root } }
        ensures rest { SameRest self.old self.new }
    {
        self.ground.set(node, slot)
    }

    /// Puts a record last in the log of a place, and gives how many it kept before.
    pub(crate) fn record(&mut self, place: usize, entry: Record) -> Result<u64, AllocError>
        requires there { place < length (state_in self.old).logs }
        requires counted { (l : Path × SiteLog) → slice_get (state_in self.old).logs place ≡ Some l → events_ever l.1 + 1 < 2 ^ 63 }
        requires in_order { (l : Path × SiteLog) → slice_get (state_in self.old).logs place ≡ Some l → MayFollow l.1.kept entry }
        requires is_record { IsRecord entry }
        ensures ok { OnOk result (state_in self.new ≡ record (state_in self.old) { logs = with_log (with_record entry) place (state_in self.old).logs }) }
        ensures len { IfOk result (λ len. Some len ≡ option_map (λ l. length l.1.kept) (slice_get (state_in self.old).logs place)) }
        ensures err { OnErr result (state_in self.new ≡ state_in self.old) }
        ensures rest { SameRest self.old self.new }
    {
        record_at(self.logs.as_mut_slice(), place, entry)
    }

    /// The rule of the alarm of a number, or 0 where there is none.
    pub(crate) fn rule_of_alarm(&self, number: u64) -> u64
        ensures { (a : Alarm) → alarm_of number self.now.board.alarms ≡ Some a → result ≡ a.rule }
    {
        match self.board.alarm(number) {
            Some(alarm) => alarm.rule,
            None => 0,
        }
    }

    /// Lets a rule act on a value of its source, and tells whether that is an event.
    pub(crate) fn take_value(
        &mut self,
        rule: u64,
        value: Option<Num>,
        now: Moment,
    ) -> Result<bool, AllocError>
        requires { Takes self.old.board.rules rule value }
        ensures ok { OnOk result (state_in self.new ≡ with_board (state_in self.old) (on_value self.old.board rule value now).0) }
        ensures event { IfOk result (λ is. AddsEvent is (state_in self.old) (state_in self.new)) }
        ensures err { OnErr result (state_in self.new ≡ state_in self.old) }
        ensures rest { SameRest self.old self.new }
    {
        self.board.reserve(1)?;
        let turned = self.board.on_value(rule, value, now);
        Ok(is_turn(turned))
    }

    /// Acknowledges an alarm, and tells whether that is an event.
    pub(crate) fn acknowledge(
        &mut self,
        number: u64,
        user: Option<Text>,
        now: Moment,
    ) -> Result<bool, AllocError>
        ensures ok { OnOk result (state_in self.new ≡ with_board (state_in self.old) (on_ack self.old.board number user now).0) }
        ensures event { IfOk result (λ is. AddsEvent is (state_in self.old) (state_in self.new)) }
        ensures err { OnErr result (state_in self.new ≡ state_in self.old) }
        ensures rest { SameRest self.old self.new }
    {
        self.board.reserve(1)?;
        let answer = self.board.ack(number, user, now);
        Ok(is_done(&answer))
    }

    /// Takes a change back. It takes no memory.
    pub(crate) fn take_back(&mut self, change: Change)
        requires { CanUndo change (state_in self.old) }
        ensures new { state_in self.new ≡ undone change (state_in self.old) }
        ensures rest { SameRest self.old self.new }
    {
        match change {
            Change::Slot { node, slot } => {
                let _new = self.ground.set(node, slot);
            }
            Change::Records { place, len } => cut_at(self.logs.as_mut_slice(), place, len),
            Change::Event { rule: _, status: _ } => self.board.undo(),
            Change::Contracts { told } => {
                let _new = self.ground.replace(told);
            }
        }
    }

    /// Takes changes back, the last one first. It takes no memory.
    pub(crate) fn take_all_back(&mut self, found: &mut Vec<Change>)
        requires { CanRewind found.old.items (state_in self.old) }
        ensures new { state_in self.new ≡ rewound found.old.items (state_in self.old) }
        ensures none { found.new.items ≡ [] }
        ensures rest { SameRest self.old self.new }
    {
        while let Some(change) = found.pop() {
            self.take_back(change);
        }
    }

    /// The history that a change gave a record, if it did, drops its oldest ones, down to its capacity.
    fn settle_by(&mut self, change: &Change)
        requires { IsPlaced (length (state_in self.old).logs) change.now }
        ensures new { state_in self.new ≡ record (state_in self.old) { logs = settled_by change.now (state_in self.old).logs } }
        ensures rest { SameRest self.old self.new }
    {
        match change {
            Change::Records { place, len: _ } => settle_at(self.logs.as_mut_slice(), *place),
            Change::Slot { node: _, slot: _ }
            | Change::Event { rule: _, status: _ }
            | Change::Contracts { told: _ } => {}
        }
    }

    /// Each history that a change gave a record drops its oldest ones, down to its capacity. It takes no memory.
    pub(crate) fn settle(&mut self, found: &[Change])
        requires { CanRewind found.now (state_in self.old) }
        ensures new { state_in self.new ≡ record (state_in self.old) { logs = settled_all found.now (state_in self.old).logs } }
        ensures rest { SameRest self.old self.new }
    {
        for change in found {
            self.settle_by(change);
        }
    }

    /// Counts one more step of the tree, and stamps each of these nodes and all that is round it with its number.
    pub(crate) fn stamp(&mut self, changed: &[NodeId])
        requires few { self.old.ground.tree.steps < 2 ^ 64 - 1 }
        requires within { All (λ node. node.number < parts self.old.ground.tree.root) changed.now }
        ensures same { state_in self.new ≡ state_in self.old }
        ensures tree { self.new.ground.tree ≡ after_step (map (λ node. node.number) changed.now) self.old.ground.tree }
        ensures root { self.new.board.root ≡ self.old.board.root }
        ensures rules { self.new.board.rules ≡ self.old.board.rules }
        ensures roles { self.new.roles ≡ self.old.roles }
    {
        end_step(&mut self.ground, changed);
    }

    /// Counts the steps of the tree from 1 again: all stamps and the number of steps are 1.
    pub fn renumber(&mut self)
        ensures same { state_in self.new ≡ state_in self.old }
        ensures tree { self.new.ground.tree ≡ record self.old.ground.tree { stamps = replicate (parts self.old.ground.tree.root) 1; steps = 1 } }
        ensures root { self.new.board.root ≡ self.old.board.root }
        ensures rules { self.new.board.rules ≡ self.old.board.rules }
        ensures roles { self.new.roles ≡ self.old.roles }
    {
        self.ground.renumber();
    }
}
