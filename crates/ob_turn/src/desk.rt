ghost use Rattle.std.specs.Prelude.{◌≡◌, ◌+◌, ◌<◌, ◌++◌, ◌∷◌, [], true, false, length, IfOk, IfErr, Some, MatchBool};
ghost use Rattle.ob_turn.specs.Callers.{numbers_below, own, Strangers};
ghost use Rattle.ob_machine.specs.History.{entry, left_by, IsAnswer, after, IsLegal};
ghost use Rattle.ob_times.specs.Times.{IsMoment};
ghost use Rattle.ob_turn.specs.Standing.{mine};
ghost use Rattle.ob_turn.specs.Turn.{known, Took, kept_view, cut_view, both_views, longer, Saw};

use crate::known::Known;
use crate::pass::Pass;
use crate::turn::{Call, Cut, End, Keeps, Look, Merge, Take, Turn};
use atomic_table::{Refused, Seat, Table};
use ob_machine::{Answer, Machine};
use ob_times::Moment;
use std::alloc::{AllocError, AllocFailed, Global};
use std::hint::spin_loop;
use std::marker::{Brand, Model};
use std::snapshot::Snapshot;
use std::sync::Wait;

// The turn's word: no seat has the turn, one has it, or one has it and another may sleep until it ends.
const FREE: u64 = 0;

const TAKEN: u64 = 1;

const AWAITED: u64 = 2;

// How often a waiting caller looks at the word before it sleeps: for about as long as it takes to sleep and to be woken.
const LOOKS: u32 = 10_000;

/// One machine, which takes one call at a time. It belongs to no thread: callers share it by `&`, and
/// each calls under a pass of its own.
#[derive(Drop)]
pub struct Desk<M: Machine> {
    table: Table<Option<M>, Known<M::Request, M::Reply>, Snapshot<M>, Turn, Global>,
}

impl<M: Machine> Model for Desk<M> {
    ghost use Rattle.std.specs.Prelude.{◌≡◌};
    ghost use Rattle.ob_turn.specs.Standing.{Opened};

    ghost Value = { Opened M };

    ghost view = { λ d. record { table = d.table.shared.table_id; opening = d.table.shared.key.value } };

    ghost invariant = { λ d. (d.table.shared.table_id.words ≡ 1) × (d.table.shared.table_id.slots ≡ 1) };
}

impl<M: Machine> Desk<M> {
    /// A desk with this machine, and the pass that has all 4,294,967,296 shares. Where memory is
    /// wanting, the machine comes back as it was.
    pub fn new(alloc: Global, machine: M) -> Result<(Desk<M>, Pass<M>), (M, AllocError)>
        ensures opening { IfOk result (λ made. made.0.opening ≡ machine) }
        ensures pass { IfOk result (λ made. made.1 ≡ record { table = made.0.table; numbers = numbers_below 4294967296; since = 0; seen = [] }) }
        ensures count { IfOk result (λ made. length made.1.numbers ≡ 4294967296) }
        ensures refused { IfErr result (λ refused. refused.0 ≡ machine) }
    {
        let opening = Snapshot::of(&machine);
        let mut slots = Vec::new(alloc);
        if let Err(failed) = slots.push(Some(machine)) {
            let AllocFailed { value } = failed;
            let Some(machine) = value else { unreachable!() };
            slots.destroy_empty();
            return Err((machine, AllocError));
        }
        match Table::new(alloc, &[FREE], slots, &opening) {
            Ok((table, seat)) => Ok((
                Desk { table },
                Pass {
                    seat,
                    shares: 1 << 32,
                },
            )),
            Err(Refused { mut slots }) => {
                let Some(Some(machine)) = slots.pop() else {
                    unreachable!()
                };
                slots.destroy_empty();
                Err((machine, AllocError))
            }
        }
    }

    // Takes the turn, and the machine with it, if no seat has it.
    fn try_turn<C: Call<M, M::Request, M::Reply>>(
        &self,
        seat: &mut Seat<Option<M>, Known<M::Request, M::Reply>>,
    ) -> bool
        requires of { seat.old.table_id ≡ self.now.table }
        requires opening { C.opening ≡ Some self.now.opening }
        requires alone { seat.old.me.0.pasts ≡ [] }
        requires some { 0 < length seat.old.me.0.numbers }
        ensures same { (seat.new.table_id ≡ seat.old.table_id) × (seat.new.id ≡ seat.old.id) }
        ensures took { MatchBool result (Took M.act self.now.opening seat.old.me seat.new.me) (seat.new.me ≡ seat.old.me) }
    {
        self.table
            .shared
            .compare_exchange::<Take<C>>(seat, 0, FREE, TAKEN)
            == FREE
    }

    // The same, and whoever has the turn will know that someone may sleep.
    fn await_turn<C: Call<M, M::Request, M::Reply>>(
        &self,
        seat: &mut Seat<Option<M>, Known<M::Request, M::Reply>>,
    ) -> bool
        requires of { seat.old.table_id ≡ self.now.table }
        requires opening { C.opening ≡ Some self.now.opening }
        requires alone { seat.old.me.0.pasts ≡ [] }
        requires some { 0 < length seat.old.me.0.numbers }
        ensures same { (seat.new.table_id ≡ seat.old.table_id) × (seat.new.id ≡ seat.old.id) }
        ensures took { MatchBool result (Took M.act self.now.opening seat.old.me seat.new.me) (seat.new.me ≡ seat.old.me) }
    {
        self.table.shared.swap::<Take<C>>(seat, 0, AWAITED) == FREE
    }

    // Looks for a moment whether the turn ends, as long as no one sleeps.
    fn look_out(&self) {
        for _ in 0..LOOKS {
            if self.table.shared.peek(0) != TAKEN {
                return;
            }
            spin_loop();
        }
    }

    // Waits until the seat has the turn, and the machine with it.
    fn take_turn<C: Call<M, M::Request, M::Reply>, R: Wait>(
        &self,
        rt: &R,
        seat: &mut Seat<Option<M>, Known<M::Request, M::Reply>>,
    )
        requires of { seat.old.table_id ≡ self.now.table }
        requires opening { C.opening ≡ Some self.now.opening }
        requires alone { seat.old.me.0.pasts ≡ [] }
        requires some { 0 < length seat.old.me.0.numbers }
        ensures same { (seat.new.table_id ≡ seat.old.table_id) × (seat.new.id ≡ seat.old.id) }
        ensures took { Took M.act self.now.opening seat.old.me seat.new.me }
    {
        if self.try_turn::<C>(seat) {
            return;
        }
        self.look_out();
        if self.try_turn::<C>(seat) {
            return;
        }
        for _ in rt.forever() {
            if self.await_turn::<C>(seat) {
                return;
            }
            self.table.shared.park(rt, 0, AWAITED as u32);
            self.look_out();
        }
        unreachable!()
    }

    // Has the machine do one request where it lies, while the seat has the turn.
    fn step(
        &self,
        seat: &mut Seat<Option<M>, Known<M::Request, M::Reply>>,
        request: &M::Request,
        moment: Moment,
    ) -> Answer<M::Reply>
        requires of { seat.old.table_id ≡ self.now.table }
        requires machine { seat.old.me.1 ≡ (0, Some (after M.act self.now.opening seat.old.me.0.seen)) ∷ [] }
        ensures same { (seat.new.table_id ≡ seat.old.table_id) × (seat.new.id ≡ seat.old.id) × (seat.new.me.0 ≡ seat.old.me.0) }
        ensures right { IsAnswer M.act (after M.act self.now.opening seat.old.me.0.seen) request.now moment result }
        ensures left { seat.new.me.1 ≡ (0, Some (left_by M.act (after M.act self.now.opening seat.old.me.0.seen) request.now moment result)) ∷ [] }
    {
        let slot = seat.slot_mut(&self.table.shared, 0);
        let Some(machine) = slot else { unreachable!() };
        match machine.step(request, moment) {
            Ok(reply) => Answer::Done(reply),
            Err(_) => Answer::NoMemory,
        }
    }

    // Ends the turn after one call.
    fn end_turn<C: Call<M, M::Request, M::Reply>>(
        &self,
        seat: &mut Seat<Option<M>, Known<M::Request, M::Reply>>,
        request: &M::Request,
        moment: Moment,
        answer: &Answer<M::Reply>,
    )
        requires of { seat.old.table_id ≡ self.now.table }
        requires opening { C.opening ≡ Some self.now.opening }
        requires alone { seat.old.me.0.pasts ≡ [] }
        requires some { 0 < length seat.old.me.0.numbers }
        requires turn { seat.old.me.0.has_turn ≡ true }
        requires adds { C.entries ≡ entry (own seat.old.me.0.numbers) request.now moment answer.now ∷ [] }
        requires moment { IsMoment moment }
        requires right { IsAnswer M.act (after M.act self.now.opening seat.old.me.0.seen) request.now moment answer.now }
        requires machine { seat.old.me.1 ≡ (0, Some (left_by M.act (after M.act self.now.opening seat.old.me.0.seen) request.now moment answer.now)) ∷ [] }
        ensures same { (seat.new.table_id ≡ seat.old.table_id) × (seat.new.id ≡ seat.old.id) }
        ensures legal { IsLegal M.act self.now.opening (seat.old.me.0.seen ++ entry (own seat.old.me.0.numbers) request.now moment answer.now ∷ []) }
        ensures ended { seat.new.me ≡ (known seat.old.me.0.numbers seat.old.me.0.since (seat.old.me.0.seen ++ entry (own seat.old.me.0.numbers) request.now moment answer.now ∷ []) false seat.old.me.0.pasts, []) }
    {
        if self.table.shared.swap::<End<C>>(seat, 0, FREE) == AWAITED {
            self.table.shared.wake_one(0);
        }
    }

    // A new seat with all numbers but the first `kept`.
    pub(crate) fn cut<C: Keeps>(
        &self,
        seat: &mut Seat<Option<M>, Known<M::Request, M::Reply>>,
        kept: u64,
    ) -> Seat<Option<M>, Known<M::Request, M::Reply>>
        requires of { seat.old.table_id ≡ self.now.table }
        requires kept { C.kept ≡ kept }
        requires quiet { (seat.old.me.0.has_turn ≡ false) × (seat.old.me.0.pasts ≡ []) }
        ensures same { (seat.new.table_id ≡ seat.old.table_id) × (seat.new.id ≡ seat.old.id) × (result.table_id ≡ seat.old.table_id) }
        ensures left { seat.new.me ≡ (kept_view kept seat.old.me.0, seat.old.me.1) }
        ensures right { result.me ≡ (cut_view kept seat.old.me.0, []) }
    {
        self.table.shared.split_seat::<Cut<C>>(seat)
    }

    // Puts the numbers of two seats together, and looks which history is the longer.
    pub(crate) fn merge(
        &self,
        seat: &mut Seat<Option<M>, Known<M::Request, M::Reply>>,
        other: Seat<Option<M>, Known<M::Request, M::Reply>>,
    )
        requires of { (seat.old.table_id ≡ self.now.table) × (other.table_id ≡ self.now.table) }
        requires quiet { (seat.old.me.0.has_turn ≡ false) × (seat.old.me.0.pasts ≡ []) }
        requires other { (other.me.0.has_turn ≡ false) × (other.me.0.pasts ≡ []) × (other.me.1 ≡ []) }
        ensures same { (seat.new.table_id ≡ seat.old.table_id) × (seat.new.id ≡ seat.old.id) }
        ensures view { seat.new.me ≡ (known (seat.old.me.0.numbers ++ other.me.0.numbers) seat.old.me.0.since (longer seat.old.me.0.seen other.me.0.seen) seat.old.me.0.has_turn [], seat.old.me.1) }
        ensures saw { Saw (both_views seat.old.me.0 other.me.0) }
    {
        self.table.shared.join_seat::<Merge>(seat, other);
        self.table.shared.load::<Look>(seat, 0);
    }

    /// Waits for a turn, and has the machine do one request at this moment. The answer is the
    /// machine's reply, or `NoMemory`, and then the machine is as it was.
    ///
    /// The history that the pass has seen afterwards is all that it had seen, calls under other
    /// passes, and this one call. If the call returns, its promise holds; that it returns is not said.
    pub fn ask<R: Wait>(
        &self,
        rt: &R,
        pass: &mut Pass<M>,
        request: &M::Request,
        moment: Moment,
    ) -> Answer<M::Reply>
        requires { pass.old.table ≡ self.now.table }
        ensures same { pass.new ≡ record pass.old { seen = pass.new.seen } }
        ensures seen { (between : _) × Strangers pass.old.numbers between × (pass.new.seen ≡ (pass.old.seen ++ between) ++ entry (own pass.old.numbers) request.now moment result ∷ []) }
        ensures legal { IsLegal M.act self.now.opening pass.new.seen }
        ensures calls { mine pass.new ≡ mine pass.old ++ entry (own pass.old.numbers) request.now moment result ∷ [] }
    {
        self.take_turn::<Brand, R>(rt, &mut pass.seat);
        let answer = self.step(&mut pass.seat, request, moment);
        self.end_turn::<Brand>(&mut pass.seat, request, moment, &answer);
        answer
    }

    /// Ends the desk, and gives the machine back after all calls. The pass has to have every share.
    pub fn close(self, pass: Pass<M>) -> M
        requires of { pass.table ≡ self.table }
        requires all { length pass.numbers ≡ 4294967296 }
        ensures { result ≡ after M.act self.opening pass.seen }
    {
        let Desk { table } = self;
        let (seat, _) = pass.into_seat();
        let mut closed = table.close_with(seat);
        let Some(machine) = closed.take(0) else {
            unreachable!()
        };
        closed.free();
        machine
    }
}
