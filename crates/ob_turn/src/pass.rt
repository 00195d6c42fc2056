ghost use Rattle.std.specs.Prelude.{◌≡◌, ◌+◌, ◌-◌, ◌<◌, ◌≤◌, ◌++◌, ◌⊎◌, take, drop, length, false, []};
ghost use Rattle.ob_turn.specs.Callers.{HasSeen, own, calls_of};
ghost use Rattle.ob_turn.specs.Standing.{mine};
ghost use Rattle.ob_turn.specs.Turn.{known};

use crate::desk::Desk;
use crate::known::Known;
use atomic_table::Seat;
use ob_machine::Machine;
use std::marker::{Brand, Model};

/// The right to call one desk, in shares. A share is a caller's number, and the pass calls under its
/// first. Contracts see its numbers, what it has seen of the one history, and how long that was when
/// the pass was made.
pub struct Pass<M: Machine> {
    pub(crate) seat: Seat<Option<M>, Known<M::Request, M::Reply>>,
    pub(crate) shares: u64,
}

impl<M: Machine> Model for Pass<M> {
    ghost use Rattle.std.specs.Prelude.{◌≡◌, ◌<◌, ◌≤◌, [], false, length};
    ghost use Rattle.ob_turn.specs.Standing.{Standing};

    ghost Value = { Standing M.Request M.Reply };

    ghost view = { λ p. record { table = p.seat.table_id; numbers = p.seat.me.0.numbers; since = p.seat.me.0.since; seen = p.seat.me.0.seen } };

    ghost invariant = { λ p. (p.seat.me.1 ≡ []) × (p.seat.me.0.has_turn ≡ false) × (p.seat.me.0.pasts ≡ []) × (p.shares ≡ length p.seat.me.0.numbers) × (0 < p.shares) × (p.seat.me.0.since ≤ length p.seat.me.0.seen) };
}

impl<M: Machine> Pass<M> {
    /// How many shares it has: at least 1, and 4,294,967,296 where it has all.
    pub fn shares(&self) -> u64
        ensures shares { result ≡ length self.now.numbers }
        ensures some { 0 < result }
    {
        self.shares
    }

    // Its seat, and how many numbers it has.
    pub(crate) fn into_seat(self) -> (Seat<Option<M>, Known<M::Request, M::Reply>>, u64)
        ensures seat { (result.0.table_id ≡ self.table) × (result.0.me ≡ (known self.numbers self.since self.seen false [], [])) }
        ensures shares { result.1 ≡ length self.numbers }
        ensures some { 0 < length self.numbers }
        ensures since { self.since ≤ length self.seen }
    {
        let Self { seat, shares } = self;
        (seat, shares)
    }

    /// A new pass with the last `shares` of this one's, which has seen what this one has and has made
    /// no call.
    pub fn split(&mut self, desk: &Desk<M>, shares: u64) -> Pass<M>
        requires of { self.old.table ≡ desk.now.table }
        requires some { 0 < shares }
        requires left { shares < length self.old.numbers }
        ensures kept { self.new ≡ record self.old { numbers = take (length self.old.numbers - shares) self.old.numbers } }
        ensures given { result ≡ record self.old { numbers = drop (length self.old.numbers - shares) self.old.numbers; since = length self.old.seen } }
        ensures calls { (mine self.new ≡ mine self.old) × (mine result ≡ []) }
        ensures counts { (length self.new.numbers + shares ≡ length self.old.numbers) × (length result.numbers ≡ shares) }
    {
        let kept = self.shares - shares;
        let seat = desk.cut::<Brand>(&mut self.seat, kept);
        self.shares = kept;
        Pass { seat, shares }
    }

    /// Takes in the shares of another pass of the same desk, and has then seen what both had: of the
    /// two histories one begins the other.
    pub fn join(&mut self, desk: &Desk<M>, other: Pass<M>)
        requires of { self.old.table ≡ desk.now.table }
        requires other { other.table ≡ desk.now.table }
        ensures same { (self.new.table ≡ self.old.table) × (self.new.since ≡ self.old.since) × (self.new.numbers ≡ self.old.numbers ++ other.numbers) }
        ensures count { length self.new.numbers ≡ length self.old.numbers + length other.numbers }
        ensures longer { (self.new.seen ≡ self.old.seen) ⊎ (self.new.seen ≡ other.seen) }
        ensures own { HasSeen self.old.numbers self.old.seen self.new.seen }
        ensures others { HasSeen other.numbers other.seen self.new.seen }
        ensures calls { mine self.new ≡ mine self.old }
        ensures theirs { calls_of (own other.numbers) (drop other.since self.new.seen) ≡ mine other }
    {
        let (seat, shares) = other.into_seat();
        desk.merge(&mut self.seat, seat);
        self.shares += shares;
    }
}

impl<M: Machine> Drop for Pass<M> {
    fn drop(self) {
        let Self { seat: _, shares: _ } = self;
    }
}
