//! A dialogue on one link.
ghost use Rattle.std.specs.Prelude.{◌≡◌, ◌≢◌, ◌⊎◌, ◌≤◌, Ok, false, nat_lt};
ghost use Rattle.ob_io.specs.Faults.{Rose};
ghost use Rattle.ob_io.specs.Links.{inlet};
ghost use Rattle.ob_client.specs.declared.call_fault.CallFault.TheVariants as calls;
ghost use Rattle.ob_dialogue.specs.Legs.{Goes, Leg, had, ending_of, ended_by};
ghost use Rattle.ob_dialogue.specs.Exchanges.{Exchanges, Replied, FailedByLink, WasAlive, gave, wire};
ghost use Rattle.ob_dialogue.specs.InHand as in_hand;

use crate::ending::{Ending, Peer};
use crate::plan::DialoguePlan;
use crate::request::request_at;
use crate::stage::{Stage, is_poll, mended};
use crate::taking::{Outcome, taken};
use crate::talk::Talk;
use ob_client::{CallFault, Session};
use ob_console::acknowledge_at;
use ob_io::{Link, Sink, write_all};
use ob_object::Obj;
use std::alloc::{AllocError, Global};

/// Why a dialogue goes on no more on a link.
#[derive(Drop)]
pub(crate) enum Pause {
    /// It ended.
    Ended(Ending),
    /// A poll is mended on a further link: this one failed.
    Failed(Stage),
    /// A poll is mended on a further link: this one ended.
    Cut(Stage),
}

/// What comes of asking.
#[derive(Drop)]
pub(crate) enum Exchange {
    /// Nothing more is to be asked.
    Over,
    /// There was no memory to ask.
    Memory,
    /// The reply's object.
    Reply(Obj),
    /// The call gave none.
    Fault(CallFault),
}

/// What comes of a request and its reply.
#[derive(Drop)]
pub(crate) enum Turned {
    /// The dialogue goes on.
    Next(Stage),
    /// It doesn't, on this link.
    Paused(Pause),
}

// What a fault of a call makes of a stage.
fn broken(stage: Stage, fault: CallFault, mends: bool) -> Pause
    requires live { in_hand.IsLive stage }
    requires alive { fault ≢ calls.Dead }
    ensures ends { ending_of (in_hand.pause result) ≡ ended_by fault }
    ensures goes { Goes mends (Ok (in_hand.stage stage)) (in_hand.pause result) }
    ensures live { in_hand.PauseIsLive result }
{
    let can_mend = mends && is_poll(&stage);
    match fault {
        CallFault::Link => {
            if can_mend {
                Pause::Failed(mended(stage))
            } else {
                Pause::Ended(Ending::Link)
            }
        }
        CallFault::Ended => {
            if can_mend {
                Pause::Cut(mended(stage))
            } else {
                Pause::Ended(Ending::Peer(Peer::Ended))
            }
        }
        CallFault::PeerStatus { number } => Pause::Ended(Ending::Peer(Peer::Status(number))),
        CallFault::PeerDocument(refused) => Pause::Ended(Ending::Peer(Peer::Document(refused))),
        CallFault::PeerFrame(fault) => Pause::Ended(Ending::Peer(Peer::Frame(fault))),
        CallFault::Dead => unreachable!(),
        CallFault::Memory => Pause::Ended(Ending::Memory),
    }
}

// What a call gave.
fn gave(answer: Result<Obj, CallFault>) -> Exchange
    ensures { result ≡ gave answer }
{
    match answer {
        Ok(reply) => Exchange::Reply(reply),
        Err(fault) => Exchange::Fault(fault),
    }
}

// Asks what comes next, and reads the reply.
fn ask<L: Link>(alloc: Global, stage: &Stage, session: &mut Session<L>) -> Exchange
    requires { session.old.is_dead ≡ false }
    ensures exchanges { Exchanges session.old.host (in_hand.stage stage.now)
        (wire (inlet (L.left session.old.link) (L.taken session.old.link)) (L.held session.old.link) session.old.framer)
        (wire (inlet (L.left session.new.link) (L.taken session.new.link)) (L.held session.new.link) session.new.framer)
        result }
    ensures alive { Replied result → session.new.is_dead ≡ false }
    ensures host { session.new.host ≡ session.old.host }
    ensures later { (L.read_faults session.old.link ≤ L.read_faults session.new.link)
        × (L.write_faults session.old.link ≤ L.write_faults session.new.link) }
    ensures link { FailedByLink result → Rose (L.read_faults session.old.link) (L.read_faults session.new.link)
        ⊎ Rose (L.write_faults session.old.link) (L.write_faults session.new.link) }
    ensures lives { WasAlive result }
{
    if let Stage::Ack(_, target, user) = stage {
        return gave(acknowledge_at(alloc, session, target, user));
    }
    let Ok(asked) = request_at(alloc, stage) else {
        return Exchange::Memory;
    };
    let Some(request) = asked else {
        return Exchange::Over;
    };
    gave(session.call(request.verb, &request.target, request.body.as_ref()))
}

// The dialogue goes on, or the other side ended it.
fn reached(next: Result<Stage, Peer>) -> Turned
    requires { in_hand.NextIsLive next }
    ensures reaches { in_hand.Reaches (in_hand.reached next) result }
    ensures live { in_hand.TurnedIsLive result }
    ensures link { in_hand.TurnsByLink result → ⊥ }
    ensures sink { in_hand.TurnsBySink result → ⊥ }
{
    match next {
        Ok(stage) => Turned::Next(stage),
        Err(peer) => Turned::Paused(Pause::Ended(Ending::Peer(peer))),
    }
}

// The sink failed.
fn cut_off(_next: Result<Stage, Peer>) -> Turned
    ensures { in_hand.IsCutOff result }
{
    Turned::Paused(Pause::Ended(Ending::Write))
}

// Prints what a reply gives.
fn print<K: Sink>(sink: &mut K, lines: &[u8], next: Result<Stage, Peer>) -> Turned
    requires { in_hand.NextIsLive next }
    ensures prints { in_hand.Prints (K.held sink.old) (K.held sink.new) (in_hand.step lines.now next) result }
    ensures live { in_hand.TurnedIsLive result }
    ensures later { K.faults sink.old ≤ K.faults sink.new }
    ensures sink { in_hand.TurnsBySink result → Rose (K.faults sink.old) (K.faults sink.new) }
    ensures link { in_hand.TurnsByLink result → ⊥ }
{
    match write_all(sink, lines) {
        Ok(()) => reached(next),
        Err(_) => cut_off(next),
    }
}

// Prints what a reply gives at a stage.
fn give<K: Sink>(
    alloc: Global,
    plan: &DialoguePlan,
    stage: Stage,
    reply: Obj,
    sink: &mut K,
) -> Turned
    requires { in_hand.IsLive stage }
    ensures gives { in_hand.Gives (K.held sink.old) (K.held sink.new) plan.now (in_hand.stage stage) reply result }
    ensures live { in_hand.TurnedIsLive result }
    ensures later { K.faults sink.old ≤ K.faults sink.new }
    ensures sink { in_hand.TurnsBySink result → Rose (K.faults sink.old) (K.faults sink.new) }
    ensures link { in_hand.TurnsByLink result → ⊥ }
{
    match taken(alloc, plan, stage, reply) {
        Ok(outcome) => {
            let Outcome { lines, next } = outcome;
            print(sink, &lines, next)
        }
        Err(AllocError) => Turned::Paused(Pause::Ended(Ending::Memory)),
    }
}

impl Talk<'_> {
    // Writes a request, reads its reply and prints what it gives.
    fn turn<L: Link, K: Sink>(&self, stage: Stage, session: &mut Session<L>, sink: &mut K) -> Turned
        requires live { in_hand.IsLive stage }
        requires alive { session.old.is_dead ≡ false }
        ensures turns { in_hand.Turns self.now.plan.now session.old.host (nat_lt 0 self.now.retries) (in_hand.stage stage)
            (had (inlet (L.left session.old.link) (L.taken session.old.link)) (L.held session.old.link) session.old.framer (K.held sink.old))
            (had (inlet (L.left session.new.link) (L.taken session.new.link)) (L.held session.new.link) session.new.framer (K.held sink.new))
            result }
        ensures live { in_hand.TurnedIsLive result }
        ensures alive { in_hand.IsNext result → session.new.is_dead ≡ false }
        ensures host { session.new.host ≡ session.old.host }
        ensures later { (L.read_faults session.old.link ≤ L.read_faults session.new.link)
            × (L.write_faults session.old.link ≤ L.write_faults session.new.link) × (K.faults sink.old ≤ K.faults sink.new) }
        ensures link { in_hand.TurnsByLink result → Rose (L.read_faults session.old.link) (L.read_faults session.new.link)
            ⊎ Rose (L.write_faults session.old.link) (L.write_faults session.new.link) }
        ensures sink { in_hand.TurnsBySink result → Rose (K.faults sink.old) (K.faults sink.new) }
        ensures onward { in_hand.GoesOn self.now.plan.now (in_hand.stage stage) result }
    {
        match ask(self.alloc, &stage, session) {
            Exchange::Over => Turned::Paused(Pause::Ended(Ending::Done)),
            Exchange::Memory => Turned::Paused(Pause::Ended(Ending::Memory)),
            Exchange::Fault(fault) => Turned::Paused(broken(stage, fault, self.retries > 0)),
            Exchange::Reply(reply) => give(self.alloc, self.plan, stage, reply, sink),
        }
    }

    /// The dialogue from a stage on, on one link. It ends: each reply leads nearer to the end of the polls.
    pub(crate) fn on_link<L: Link, K: Sink>(
        &self,
        stage: Stage,
        session: &mut Session<L>,
        sink: &mut K,
    ) -> Pause
        requires live { in_hand.IsLive stage }
        requires alive { session.old.is_dead ≡ false }
        ensures leg { Leg self.now.plan.now session.old.host (nat_lt 0 self.now.retries) (Ok (in_hand.stage stage))
            (had (inlet (L.left session.old.link) (L.taken session.old.link)) (L.held session.old.link) session.old.framer (K.held sink.old))
            (had (inlet (L.left session.new.link) (L.taken session.new.link)) (L.held session.new.link) session.new.framer (K.held sink.new))
            (in_hand.pause result) }
        ensures live { in_hand.PauseIsLive result }
        ensures later { K.faults sink.old ≤ K.faults sink.new }
        ensures link { in_hand.IsLinkFault result → Rose (L.read_faults session.old.link) (L.read_faults session.new.link)
            ⊎ Rose (L.write_faults session.old.link) (L.write_faults session.new.link) }
        ensures sink { in_hand.IsSinkFault result → Rose (K.faults sink.old) (K.faults sink.new) }
    {
        let mut stage = stage;
        'turns: loop {
            match self.turn(stage, session, sink) {
                Turned::Next(next) => stage = next,
                Turned::Paused(pause) => return pause,
            }
        }
    }
}
