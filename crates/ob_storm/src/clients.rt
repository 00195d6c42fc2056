//! The clients of a machine, each with a caller's number of its own.
ghost use Rattle.std.specs.Prelude.{◌≡◌, ◌<◌, IfOk, OnErr, MatchResult};
ghost use Rattle.ob_machine.specs.declared.call.Answer.TheVariants.{Done, NoMemory};

use ob_machine::{Answer, Machine};
use ob_times::Moment;
use ob_turn::{Desk, Pass};
use std::alloc::{AllocError, Global};
use std::marker::Model;
use std::sync::Wait;

// The reply, if the step was done.
fn reply_of<P>(answer: Answer<P>) -> Result<P, AllocError>
    ensures { MatchResult result (λ reply. answer ≡ Done reply) (λ _. answer ≡ NoMemory) }
{
    match answer {
        Answer::Done(reply) => Ok(reply),
        Answer::NoMemory => Err(AllocError),
    }
}

/// A machine behind a desk, and the pass that has all of its shares.
///
/// Contracts see it as the machine's state.
#[derive(Drop)]
pub struct Clients<M: Machine> {
    desk: Desk<M>,
    pass: Pass<M>,
}

impl<M: Machine> Model for Clients<M> {
    ghost use Rattle.std.specs.Prelude.{◌≡◌};
    ghost use Rattle.ob_machine.specs.History.{after};
    ghost use Rattle.ob_turn.specs.Callers.{numbers_below};

    ghost Value = { M };

    ghost view = { λ c. after M.act c.desk.opening c.pass.seen };

    ghost invariant = { λ c. (c.pass.table ≡ c.desk.table) × (c.pass.numbers ≡ numbers_below 4294967296) };
}

impl<M: Machine> Clients<M> {
    /// The clients of a machine.
    pub fn new(alloc: Global, machine: M) -> Result<Clients<M>, AllocError>
    where
        M: Drop,
        ensures { IfOk result (λ clients. clients ≡ machine) }
    {
        match Desk::new(alloc, machine) {
            Ok((desk, pass)) => Ok(Clients { desk, pass }),
            Err((_machine, fault)) => Err(fault),
        }
    }

    /// Asks one request at a moment as the client of a number, and gives the reply. Where memory is wanting, the machine is
    /// as it was.
    ///
    /// The client's pass is split off for the request and joined again: so what it has seen, the next client has seen too,
    /// and the requests stand in the order in which they were made.
    pub fn ask<R: Wait>(
        &mut self,
        rt: &R,
        client: u32,
        request: &M::Request,
        moment: Moment,
    ) -> Result<M::Reply, AllocError>
        requires { 0 < client }
        ensures done { IfOk result (λ reply. M.act self.old request.now moment ≡ (self.new, reply)) }
        ensures refused { OnErr result (self.new ≡ self.old) }
    {
        let mut own = self.pass.split(&self.desk, client as u64);
        let answer = self.desk.ask(rt, &mut own, request, moment);
        self.pass.join(&self.desk, own);
        reply_of(answer)
    }

    /// Gives the machine back.
    pub fn close(self) -> M
        ensures { result ≡ self }
    {
        let Clients { desk, pass } = self;
        desk.close(pass)
    }
}
