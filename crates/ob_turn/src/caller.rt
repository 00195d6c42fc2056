//! Jobs that are done under a pass, and callers that do theirs in threads of their own.
ghost use Rattle.std.specs.Prelude.{◌≡◌, ℕ, ◌<◌, length, All, slice_index_or};
ghost use Rattle.ob_turn.specs.Work.{Worked};

use crate::desk::Desk;
use crate::pass::Pass;
use ob_machine::{Answer, Machine};
use ob_times::Moment;
use std::sync::Wait;
use std::thread::{Threads, for_each_mut};

/// A request to make at a moment, and its answer once it was made.
#[derive(Drop)]
pub struct Job<Q, P> {
    pub request: Q,
    pub moment: Moment,
    pub answer: Option<Answer<P>>,
}

/// A pass, and the jobs to do under it.
#[derive(Drop)]
pub struct Caller<M: Machine> {
    pub pass: Pass<M>,
    pub jobs: Vec<Job<M::Request, M::Reply>>,
}

impl<M: Machine> Desk<M> {
    /// Does all jobs under the pass, in their order, each in a turn of its own, and leaves each
    /// answer in its job in place of what stood there.
    pub fn ask_all<R: Wait>(
        &self,
        rt: &R,
        pass: &mut Pass<M>,
        jobs: &mut [Job<M::Request, M::Reply>],
    )
        requires { pass.old.table ≡ self.now.table }
        ensures { Worked M.act self.now.opening jobs.old jobs.new pass.old pass.new }
    {
        for job in jobs {
            job.answer = Some(self.ask(rt, pass, &job.request, job.moment));
        }
    }

    // One caller does its jobs.
    fn work<R: Wait>(&self, rt: &R, caller: &mut Caller<M>)
        requires { caller.old.pass.table ≡ self.now.table }
        ensures { Worked M.act self.now.opening caller.old.jobs.items caller.new.jobs.items caller.old.pass caller.new.pass }
    {
        self.ask_all(rt, &mut caller.pass, caller.jobs.as_mut_slice());
    }
}

impl<M: Machine + Send> Desk<M>
where
    M::Request: Send,
    M::Reply: Send,
{
    /// Each caller does its jobs in a thread of its own. The list is halved, and one half goes to a
    /// new thread, until each thread has one caller.
    pub fn run_callers<R: Threads + Wait + Sync>(&self, rt: &R, callers: &mut [Caller<M>])
        requires { All (λ w. w.pass.table ≡ self.now.table) callers.old }
        ensures { (k : ℕ) (d : Caller M M.Request M.Reply) → k < length callers.old → Worked M.act self.now.opening (slice_index_or callers.old k d).jobs.items (slice_index_or callers.new k d).jobs.items (slice_index_or callers.old k d).pass (slice_index_or callers.new k d).pass }
    {
        if callers.is_empty() {
            return;
        }
        let threads = callers.len();
        for_each_mut(rt, callers, threads, &|_, caller| self.work(rt, caller));
    }
}

fn is_send<T: Send>() {}

fn is_sync<T: Sync>() {}

/// A desk, a pass and a caller may go to another thread, and several threads may call one desk, where
/// the machine, its requests and its replies may go to another thread.
pub fn cross_threads<M: Machine + Send>()
where
    M::Request: Send,
    M::Reply: Send,
{
    is_send::<Desk<M>>();
    is_sync::<Desk<M>>();
    is_send::<Pass<M>>();
    is_send::<Caller<M>>();
    is_send::<Job<M::Request, M::Reply>>();
}
