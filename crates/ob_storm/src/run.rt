//! A storm on a machine.
ghost use Rattle.std.specs.Prelude.{◌≡◌, ◌+◌, ◌<◌, ◌∷◌, [], codes, IsTrue, IfOk, OnOk};
ghost use Rattle.ob_times.specs.Times.{IsMoment};
ghost use Rattle.ob_values.specs.XmlText.{is_printable};
ghost use Rattle.ob_storm.specs.Requests.{get, make, add, begin_from, beginning, stormed, request_at};
ghost use Rattle.ob_storm.specs.Counts.{count_shown};
ghost use Rattle.ob_storm.specs.Runs.{boot, replies, left_by, totals};
ghost use Rattle.ob_storm.specs.Tallies.{IsTallied, IsCounted};

use crate::clients::Clients;
use crate::draws::{drawn_at, next_state};
use crate::replies::{count_shown, events_in, is_err, objects_in};
use crate::requests;
use crate::storm::Storm;
use crate::totals::Totals;
use ob_machine::Machine;
use ob_object::Obj;
use ob_site_rules::Request;
use ob_times::Moment;
use std::alloc::{AllocError, Global};
use std::sync::Wait;

/// The moment at which the site of a storm is opened and the first request is made, in milliseconds since 1970:
/// 2026-01-05T08:00:00Z.
pub const BOOT: u64 = 1_767_600_000_000;

/// What is counted in the replies.
#[derive(Clone, Copy)]
pub(crate) struct Tally {
    pub errs: u64,
    pub objects: u64,
    pub events: u64,
}

impl Tally {
    // Counts one more reply.
    fn count(&mut self, reply: &Obj)
        requires { self.old.errs < 4294967296 }
        ensures { IsCounted self.old reply.now self.new }
    {
        if is_err(reply) {
            self.errs += 1;
        }
        self.objects = self.objects.saturating_add(objects_in(reply));
        self.events = self.events.saturating_add(events_in(reply));
    }
}

// A moment.
fn moment(ms: u64) -> Moment
    requires { IsMoment ms }
    ensures { result ≡ ms }
{
    let Some(moment) = Moment::new(ms) else {
        unreachable!()
    };
    moment
}

// A client makes a watch and adds to it what it watches, the first at a moment.
fn begin_client<M: Machine<Request = Request, Reply = Obj>, R: Wait>(
    rt: &R,
    alloc: Global,
    clients: &mut Clients<M>,
    client: u32,
    at: u64,
) -> Result<(), AllocError>
    requires some { 0 < client }
    requires moment { IsMoment (at + 1) }
    ensures { OnOk result (clients.new ≡ left_by M.act clients.old at (make ∷ add client ∷ [])) }
{
    let request = requests::make(alloc)?;
    clients.ask(rt, client, &request, moment(at))?;
    let request = requests::add(alloc, client)?;
    clients.ask(rt, client, &request, moment(at + 1))?;
    Ok(())
}

// Each of so many clients makes a watch and adds to it what it watches.
fn begin<M: Machine<Request = Request, Reply = Obj>, R: Wait>(
    rt: &R,
    alloc: Global,
    clients: &mut Clients<M>,
    count: u32,
) -> Result<(), AllocError>
    ensures { OnOk result (clients.new ≡ left_by M.act clients.old boot (begin_from 1 count)) }
{
    for index in 0..count {
        begin_client(rt, alloc, clients, index + 1, BOOT + 2 * index as u64)?;
    }
    Ok(())
}

// The requests of a storm, the first at a moment, with what is counted in the replies.
fn pour<M: Machine<Request = Request, Reply = Obj>, R: Wait>(
    rt: &R,
    alloc: Global,
    clients: &mut Clients<M>,
    storm: &Storm,
    first: u64,
) -> Result<Tally, AllocError>
    requires some { 0 < storm.now.clients }
    requires moment { IsMoment (first + 4294967296) }
    ensures left { OnOk result (clients.new ≡ left_by M.act clients.old first (stormed storm.now)) }
    ensures tallied { IfOk result (IsTallied (replies M.act clients.old first (stormed storm.now))) }
{
    let mut tally = Tally {
        errs: 0,
        objects: 0,
        events: 0,
    };
    let mut state = storm.seed;
    for place in 0..storm.requests {
        state = next_state(state);
        let client = place % storm.clients + 1;
        let request = requests::request_at(alloc, client, drawn_at(state))?;
        let reply = clients.ask(rt, client, &request, moment(first + place as u64))?;
        tally.count(&reply);
    }
    Ok(tally)
}

// What a history or an alarm subject shows at a moment of how many it has.
fn read_count<M: Machine<Request = Request, Reply = Obj>, R: Wait>(
    rt: &R,
    alloc: Global,
    clients: &mut Clients<M>,
    path: &str,
    at: u64,
) -> Result<u64, AllocError>
    requires path { IsTrue (is_printable path.now) }
    requires moment { IsMoment at }
    ensures { IfOk result (λ count. (count ≡ count_shown (M.act clients.old (get path.now) at).1) × (clients.new ≡ (M.act clients.old (get path.now) at).0)) }
{
    let request = requests::get(alloc, path)?;
    let reply = clients.ask(rt, 1, &request, moment(at))?;
    Ok(count_shown(&reply))
}

// What is counted in a storm.
fn totals<M: Machine<Request = Request, Reply = Obj>, R: Wait>(
    rt: &R,
    alloc: Global,
    clients: &mut Clients<M>,
    storm: &Storm,
) -> Result<Totals, AllocError>
    requires { 0 < storm.now.clients }
    ensures { IfOk result (λ counted. counted ≡ totals M.act storm.now clients.old) }
{
    begin(rt, alloc, clients, storm.clients)?;
    let first = BOOT + 2 * storm.clients as u64;
    let tally = pour(rt, alloc, clients, storm, first)?;
    let end = first + storm.requests as u64;
    let records = read_count(rt, alloc, clients, "/obix/h", end)?;
    let alarms = read_count(rt, alloc, clients, "/obix/alarms", end + 1)?;
    Ok(Totals {
        requests: storm.requests as u64,
        errs: tally.errs,
        objects: tally.objects,
        events: tally.events,
        records,
        alarms,
    })
}

/// Makes the requests of a storm on a machine, and counts what is in the replies. An error only where the machine had no memory
/// for one of them, or there was none to make it.
///
/// Each client makes a watch and adds to it what it watches; then they make the requests of the storm in turn. Request number i,
/// from 0, has the moment `BOOT` + i. Behind them the history and the alarm subject are read.
pub fn count_storm<M: Machine<Request = Request, Reply = Obj> + Drop, R: Wait>(
    rt: &R,
    alloc: Global,
    machine: M,
    storm: &Storm,
) -> Result<Totals, AllocError>
    requires { 0 < storm.now.clients }
    ensures { IfOk result (λ counted. counted ≡ totals M.act storm.now machine) }
{
    let mut clients = Clients::new(alloc, machine)?;
    let counted = totals(rt, alloc, &mut clients, storm);
    let _machine = clients.close();
    counted
}
