//! The writes of schedules.
ghost use Rattle.std.specs.Prelude.{◌≡◌, ◌<◌, ◌++◌, codes, length, slice_get, Some, IsTrue, IfOk, OnErr};
ghost use Rattle.std.specs.List.{All};
ghost use Rattle.ob_object.specs.Fits.{fits_slot};
ghost use Rattle.ob_site_rules.specs.Build.{valued};
ghost use Rattle.ob_site_rules.specs.Paths.{below};
ghost use Rattle.ob_schedule_rules.specs.Merged.{Timed, written, post, IsPostOf};
ghost use Rattle.ob_scheduling.specs.Fitting.{AreFitting};
ghost use Rattle.ob_scheduling.specs.Posted.{IsThere, Acts, BootsUpTo, FiresUpTo, FiresBetween};

use ob_machine::Machine;
use ob_object::{Attributes, Kind, Obj, Slot};
use ob_replies::below;
use ob_site_rules::Request;
use ob_times::Moment;
use ob_values::{Text, Verb};
use ob_weekly::{Entry, Firing, Schedule, Schedules};
use std::alloc::{AllocError, Global};

/// The target of a write: `http://h` and the path of the point's op.
fn target(alloc: Global, point: &Text) -> Result<Text, AllocError>
    ensures { IfOk result (λ t. t ≡ codes "http://h" ++ below point.now (codes "writePoint")) }
{
    let op = below(alloc, point, "writePoint")?;
    let mut target = String::from_str(alloc, "http://h")?;
    target.push_str(op.as_str())?;
    Text::from_string(target)
}

/// The value that `writePoint` is given.
fn value_of(alloc: Global, kind: Kind, slot: &Slot) -> Result<Obj, AllocError>
    requires { IsTrue (fits_slot kind slot.now) }
    ensures { IfOk result (λ o. o ≡ valued kind (codes "value") slot.now) }
{
    let name = Text::from_ascii(alloc, "value")?;
    let mut head = Attributes::empty(alloc, kind);
    head.put_name(Some(name));
    head.put_slot(slot.copy()?);
    Ok(Obj::from_attributes(alloc, head))
}

/// What `writePoint` is called with: an object with the value.
fn written(alloc: Global, kind: Kind, slot: &Slot) -> Result<Obj, AllocError>
    requires { IsTrue (fits_slot kind slot.now) }
    ensures { IfOk result (λ o. o ≡ written kind slot.now) }
{
    let value = value_of(alloc, kind, slot)?;
    let mut body = Obj::new(alloc, Kind::Obj);
    body.push_last(value)?;
    Ok(body)
}

/// The write of a slot to the point of a schedule.
fn post(alloc: Global, schedule: &Schedule, slot: &Slot) -> Result<Request, AllocError>
    requires { IsTrue (fits_slot schedule.now.kind slot.now) }
    ensures { IfOk result (λ r. r ≡ post schedule.now slot.now) }
{
    let target = target(alloc, &schedule.point)?;
    let body = written(alloc, schedule.kind, slot)?;
    Ok(Request {
        verb: Verb::Post,
        target,
        body: Some(body),
    })
}

/// Writes a slot to the point of a schedule, at a moment. An error only for want of memory; then the machine is as it was.
fn write<M: Machine<Request = Request, Reply = Obj>>(
    alloc: Global,
    machine: &mut M,
    schedule: &Schedule,
    slot: &Slot,
    moment: Moment,
) -> Result<(), AllocError>
    requires { IsTrue (fits_slot schedule.now.kind slot.now) }
    ensures done { IfOk result (λ _. Acts M.act machine.old machine.new (post schedule.now slot.now, moment)) }
    ensures wanting { OnErr result (machine.new ≡ machine.old) }
{
    moment.ms();
    let request = post(alloc, schedule, slot)?;
    let _reply = machine.step(&request, moment)?;
    Ok(())
}

/// The schedule at a place.
fn schedule_at(schedules: &[Schedule], place: usize) -> &Schedule
    requires { place < length schedules.now }
    ensures { slice_get schedules.now place ≡ Some result.now }
{
    &schedules[place]
}

/// The entry at a place.
fn entry_at(entries: &[Entry], place: usize) -> &Entry
    requires { place < length entries.now }
    ensures { slice_get entries.now place ≡ Some result.now }
{
    &entries[place]
}

/// The firing at a place.
fn firing_at(firings: &[Firing], place: usize) -> Firing
    requires { place < length firings.now }
    ensures { slice_get firings.now place ≡ Some result }
{
    firings[place]
}

/// Writes the values in force at the boot, in the order of the schedules. An error only for want of memory.
pub(crate) fn write_boot<M: Machine<Request = Request, Reply = Obj>>(
    alloc: Global,
    machine: &mut M,
    schedules: &Schedules,
    boot: Moment,
) -> Result<(), AllocError>
    requires { AreFitting schedules.now }
    ensures { BootsUpTo M.act machine.old machine.new schedules.now boot result }
{
    for place in 0..schedules.list.len() {
        let slot = schedules.in_force(alloc, place as u32, boot)?;
        write(
            alloc,
            machine,
            schedule_at(&schedules.list, place),
            slot,
            boot,
        )?;
    }
    Ok(())
}

/// Makes the write of a firing, at its instant. An error only for want of memory; then the machine is as it was.
fn write_firing<M: Machine<Request = Request, Reply = Obj>>(
    alloc: Global,
    machine: &mut M,
    schedules: &Schedules,
    firing: Firing,
) -> Result<(), AllocError>
    requires fits { AreFitting schedules.now }
    requires there { IsThere schedules.now firing }
    ensures done { IfOk result (λ _. (t : Timed) × IsPostOf schedules.now firing t × Acts M.act machine.old machine.new t) }
    ensures wanting { OnErr result (machine.new ≡ machine.old) }
{
    let schedule = schedule_at(&schedules.list, firing.schedule as usize);
    let entry = entry_at(&schedule.entries, firing.entry as usize);
    write(alloc, machine, schedule, &entry.slot, firing.at)
}

/// Makes the writes of firings, each at its instant. An error only for want of memory.
fn write_firings<M: Machine<Request = Request, Reply = Obj>>(
    alloc: Global,
    machine: &mut M,
    schedules: &Schedules,
    firings: &[Firing],
) -> Result<(), AllocError>
    requires fits { AreFitting schedules.now }
    requires there { All (IsThere schedules.now) firings.now }
    ensures { FiresUpTo M.act machine.old machine.new schedules.now firings.now result }
{
    for place in 0..firings.len() {
        write_firing(alloc, machine, schedules, firing_at(firings, place))?;
    }
    Ok(())
}

/// Makes the writes of what fires after a moment and up to another, each at its instant. An error only for want of memory.
pub(crate) fn write_between<M: Machine<Request = Request, Reply = Obj>>(
    alloc: Global,
    machine: &mut M,
    schedules: &Schedules,
    from: Moment,
    to: Moment,
) -> Result<(), AllocError>
    requires { AreFitting schedules.now }
    ensures { FiresBetween M.act machine.old machine.new schedules.now from to result }
{
    let firings = schedules.firings(alloc, from, to)?;
    write_firings(alloc, machine, schedules, &firings)
}
