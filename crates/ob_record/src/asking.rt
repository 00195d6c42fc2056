//! One request, asked of the machine and told as an entry of a record.
ghost use Rattle.std.specs.Prelude.{IfOk, OnErr};
ghost use Rattle.ob_record.specs.Entries.{Replies, Tells, Asked, BodyIsSpelled};

use crate::{Entry, Told, write_entry};
use ob_encoding::encode;
use ob_machine::Machine;
use ob_object::Obj;
use ob_site_rules::Request;
use ob_times::Moment;
use ob_values::Bytes;
use std::alloc::{AllocError, Global};

/// Asks the machine, and answers the canonical text of its reply. An error only for want of memory; then it was asked or not.
fn ask<M: Machine<Request = Request, Reply = Obj>>(
    alloc: Global,
    machine: &mut M,
    request: &Request,
    moment: Moment,
) -> Result<Vec<u8>, AllocError>
    ensures replies { IfOk result (λ text. Replies M.act machine.old machine.new request.now moment text.items) }
    ensures wanting { OnErr result (Asked M.act machine.old machine.new request.now moment) }
{
    moment.ms();
    let reply = machine.step(request, moment)?;
    encode(alloc, None, &reply)
}

/// Asks the machine, and answers the entry as it stands in a record. An error only for want of memory; then the machine was
/// asked or not.
pub(crate) fn ask_entry<M: Machine<Request = Request, Reply = Obj>>(
    alloc: Global,
    machine: &mut M,
    request: Request,
    moment: Moment,
) -> Result<Vec<u8>, AllocError>
    ensures tells { BodyIsSpelled request.body → IfOk result (λ text. Tells M.act machine.old machine.new request moment text.items) }
    ensures wanting { OnErr result (Asked M.act machine.old machine.new request moment) }
{
    moment.ms();
    request.target.as_str();
    let bytes = ask(alloc, machine, &request, moment)?;
    let entry = Entry {
        moment,
        request,
        reply: Told::Reply(Bytes::new(bytes)),
    };
    write_entry(alloc, &entry)
}
