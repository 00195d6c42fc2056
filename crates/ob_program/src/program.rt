//! The top call: the words of a command line, done over the outside that is handed in.
ghost use Rattle.std.specs.Prelude.{◌≡◌, ◌↔◌, ◌⊎◌, ℕ, List, map, string_bytes, None, IfSome};
ghost use Rattle.ob_command.specs.Command.{command};
ghost use Rattle.ob_program.specs.Causes.{CauseOf};
ghost use Rattle.ob_program.specs.Outside.{streams, dialled, devices_told, port_told, clock_told, refusals};
ghost use Rattle.ob_program.specs.Run.{IsUnread, Ran, LeavesAlone};
ghost use Rattle.ob_program.specs.Telling.{errors_told, Tells, TellsSlip};

use crate::audit::run_audit;
use crate::check::run_check;
use crate::client::{console_plan, run_client, watch_plan};
use crate::compact::run_compact;
use crate::exit::Exit;
use crate::keep::run_keep;
use crate::outside::{Front, Means, Relay, Storage};
use crate::schedule::run_schedule;
use crate::serve::run_serve;
use crate::stdio::run_stdio;
use crate::storm::run_storm;
use crate::supervise::run_super;
use crate::telling::tell;
use crate::text::run_text;
use ob_command::{Command, VERSION, page, read_command};
use ob_io::{Clock, Dialer, Door, Files, Pair, Port, Sink, Source};
use ob_journal::Devices;
use ob_server::TimedLink;
use std::alloc::Global;
use std::sync::Wait;
use std::thread::Threads;

/// Does what the words say.
///
/// `stdio SITE [--at MS] [--tick MS]` opens the site of a file, and answers the requests of the link's source on its sink.
/// `record SITE [--at MS] [--tick MS]` asks them of the site in the same way, and writes the record of that run in their place.
/// `schedule SITE FILE [--at MS] [--tick MS]` is `stdio SITE` whose site also gets the writes of the weekly schedules of a file.
/// `audit SITE FILE` tells whether the record of a run is legal from a site file.
/// `serve SITE HOST PORT [--workers N] [--quota M]` answers those of links that come to a port. `keep SITE RECORD HOST PORT
/// [--workers N] [--quota M]` answers them so, and what changes of the site is in the record's file before anyone is told; a later
/// run goes on from there. `compact SITE RECORD NEW` writes a shorter record by which it goes on alike. `check FILE` writes the
/// canonical text of a file's document, and a line feed. `watch URL HREF.. [--polls N] [--retry R]` and `console URL SUBJECT
/// [--polls N] [--ack HREF] [--user NAME]` write what a server tells of objects and of alarms. `storm SEED CLIENTS REQUESTS`
/// asks a site of its own what a seed draws, and writes what it counts in the replies. `super CONFIG [--rounds N] [--wait MS]` goes over
/// the servers that a file names, and answers the source's requests from a tree of what they show. `help [COMMAND]`, and `--help` among
/// the words of a command, write a page, and `--version` the program's version. What went wrong is told on `errors`, whose own faults
/// change nothing.
///
/// The answers of `stdio` and `serve` are those of the site that the definition of the opening gives for the document that the
/// file's bytes spell and the boot's moment, with the document's xmlns.
pub fn run<
    R: Threads + Wait + Sync,
    F: Files,
    V: Devices,
    S: Source,
    K: Sink,
    E: Sink,
    P: Port,
    W: Dialer,
    C: Clock + Send,
>(
    rt: &R,
    alloc: Global,
    words: &[String],
    files: &mut F,
    devices: &mut V,
    link: &mut Pair<S, K>,
    errors: &mut E,
    port: &mut P,
    dialer: &mut W,
    clock: &mut C,
) -> Exit
where
    V::D: Send,
    <P::D as Door>::L: Send,
    W::L: Drop,
    // Status 1 comes exactly where the words are no command; but to read a client's words there may be no memory.
    ensures usage { ((result ≡ Exit.Usage) ↔ (command (map string_bytes words.now) ≡ None))
        ⊎ IsUnread (map string_bytes words.now) result ((link.new.sink ≡ link.old.sink) × (dialer.new ≡ dialer.old)) }
    ensures apart { LeavesAlone (command (map string_bytes words.now)) (files.new ≡ files.old) (devices.new ≡ devices.old) (link.new.source ≡ link.old.source)
        (link.new.sink ≡ link.old.sink) (port.new ≡ port.old) (dialer.new ≡ dialer.old) (clock.new ≡ clock.old) }
    // Whatever the command is, a fault has its cause in a count.
    ensures cause { CauseOf result (F.faults files.old) (F.faults files.new)
        (streams (S.left link.old.source) (K.held link.old.sink) (S.faults link.old.source) (K.faults link.old.sink))
        (streams (S.left link.new.source) (K.held link.new.sink) (S.faults link.new.source) (K.faults link.new.sink))
        (port_told (P.faults port.old) (P.opened port.old) (P.returned port.old) (P.listens port.old) (P.doors port.old))
        (port_told (P.faults port.new) (P.opened port.new) (P.returned port.new) (P.listens port.new) (P.doors port.new))
        (dialled (W.dials dialer.old) (W.visits dialer.old) (W.rose dialer.old) (W.faults dialer.old))
        (dialled (W.dials dialer.new) (W.visits dialer.new) (W.rose dialer.new) (W.faults dialer.new))
        (clock_told (C.faults clock.old) (C.given clock.old) (C.pace clock.old) (C.twins clock.old))
        (clock_told (C.faults clock.new) (C.given clock.new) (C.pace clock.new) (C.twins clock.new))
        (V.faults devices.old) (V.faults devices.new) }
    // Of words that are no command the first offence is told.
    ensures slip { command (map string_bytes words.now) ≡ None → result ≡ Exit.Usage
        → TellsSlip (map string_bytes words.now) (errors_told (E.held errors.old) (E.faults errors.old)) (errors_told (E.held errors.new) (E.faults errors.new)) }
    // Whatever the command is, this is told of its end, with the words that its record has.
    ensures told { (words : List ℕ) × Tells (errors_told (E.held errors.old) (E.faults errors.old)) (errors_told (E.held errors.new) (E.faults errors.new)) result words }
    // The command was done, and this is how it ended; but to read a client's words there may be no memory.
    ensures ran { IfSome (command (map string_bytes words.now)) (λ asked.
        Ran V.D.is_told V.D.seen V.D.may_leave V.D.moment V.D.left_since V.D.faults
        P.D.faults P.D.handed P.D.returned P.D.visits P.D.is_closed C.given C.pace C.faults
        (F.content files.old) (F.faults files.old) (F.faults files.new)
        (devices_told (V.given devices.old) (V.returned devices.old) (V.faults devices.old))
        (devices_told (V.given devices.new) (V.returned devices.new) (V.faults devices.new))
        (streams (S.left link.old.source) (K.held link.old.sink) (S.faults link.old.source) (K.faults link.old.sink))
        (streams (S.left link.new.source) (K.held link.new.sink) (S.faults link.new.source) (K.faults link.new.sink))
        (port_told (P.faults port.old) (P.opened port.old) (P.returned port.old) (P.listens port.old) (P.doors port.old))
        (port_told (P.faults port.new) (P.opened port.new) (P.returned port.new) (P.listens port.new) (P.doors port.new))
        (dialled (W.dials dialer.old) (W.visits dialer.old) (W.rose dialer.old) (W.faults dialer.old))
        (dialled (W.dials dialer.new) (W.visits dialer.new) (W.rose dialer.new) (W.faults dialer.new))
        (clock_told (C.faults clock.old) (C.given clock.old) (C.pace clock.old) (C.twins clock.old))
        (clock_told (C.faults clock.new) (C.given clock.new) (C.pace clock.new) (C.twins clock.new))
        (refusals (F.refused files.new) (P.refusal port.new) (V.refusal devices.new))
        (errors_told (E.held errors.old) (E.faults errors.old)) (errors_told (E.held errors.new) (E.faults errors.new)) asked result)
        ⊎ IsUnread (map string_bytes words.now) result ((link.new.sink ≡ link.old.sink) × (dialer.new ≡ dialer.old)) }
{
    let command = match read_command(alloc, words) {
        Ok(Ok(command)) => command,
        Ok(Err(slip)) => {
            tell(alloc, errors, Exit::Usage, slip.words(alloc));
            return Exit::Usage;
        }
        Err(fault) => {
            tell(alloc, errors, Exit::Memory, Err(fault));
            return Exit::Memory;
        }
    };
    let means = Means { rt, alloc };
    match command {
        Command::Stdio(service) => {
            let mut timed = TimedLink { link, clock };
            run_stdio(&means, service, files, &mut timed, errors)
        }
        Command::Schedule(service) => {
            let mut timed = TimedLink { link, clock };
            run_schedule(alloc, service, files, &mut timed, errors)
        }
        Command::Audit(audit) => run_audit(alloc, audit, files, &mut link.sink, errors),
        Command::Serve(service) => {
            let mut front = Front {
                sink: &mut link.sink,
                port,
                clock,
            };
            run_serve(&means, service, files, &mut front, errors)
        }
        Command::Keep(kept) => {
            let mut storage = Storage { files, devices };
            let mut front = Front {
                sink: &mut link.sink,
                port,
                clock,
            };
            run_keep(&means, kept, &mut storage, &mut front, errors)
        }
        Command::Compact(words) => {
            let mut storage = Storage { files, devices };
            run_compact(alloc, words, &mut storage, &mut link.sink, errors)
        }
        Command::Check(name) => run_check(alloc, name, files, &mut link.sink, errors),
        Command::Watch(watch) => {
            run_client(alloc, watch_plan(watch), dialer, &mut link.sink, errors)
        }
        Command::Console(console) => {
            run_client(alloc, console_plan(console), dialer, &mut link.sink, errors)
        }
        Command::Storm(asked) => run_storm(rt, alloc, asked, &mut link.sink, errors),
        Command::Super(asked) => {
            let mut relay = Relay { link, dialer };
            run_super(alloc, asked, files, &mut relay, errors)
        }
        Command::Help(verb) => run_text(alloc, page(verb), &mut link.sink, errors),
        Command::Version => run_text(alloc, VERSION, &mut link.sink, errors),
    }
}
