//! `watch` and `console`: dialogues with a server.
ghost use Rattle.std.specs.Prelude.{◌≡◌, IfOk};
ghost use Rattle.ob_program.specs.Client.{watched, alarms, exit_of_dialogue, ClientRan};
ghost use Rattle.ob_program.specs.Outside.{dialled};
ghost use Rattle.ob_program.specs.Telling.{errors_told};
ghost use Rattle.ob_program.specs.Words.{dialogue_words};

use crate::exit::Exit;
use crate::telling::tell;
use ob_command::{Console, Watch};
use ob_dialogue::{DialoguePlan, Ending, Hrefs, Topic, converse};
use ob_io::{Dialer, Sink};
use std::alloc::{AllocError, Global};

/// What is to be done for a watch.
pub(crate) fn watch_plan(watch: Watch) -> DialoguePlan
    ensures { result ≡ watched watch }
{
    let Watch {
        url,
        hrefs,
        polls,
        retries,
    } = watch;
    DialoguePlan {
        url,
        topic: Topic::Watch {
            hrefs: Hrefs::of(hrefs),
        },
        polls,
        retries,
    }
}

/// What is to be done for a console.
pub(crate) fn console_plan(console: Console) -> DialoguePlan
    ensures { result ≡ alarms console }
{
    let Console {
        url,
        subject,
        polls,
        ack,
        user,
    } = console;
    DialoguePlan {
        url,
        topic: Topic::Console { subject, ack, user },
        polls,
        retries: 0,
    }
}

/// The exit that the end of a dialogue leads to.
fn exit_of(ending: &Ending) -> Exit
    ensures { result ≡ exit_of_dialogue ending.now }
{
    match ending {
        Ending::Done => Exit::Ok,
        Ending::Link => Exit::LinkFault,
        Ending::Peer(_) => Exit::Peer,
        Ending::Write => Exit::WriteFault,
        Ending::Memory => Exit::Memory,
    }
}

/// The words that tell the end of a dialogue on `errors`, where its line has some.
fn words_of(alloc: Global, ending: &Ending) -> Result<Vec<u8>, AllocError>
    ensures { IfOk result (λ words. words.items ≡ dialogue_words ending.now) }
{
    match ending {
        Ending::Peer(peer) => peer.words(alloc),
        Ending::Done | Ending::Link | Ending::Write | Ending::Memory => Ok(Vec::new(alloc)),
    }
}

/// Has the dialogue of a plan with a server, and tells on `errors` what went wrong.
pub(crate) fn run_client<W: Dialer, K: Sink, E: Sink>(
    alloc: Global,
    plan: DialoguePlan,
    dialer: &mut W,
    sink: &mut K,
    errors: &mut E,
) -> Exit
    ensures { ClientRan plan (K.held sink.old) (K.held sink.new) (K.faults sink.old) (K.faults sink.new)
        (dialled (W.dials dialer.old) (W.visits dialer.old) (W.rose dialer.old) (W.faults dialer.old))
        (dialled (W.dials dialer.new) (W.visits dialer.new) (W.rose dialer.new) (W.faults dialer.new))
        (errors_told (E.held errors.old) (E.faults errors.old)) (errors_told (E.held errors.new) (E.faults errors.new)) result }
{
    let ending = converse(alloc, &plan, dialer, sink);
    let exit = exit_of(&ending);
    tell(alloc, errors, exit, words_of(alloc, &ending));
    exit
}
