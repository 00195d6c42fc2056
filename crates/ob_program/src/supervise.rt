//! `super`: the requests of the source are answered from a tree of what the servers of a config show.
ghost use Rattle.std.specs.Prelude.{◌≡◌, ◌≤◌, None, IfOk, IfErr};
ghost use Rattle.ob_io.specs.Faults.{Rose};
ghost use Rattle.ob_server.specs.Complete.{ServesWhole};
ghost use Rattle.ob_server.specs.declared.end.LinkEnd.{LinkEnd};
ghost use Rattle.ob_super.specs.InHand.{upstreams, outside, IsNew};
ghost use Rattle.ob_program.specs.Form.{plain};
ghost use Rattle.ob_program.specs.Outside.{streams, dialled};
ghost use Rattle.ob_program.specs.Stdio.{HasCause, IsUnserved};
ghost use Rattle.ob_program.specs.Telling.{errors_told};
ghost use Rattle.ob_program.specs.Super.{end_of_config, IsFollowed, FollowsNone, SuperComes, SuperRan};
ghost use Rattle.ob_program.specs.declared.form.FormEnd.TheVariants as variants;
ghost use Rattle.ob_program.specs.declared.stdio.StdioEnd.TheVariants as plainly;

use crate::document::read_file;
use crate::exit::Exit;
use crate::form::FormEnd;
use crate::outside::Relay;
use crate::stdio::StdioEnd;
use crate::telling::tell;
use ob_command::Supervise;
use ob_io::{Dialer, Files, Link, Pair, Sink, Source};
use ob_super::{ConfigFault, Super};
use ob_supervising::supervise;
use std::alloc::Global;

/// The end of a run whose config follows nothing.
fn of_config(fault: ConfigFault) -> FormEnd
    ensures { result ≡ end_of_config fault }
{
    match fault {
        ConfigFault::Shape(offence) => FormEnd::Config(offence),
        ConfigFault::Memory => FormEnd::Stdio(StdioEnd::Memory),
    }
}

/// The supervisor of what the config of a file tells, all of which is down and was never dialled.
fn read_config<F: Files, L: Link + Drop>(
    alloc: Global,
    asked: Supervise<'_>,
    files: &mut F,
) -> Result<Super<L>, FormEnd>
    ensures follows { IfOk result (λ made. IsFollowed (F.content files.old asked.entry.config.now) (upstreams made.followed.items)) }
    ensures fresh { IfOk result (λ made. IsNew made) }
    ensures none { IfErr result (FollowsNone (F.content files.old asked.entry.config.now)) }
    ensures later { F.faults files.old ≤ F.faults files.new }
    ensures failed { IfErr result (λ end. end ≡ variants.Stdio plainly.ReadFault → Rose (F.faults files.old) (F.faults files.new)) }
{
    ob_documents::spelled();
    let doc = match read_file(alloc, asked.config, files) {
        Ok(doc) => doc,
        Err(fault) => return Err(FormEnd::of_document(fault)),
    };
    let (_ns, root) = doc.into_parts();
    match Super::new(alloc, &root, asked.wait_ms) {
        Ok(made) => Ok(made),
        Err(fault) => Err(of_config(fault)),
    }
}

/// Follows what the config of a file tells, and answers the requests of a link from its tree.
fn serve_tree<F: Files, L: Link, W: Dialer>(
    alloc: Global,
    asked: Supervise<'_>,
    files: &mut F,
    relay: &mut Relay<'_, '_, L, W>,
) -> FormEnd
where
    W::L: Drop,
    ensures comes { SuperComes (F.content files.old asked.entry.config.now) asked.entry.rounds result (L.left relay.old.link.now) (L.taken relay.old.link.now) (L.left relay.new.link.now) (L.taken relay.new.link.now) (L.held relay.old.link.now) (L.held relay.new.link.now)
        (outside (W.dials relay.old.dialer.now) (W.visits relay.old.dialer.now)) (outside (W.dials relay.new.dialer.now) (W.visits relay.new.dialer.now)) }
    ensures unused { IsUnserved (plain result) → (relay.new.link.now ≡ relay.old.link.now) × (relay.new.dialer.now ≡ relay.old.dialer.now) }
    ensures cause { HasCause (plain result) (F.faults files.old) (F.faults files.new) (L.read_faults relay.old.link.now) (L.read_faults relay.new.link.now)
        (L.write_faults relay.old.link.now) (L.write_faults relay.new.link.now) 0 0 }
    ensures whole { (end : LinkEnd) → plain result ≡ plainly.Served end → ServesWhole (L.left relay.old.link.now) (L.read_faults relay.old.link.now) (L.read_faults relay.new.link.now)
        (L.write_faults relay.old.link.now) (L.write_faults relay.new.link.now) 0 0 end }
    ensures same { (relay.new.link.ghost_name ≡ relay.old.link.ghost_name) × (relay.new.dialer.ghost_name ≡ relay.old.dialer.ghost_name) }
{
    match read_config(alloc, asked, files) {
        Ok(made) => {
            let end = supervise(alloc, made, asked.rounds, relay.dialer, relay.link);
            FormEnd::Stdio(StdioEnd::Served(end))
        }
        Err(end) => end,
    }
}

/// Follows what the config of a file tells, answers the requests of the link's source on its sink from the tree of that, and tells
/// on `errors` what went wrong.
pub(crate) fn run_super<F: Files, S: Source, K: Sink, E: Sink, W: Dialer>(
    alloc: Global,
    asked: Supervise<'_>,
    files: &mut F,
    relay: &mut Relay<'_, '_, Pair<S, K>, W>,
    errors: &mut E,
) -> Exit
where
    W::L: Drop,
    ensures ran { SuperRan (F.content files.old asked.entry.config.now) asked.entry.rounds (F.faults files.old) (F.faults files.new)
        (streams (S.left relay.old.link.now.source) (K.held relay.old.link.now.sink) (S.faults relay.old.link.now.source) (K.faults relay.old.link.now.sink))
        (streams (S.left relay.new.link.now.source) (K.held relay.new.link.now.sink) (S.faults relay.new.link.now.source) (K.faults relay.new.link.now.sink))
        (dialled (W.dials relay.old.dialer.now) (W.visits relay.old.dialer.now) (W.rose relay.old.dialer.now) (W.faults relay.old.dialer.now))
        (dialled (W.dials relay.new.dialer.now) (W.visits relay.new.dialer.now) (W.rose relay.new.dialer.now) (W.faults relay.new.dialer.now))
        (F.refused files.new)
        (errors_told (E.held errors.old) (E.faults errors.old)) (errors_told (E.held errors.new) (E.faults errors.new)) result }
    ensures refused { result ≡ Exit.Refused → (relay.new.link.now ≡ relay.old.link.now) × (relay.new.dialer.now ≡ relay.old.dialer.now) }
    ensures same { (relay.new.link.ghost_name ≡ relay.old.link.ghost_name) × (relay.new.dialer.ghost_name ≡ relay.old.dialer.ghost_name) }
{
    ob_documents::only();
    ob_xml::one_verdict();
    let end = serve_tree(alloc, asked, files, relay);
    let exit = end.exit();
    let words = end.words(alloc, files.last_refused());
    tell(alloc, errors, exit, words);
    exit
}
