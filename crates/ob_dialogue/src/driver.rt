//! A dialogue over links that are dialled.
ghost use Rattle.std.specs.Prelude.{◌≡◌, ◌≤◌, Ok, nat_lt, true};
ghost use Rattle.ob_io.specs.Faults.{Rose};
ghost use Rattle.ob_dialogue.specs.Turns.{begins};
ghost use Rattle.ob_dialogue.specs.Links.{TalksFrom, outside};
ghost use Rattle.ob_dialogue.specs.Completes.{Completes};
ghost use Rattle.ob_dialogue.specs.Legs.{Visits};
ghost use Rattle.ob_dialogue.specs.InHand as in_hand;
ghost use Rattle.ob_dialogue.specs.declared.ending.Ending.TheVariants as ending;

use crate::ending::{Ending, Peer};
use crate::laws::completes;
use crate::link::Pause;
use crate::plan::DialoguePlan;
use crate::stage::{Stage, first};
use crate::talk::Talk;
use ob_asking::host_field;
use ob_client::Session;
use ob_io::{Dialer, Sink};
use std::alloc::Global;

impl Talk<'_> {
    // The dialogue from a stage on over a link that is dialled, and given back.
    fn on_dialled<W: Dialer, K: Sink>(&self, stage: Stage, dialer: &mut W, sink: &mut K) -> Pause
        requires { in_hand.IsLive stage }
        ensures visits { Visits self.now.plan.now (nat_lt 0 self.now.retries) (in_hand.stage stage)
            (outside (W.dials dialer.old) (W.visits dialer.old) (K.held sink.old))
            (outside (W.dials dialer.new) (W.visits dialer.new) (K.held sink.new)) (in_hand.pause result) }
        ensures live { in_hand.PauseIsLive result }
        ensures later { (W.faults dialer.old ≤ W.faults dialer.new) × (K.faults sink.old ≤ K.faults sink.new) }
        ensures link { in_hand.IsLinkFault result → Rose (W.faults dialer.old) (W.faults dialer.new) × (W.rose dialer.new ≡ true) }
        ensures sink { in_hand.IsSinkFault result → Rose (K.faults sink.old) (K.faults sink.new) }
    {
        let Ok(host) = host_field(self.alloc, &self.plan.url) else {
            return Pause::Ended(Ending::Memory);
        };
        let Ok(link) = dialer.dial(self.plan.url.host(), self.plan.url.port()) else {
            return Pause::Ended(Ending::Link);
        };
        let mut session = match Session::new(self.alloc, link, host) {
            Ok(session) => session,
            Err((link, _)) => {
                dialer.back(link);
                return Pause::Ended(Ending::Memory);
            }
        };
        let pause = self.on_link(stage, &mut session, sink);
        dialer.back(session.end());
        pause
    }

    // The dialogue from a stage on.
    fn from_stage<W: Dialer, K: Sink>(self, stage: Stage, dialer: &mut W, sink: &mut K) -> Ending
        requires { in_hand.IsLive stage }
        ensures talks { TalksFrom self.entry.plan.now self.entry.retries (Ok (in_hand.stage stage))
            (outside (W.dials dialer.old) (W.visits dialer.old) (K.held sink.old))
            (outside (W.dials dialer.new) (W.visits dialer.new) (K.held sink.new)) result }
        ensures later { (W.faults dialer.old ≤ W.faults dialer.new) × (K.faults sink.old ≤ K.faults sink.new) }
        ensures link { result ≡ ending.Link → Rose (W.faults dialer.old) (W.faults dialer.new) × (W.rose dialer.new ≡ true) }
        ensures sink { result ≡ ending.Write → Rose (K.faults sink.old) (K.faults sink.new) }
    {
        match self.on_dialled(stage, dialer, sink) {
            Pause::Ended(ending) => ending,
            Pause::Failed(next) => self.mended().from_stage(next, dialer, sink),
            Pause::Cut(next) => self.mended().from_stage(next, dialer, sink),
        }
    }
}

/// The whole dialogue: on one link, and after each broken poll on a further one, as often as the plan says. Each link is
/// given back. What a reply gives is printed before anything more is asked.
///
/// Source: oBIX 1.1, chapters 11 (REST), 12 (Watches) and 15 (Alarming).
pub fn converse<W: Dialer, K: Sink>(
    alloc: Global,
    plan: &DialoguePlan,
    dialer: &mut W,
    sink: &mut K,
) -> Ending
    ensures talks { TalksFrom plan.now plan.now.retries (begins plan.now)
        (outside (W.dials dialer.old) (W.visits dialer.old) (K.held sink.old))
        (outside (W.dials dialer.new) (W.visits dialer.new) (K.held sink.new)) result }
    ensures complete { Completes plan.now (begins plan.now)
        (W.visits dialer.old) (W.visits dialer.new) (W.faults dialer.old) (W.faults dialer.new) (K.faults sink.old) (K.faults sink.new) result }
    ensures later { (W.faults dialer.old ≤ W.faults dialer.new) × (K.faults sink.old ≤ K.faults sink.new) }
    ensures link { result ≡ ending.Link → Rose (W.faults dialer.old) (W.faults dialer.new) × (W.rose dialer.new ≡ true) }
    ensures sink { result ≡ ending.Write → Rose (K.faults sink.old) (K.faults sink.new) }
{
    completes();
    let Ok(stage) = first(alloc, plan) else {
        return Ending::Memory;
    };
    match stage {
        Some(stage) => {
            let talk = Talk {
                alloc,
                plan,
                retries: plan.retries,
            };
            talk.from_stage(stage, dialer, sink)
        }
        None => Ending::Peer(Peer::Shape),
    }
}
