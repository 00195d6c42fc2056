//! One link and one supervisor.
ghost use Rattle.std.specs.Prelude.{None};
ghost use Rattle.ob_io.specs.Links.{inlet};
ghost use Rattle.ob_server.specs.Answered.{HasEndCause};
ghost use Rattle.ob_server.specs.Complete.{ServesWhole};
ghost use Rattle.ob_super.specs.InHand as in_hand;
ghost use Rattle.ob_supervising.specs.Supervising.{Asks, AnswersLink, SupervisesLink};

use ob_io::{Dialer, Link, Ticker};
use ob_object::Obj;
use ob_server::{Answerer, LinkEnd, TimedLink, serve_by};
use ob_site_rules::Request;
use ob_super::Super;
use ob_times::Moment;
use std::alloc::{AllocError, Global};

/// A supervisor that answers requests.
#[derive(Drop)]
pub(crate) struct Supervising<L> {
    upstreams: Super<L>,
}

impl<L: Link + Drop, W: Dialer<L = L>> Answerer<W> for Supervising<L> {
    ghost asks = { Asks L.left L.taken L.held W.dials W.visits };

    fn answer(
        &mut self,
        outside: &mut W,
        request: &Request,
        moment: Moment,
    ) -> Result<Obj, AllocError> {
        let _ = moment;
        self.upstreams.answer(
            outside,
            request.verb,
            request.target.as_str(),
            request.body.as_ref(),
        )
    }
}

/// Answers the requests of a link. The moments count from 0: none of them matters.
fn serve_requests<W: Dialer, L: Link>(
    alloc: Global,
    serving: &mut Supervising<W::L>,
    dialer: &mut W,
    link: &mut L,
) -> LinkEnd
where
    W::L: Drop,
    ensures answers { AnswersLink W.L.left W.L.taken W.L.held
        (in_hand.outside (W.dials dialer.old) (W.visits dialer.old)) (in_hand.outside (W.dials dialer.new) (W.visits dialer.new))
        serving.old.upstreams serving.new.upstreams
        (inlet (L.left link.old) (L.taken link.old)) (inlet (L.left link.new) (L.taken link.new))
        (L.held link.old) (L.held link.new) result }
    ensures cause { HasEndCause (L.read_faults link.old) (L.read_faults link.new)
        (L.write_faults link.old) (L.write_faults link.new) 0 0 result }
    ensures whole { ServesWhole (L.left link.old) (L.read_faults link.old) (L.read_faults link.new)
        (L.write_faults link.old) (L.write_faults link.new) 0 0 result }
{
    let mut ticker = Ticker {
        at: 0,
        tick: 0,
        k: 0,
    };
    let mut timed = TimedLink {
        link,
        clock: &mut ticker,
    };
    serve_by(alloc, serving, dialer, None, &mut timed)
}

/// Gives every link to an upstream back.
fn finish<W: Dialer>(serving: Supervising<W::L>, dialer: &mut W)
where
    W::L: Drop,
    ensures { in_hand.EndsAll W.L.left W.L.taken W.L.held
        (in_hand.outside (W.dials dialer.old) (W.visits dialer.old)) (in_hand.outside (W.dials dialer.new) (W.visits dialer.new))
        serving.upstreams.followed.items }
{
    let Supervising { upstreams } = serving;
    upstreams.end(dialer);
}

/// Has so many rounds over upstreams that are down, of which none was dialled yet, and then answers the requests that come over a link, with a round before each of
/// them, until the link ends. Every link to an upstream is given back at the end, whatever it is. The end is `Memory` also where
/// memory was wanting in the rounds before the first request.
pub fn supervise<W: Dialer, L: Link>(
    alloc: Global,
    upstreams: Super<W::L>,
    rounds: u32,
    dialer: &mut W,
    link: &mut L,
) -> LinkEnd
where
    W::L: Drop,
    requires fresh { in_hand.IsNew upstreams }
    ensures supervises { SupervisesLink (in_hand.upstreams upstreams.followed.items) rounds
        (in_hand.outside (W.dials dialer.old) (W.visits dialer.old)) (in_hand.outside (W.dials dialer.new) (W.visits dialer.new))
        (inlet (L.left link.old) (L.taken link.old)) (inlet (L.left link.new) (L.taken link.new))
        (L.held link.old) (L.held link.new) result }
    ensures cause { HasEndCause (L.read_faults link.old) (L.read_faults link.new)
        (L.write_faults link.old) (L.write_faults link.new) 0 0 result }
    ensures whole { ServesWhole (L.left link.old) (L.read_faults link.old) (L.read_faults link.new)
        (L.write_faults link.old) (L.write_faults link.new) 0 0 result }
{
    let mut serving = Supervising { upstreams };
    match serving.upstreams.rounds(dialer, rounds) {
        Ok(()) => {
            let end = serve_requests(alloc, &mut serving, dialer, link);
            finish(serving, dialer);
            end
        }
        Err(AllocError) => {
            finish(serving, dialer);
            LinkEnd::Memory
        }
    }
}
