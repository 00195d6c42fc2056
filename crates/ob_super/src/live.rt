//! Upstreams, and the links to those that are up.
ghost use Rattle.std.specs.Prelude.{◌≡◌, List, false, None, IsSome, IfSome, IsOk, OnErr, option_copied};
ghost use Rattle.ob_super.specs.Calls.{Call, put_on};
ghost use Rattle.ob_super.specs.Rounds.{host};
ghost use Rattle.ob_super.specs.Turns.{Standing, Down, Up};
ghost use Rattle.ob_super.specs.InHand as in_hand;

use crate::asking::{open, poll, put};
use crate::upstream::{Followed, Live, Upstream};
use ob_asking::{Fault, host_field};
use ob_client::Session;
use ob_io::{Dialer, Link};
use ob_object::Obj;
use ob_values::Text;
use std::alloc::{AllocError, Global};

// Gives a link back.
fn give_back<W: Dialer>(dialer: &mut W, session: Session<W::L>)
    ensures back { in_hand.ComesBack W.L.left W.L.taken W.L.held W.L.read_faults W.L.write_faults session.link (W.visits dialer.old) (W.visits dialer.new) }
    ensures apart { W.dials dialer.new ≡ W.dials dialer.old }
{
    dialer.back(session.end());
}

// A link that ended so was given back: the upstream is down, or there was no memory.
fn down<T>(fault: Fault) -> Result<Option<T>, AllocError>
    ensures { in_hand.IsDown fault result }
{
    match fault {
        Fault::Memory => Err(AllocError),
        _ => Ok(None),
    }
}

// A session over a link that was dialled; without memory the link is given back.
fn begin<W: Dialer>(
    alloc: Global,
    upstream: &Upstream,
    link: W::L,
    dialer: &mut W,
) -> Result<Session<W::L>, AllocError>
    ensures ok { in_hand.Begins link (host (in_hand.upstream upstream.now)) result }
    ensures none { IsOk result → dialer.new ≡ dialer.old }
    ensures back { OnErr result (in_hand.ComesBack W.L.left W.L.taken W.L.held W.L.read_faults W.L.write_faults link (W.visits dialer.old) (W.visits dialer.new)) }
    ensures apart { W.dials dialer.new ≡ W.dials dialer.old }
{
    let Ok(host) = host_field(alloc, &upstream.lobby.url) else {
        dialer.back(link);
        return Err(AllocError);
    };
    match Session::new(alloc, link, host) {
        Ok(session) => Ok(session),
        Err((link, _)) => {
            dialer.back(link);
            Err(AllocError)
        }
    }
}

// Dials a link to an upstream that is down, and opens a watch over it. That may take so many milliseconds.
fn connect<W: Dialer>(
    alloc: Global,
    upstream: &Upstream,
    wait_ms: u32,
    dialer: &mut W,
) -> Result<Option<Live<W::L>>, AllocError>
    ensures { in_hand.Parts W.L.left W.L.taken W.L.held (in_hand.outside (W.dials dialer.old) (W.visits dialer.old)) (in_hand.outside (W.dials dialer.new) (W.visits dialer.new)) (in_hand.upstream upstream.now) Down result }
{
    let base = &upstream.lobby.url;
    let Ok(link) = dialer.dial_within(base.host(), base.port(), wait_ms) else {
        return Ok(None);
    };
    let mut session = begin(alloc, upstream, link, dialer)?;
    match open(alloc, upstream, &mut session) {
        Ok(watch) => Ok(Some(Live { session, watch })),
        Err(fault) => {
            give_back(dialer, session);
            down(fault)
        }
    }
}

// Asks an upstream that is up for its changes. That may take so many milliseconds.
fn refresh<W: Dialer>(
    upstream: &Upstream,
    wait_ms: u32,
    live: Live<W::L>,
    dialer: &mut W,
) -> Result<Option<Live<W::L>>, AllocError>
    ensures { (calls : List Call) → in_hand.IsLive W.L.left W.L.taken W.L.held (in_hand.upstream upstream.now) calls live
        → in_hand.Parts W.L.left W.L.taken W.L.held (in_hand.outside (W.dials dialer.old) (W.visits dialer.old)) (in_hand.outside (W.dials dialer.new) (W.visits dialer.new)) (in_hand.upstream upstream.now) (Up calls) result }
{
    let Live {
        mut session,
        mut watch,
    } = live;
    match poll(&mut session, &mut watch, wait_ms) {
        Ok(()) => Ok(Some(Live { session, watch })),
        Err(fault) => {
            drop(watch);
            give_back(dialer, session);
            down(fault)
        }
    }
}

// What a round makes of an upstream.
fn next<W: Dialer>(
    alloc: Global,
    upstream: &Upstream,
    wait_ms: u32,
    live: Option<Live<W::L>>,
    dialer: &mut W,
) -> Result<Option<Live<W::L>>, AllocError>
    ensures { (old : Standing) → in_hand.Stands W.L.left W.L.taken W.L.held (in_hand.upstream upstream.now) old live
        → in_hand.Parts W.L.left W.L.taken W.L.held (in_hand.outside (W.dials dialer.old) (W.visits dialer.old)) (in_hand.outside (W.dials dialer.new) (W.visits dialer.new)) (in_hand.upstream upstream.now) old result }
{
    match live {
        None => connect(alloc, upstream, wait_ms, dialer),
        Some(live) => refresh(upstream, wait_ms, live, dialer),
    }
}

// Has a round's part with an upstream. Without memory it is down.
fn follow<W: Dialer>(
    alloc: Global,
    followed: &mut Followed<W::L>,
    dialer: &mut W,
) -> Result<(), AllocError>
    ensures same { followed.new.upstream ≡ followed.old.upstream }
    ensures kept { in_hand.state followed.new ≡ in_hand.state followed.old }
    ensures follows { (old : Standing) → in_hand.Stands W.L.left W.L.taken W.L.held (in_hand.upstream followed.old.upstream) old followed.old.live
        → in_hand.Follows W.L.left W.L.taken W.L.held (in_hand.outside (W.dials dialer.old) (W.visits dialer.old)) (in_hand.outside (W.dials dialer.new) (W.visits dialer.new)) (in_hand.upstream followed.old.upstream) old followed.new.live result }
{
    let live = followed.live.take();
    let live = next(alloc, &followed.upstream, followed.wait_ms, live, dialer)?;
    put_live(followed, live, dialer);
    Ok(())
}

/// Asks an upstream for its changes, if it is up; else it waits for a dial. Without memory it is down.
pub(crate) fn poll_if_up<W: Dialer>(
    alloc: Global,
    followed: &mut Followed<W::L>,
    dialer: &mut W,
) -> Result<(), AllocError>
    ensures same { followed.new.upstream ≡ followed.old.upstream }
    ensures begun { in_hand.state followed.new ≡ in_hand.begun followed.old }
    ensures polls { (old : Standing) → in_hand.Stands W.L.left W.L.taken W.L.held (in_hand.upstream followed.old.upstream) old followed.old.live
        → in_hand.Polls W.L.left W.L.taken W.L.held (in_hand.outside (W.dials dialer.old) (W.visits dialer.old)) (in_hand.outside (W.dials dialer.new) (W.visits dialer.new)) (in_hand.upstream followed.old.upstream) old followed.new.live result }
{
    followed.waits = followed.live.is_none();
    if followed.waits {
        return Ok(());
    }
    follow(alloc, followed, dialer)
}

// Notes that an upstream was dialled in the round of this number, and whether it is down.
fn note_dial<L>(number: u64, followed: &mut Followed<L>)
    ensures { followed.new ≡ in_hand.noted number followed.old }
{
    followed.waits = false;
    followed.failed = if followed.live.is_some() { 0 } else { number };
}

/// Has the part of the round of this number with an upstream that is dialled in it. Without memory it is down.
pub(crate) fn dial<W: Dialer>(
    alloc: Global,
    number: u64,
    followed: &mut Followed<W::L>,
    dialer: &mut W,
) -> Result<(), AllocError>
    ensures same { followed.new.upstream ≡ followed.old.upstream }
    ensures spent { followed.new.waits ≡ false }
    ensures dials { (old : Standing) → in_hand.Stands W.L.left W.L.taken W.L.held (in_hand.upstream followed.old.upstream) old followed.old.live
        → in_hand.DialsOne W.L.left W.L.taken W.L.held (in_hand.outside (W.dials dialer.old) (W.visits dialer.old)) (in_hand.outside (W.dials dialer.new) (W.visits dialer.new)) number (in_hand.upstream followed.old.upstream) old followed.new result }
{
    let answer = follow(alloc, followed, dialer);
    note_dial(number, followed);
    answer
}

// Puts the link of an upstream that has none.
fn put_live<W: Dialer>(followed: &mut Followed<W::L>, live: Option<Live<W::L>>, dialer: &mut W)
    requires { followed.old.live ≡ None }
    ensures put { followed.new ≡ record followed.old { live = live } }
    ensures apart { dialer.new ≡ dialer.old }
{
    let old = std::mem::replace(&mut followed.live, live);
    end_live(old, dialer);
}

/// Gives the link back, if there is one.
pub(crate) fn end_live<W: Dialer>(live: Option<Live<W::L>>, dialer: &mut W)
    ensures none { live ≡ None → dialer.new ≡ dialer.old }
    ensures back { IfSome live (λ l. in_hand.ComesBack W.L.left W.L.taken W.L.held W.L.read_faults W.L.write_faults l.session.link (W.visits dialer.old) (W.visits dialer.new)) }
    ensures apart { W.dials dialer.new ≡ W.dials dialer.old }
{
    if let Some(live) = live {
        let Live { session, watch } = live;
        drop(watch);
        give_back(dialer, session);
    }
}

/// Sends a PUT on, and gives the object of its reply; None where the upstream then is down.
pub(crate) fn send_put<W: Dialer>(
    followed: &mut Followed<W::L>,
    target: &Text,
    body: Option<&Obj>,
    dialer: &mut W,
) -> Result<Option<Obj>, AllocError>
    requires { IsSome followed.old.live }
    ensures same { followed.new.upstream ≡ followed.old.upstream }
    ensures failed { followed.new.failed ≡ followed.old.failed }
    ensures sends { (calls : List Call) → in_hand.Stands W.L.left W.L.taken W.L.held (in_hand.upstream followed.old.upstream) (Up calls) followed.old.live
        → in_hand.SendsOn W.L.left W.L.taken W.L.held (in_hand.outside (W.dials dialer.old) (W.visits dialer.old)) (in_hand.outside (W.dials dialer.new) (W.visits dialer.new)) (in_hand.upstream followed.old.upstream) calls (put_on target.now (option_copied body.entry)) followed.new.live result }
{
    let Some(live) = followed.live.take() else {
        return Ok(None);
    };
    let Live { mut session, watch } = live;
    match put(&mut session, followed.wait_ms, target, body) {
        Ok(reply) => {
            put_live(followed, Some(Live { session, watch }), dialer);
            Ok(Some(reply))
        }
        Err(fault) => {
            drop(watch);
            give_back(dialer, session);
            down(fault)
        }
    }
}
