//! The supervisor.
ghost use Rattle.std.specs.Prelude.{◌≡◌, ◌<◌, ◌++◌, ℕ, List, [], ◌∷◌, None, Some, IsSome, IfSome, IsOk, IfOk, OnOk, is_some, option_copied, option_map, slice_get, length};
ghost use Rattle.ob_client.specs.Mirrors.{found};
ghost use Rattle.ob_asking.specs.Places.{place_at};
ghost use Rattle.ob_super.specs.Calls.{Call};
ghost use Rattle.ob_super.specs.Trees.{object_at, entry_in, with_children, subtree, shown_among, shown_in};
ghost use Rattle.ob_super.specs.Turns.{Up};
ghost use Rattle.ob_super.specs.Dialling.{is_no_sooner, next_place, none_failed, next_dial};
ghost use Rattle.std.specs.List.{list_all};
ghost use Rattle.ob_super.specs.InHand as in_hand;

use crate::config::upstreams;
use crate::config_fault::ConfigFault;
use crate::live::{dial, end_live, poll_if_up, send_put};
use crate::place::{ROOT, behind_list, is_list_path, is_number, object_path};
use crate::refusal::{err, not_supported};
use crate::state::Super;
use crate::tree::{placed, placed_at, subtree, tree};
use crate::upstream::{Followed, Upstream};
use ob_asking::place_at;
use ob_client::Mirror;
use ob_io::{Dialer, Link};
use ob_object::Obj;
use ob_values::Text;
use std::alloc::{AllocError, Global};

// The place of the href of an upstream whose object is held, and has this path.
fn held_place<L>(followed: &Followed<L>, path: &str) -> Option<usize>
    ensures live { IsSome result → IsSome followed.now.live }
    ensures finds { in_hand.FindsEntry (in_hand.upstream followed.now.upstream) (in_hand.held_now followed.now.live) path.now result }
{
    let Some(live) = &followed.live else {
        return None;
    };
    held_among(&followed.upstream, &live.watch.mirror, path)
}

// The same of what a mirror holds.
fn held_among(upstream: &Upstream, mirror: &Mirror, path: &str) -> Option<usize>
    ensures { in_hand.FindsEntry (in_hand.upstream upstream.now) mirror.now.held path.now result }
{
    let Some(rest) = behind_list(&upstream.name, path) else {
        return None;
    };
    for place in 0..upstream.hrefs.len() {
        if is_number(rest, place) && holds(mirror, &upstream.hrefs[place]) {
            return Some(place);
        }
    }
    None
}

// Whether something is held under an href.
fn holds(mirror: &Mirror, href: &Text) -> bool
    ensures { result ≡ is_some (found href.now mirror.now.held) }
{
    mirror.get(href.as_str()).is_some()
}

// What an upstream shows at the path of one of its objects.
fn object_shown<L>(
    alloc: Global,
    followed: &Followed<L>,
    path: &str,
) -> Result<Option<Obj>, AllocError>
    ensures { IfOk result (λ o. o ≡ option_map (λ e. e.object) (entry_in (in_hand.upstream followed.now.upstream) (in_hand.held_now followed.now.live) path.now)) }
{
    let Some(live) = &followed.live else {
        return Ok(None);
    };
    match held_among(&followed.upstream, &live.watch.mirror, path) {
        Some(place) => placed_at(alloc, &followed.upstream, &live.watch.mirror, place),
        None => Ok(None),
    }
}

// What an upstream shows at a path.
fn shown_of<L>(alloc: Global, followed: &Followed<L>, path: &str) -> Result<Option<Obj>, AllocError>
    ensures { IfOk result (λ o. o ≡ shown_among (with_children (subtree (in_hand.view followed.now))) path.now) }
{
    if is_list_path(&followed.upstream.name, path) {
        return Ok(Some(subtree(alloc, followed)?));
    }
    object_shown(alloc, followed, path)
}

// Sends a PUT on to the href at a place of an upstream that is up.
fn put_at<W: Dialer>(
    alloc: Global,
    followed: &mut Followed<W::L>,
    place: usize,
    dialer: &mut W,
    body: Option<&Obj>,
) -> Result<Obj, AllocError>
    requires live { IsSome followed.old.live }
    requires there { place < length followed.old.upstream.hrefs.items }
    ensures same { followed.new.upstream ≡ followed.old.upstream }
    ensures failed { followed.new.failed ≡ followed.old.failed }
    ensures puts { (calls : List Call) → (href : List ℕ) → in_hand.Stands W.L.left W.L.taken W.L.held (in_hand.upstream followed.old.upstream) (Up calls) followed.old.live
        → slice_get followed.old.upstream.hrefs.items place ≡ Some href
        → in_hand.MayPut W.L.left W.L.taken W.L.held (in_hand.outside (W.dials dialer.old) (W.visits dialer.old)) (in_hand.outside (W.dials dialer.new) (W.visits dialer.new)) (in_hand.upstream followed.old.upstream) calls (object_at followed.old.upstream.name place) (place_at followed.old.upstream.lobby.url href) (option_copied body.entry) followed.new.live result }
{
    let path = object_path(alloc, &followed.upstream.name, place)?;
    let upstream = &followed.upstream;
    let href = upstream.hrefs[place].as_str();
    let Some(asked) = place_at(alloc, &upstream.lobby.url, href)? else {
        return not_supported(alloc);
    };
    let target = asked.into_target();
    match send_put(followed, &target, body, dialer)? {
        Some(reply) => placed(alloc, &reply, path),
        None => err(alloc, "upstream down"),
    }
}

// Whether another upstream doesn't wait for a dial, or its last dial that failed was in no earlier round.
fn is_no_sooner<L>(followed: &Followed<L>, other: &Followed<L>) -> bool
    ensures { result ≡ is_no_sooner (in_hand.state followed.now) (in_hand.state other.now) }
{
    !other.waits || followed.failed <= other.failed
}

// The same of each of these.
fn are_no_sooner<L>(followed: &Followed<L>, behind: &[Followed<L>]) -> bool
    ensures { result ≡ list_all (is_no_sooner (in_hand.state followed.now)) (in_hand.states behind.now) }
{
    for other in behind {
        if !is_no_sooner(followed, other) {
            return false;
        }
    }
    true
}

// The first place, of those that wait for a dial, where the last dial that failed is the longest ago.
fn next_place<L>(all: &[Followed<L>]) -> Option<usize>
    ensures next { result ≡ next_place (in_hand.states all.now) }
    ensures there { IfSome result (λ place. place < length all.now) }
{
    let Some((first, rest)) = all.split_first() else {
        return None;
    };
    if first.waits && are_no_sooner(first, rest) {
        return Some(0);
    }
    match next_place(rest) {
        Some(place) => Some(place + 1),
        None => None,
    }
}

// Whether no dial of the round of this number left one down.
fn none_failed<L>(number: u64, all: &[Followed<L>]) -> bool
    ensures { result ≡ none_failed number (in_hand.states all.now) }
{
    for followed in all {
        if followed.failed == number {
            return false;
        }
    }
    true
}

// Which place is dialled next in the round of this number.
fn next_dial<L>(number: u64, all: &[Followed<L>]) -> Option<usize>
    ensures next { result ≡ next_dial number (in_hand.states all.now) }
    ensures there { IfSome result (λ place. place < length all.now) }
{
    if number == 1 || none_failed(number, all) {
        return next_place(all);
    }
    None
}

// Asks each upstream that is up for its changes, in order; the others wait for a dial.
fn poll_over<W: Dialer>(
    alloc: Global,
    all: &mut [Followed<W::L>],
    dialer: &mut W,
) -> Result<(), AllocError>
    ensures same { in_hand.upstreams all.new ≡ in_hand.upstreams all.old }
    ensures fails { in_hand.fails all.new ≡ in_hand.fails all.old }
    ensures begun { IsOk result → in_hand.states all.new ≡ in_hand.all_begun all.old }
    ensures polls { in_hand.PollsOver W.L.left W.L.taken W.L.held (in_hand.outside (W.dials dialer.old) (W.visits dialer.old)) (in_hand.outside (W.dials dialer.new) (W.visits dialer.new)) all.old all.new result }
{
    let Some((first, rest)) = all.split_first_mut() else {
        return Ok(());
    };
    poll_if_up(alloc, first, dialer)?;
    poll_over(alloc, rest, dialer)
}

// Has the part of the round of this number with the upstream at a place.
fn dial_at<W: Dialer>(
    alloc: Global,
    number: u64,
    place: usize,
    all: &mut [Followed<W::L>],
    dialer: &mut W,
) -> Result<(), AllocError>
    requires there { place < length all.old }
    ensures same { in_hand.upstreams all.new ≡ in_hand.upstreams all.old }
    ensures spent { in_hand.IsSpent place (in_hand.states all.old) (in_hand.states all.new) }
    ensures dials { in_hand.DialsAt W.L.left W.L.taken W.L.held (in_hand.outside (W.dials dialer.old) (W.visits dialer.old)) (in_hand.outside (W.dials dialer.new) (W.visits dialer.new)) number place all.old all.new result }
{
    let Some((first, rest)) = all.split_first_mut() else {
        return Ok(());
    };
    if place == 0 {
        return dial(alloc, number, first, dialer);
    }
    dial_at(alloc, number, place - 1, rest, dialer)
}

// Dials upstreams in the round of this number, as long as one is next.
fn dial_over<W: Dialer>(
    alloc: Global,
    number: u64,
    all: &mut [Followed<W::L>],
    dialer: &mut W,
) -> Result<(), AllocError>
    ensures same { in_hand.upstreams all.new ≡ in_hand.upstreams all.old }
    ensures dials { in_hand.DialsOver W.L.left W.L.taken W.L.held (in_hand.outside (W.dials dialer.old) (W.visits dialer.old)) (in_hand.outside (W.dials dialer.new) (W.visits dialer.new)) number all.old all.new result }
{
    let Some(place) = next_dial(number, all) else {
        return Ok(());
    };
    dial_at(alloc, number, place, all, dialer)?;
    dial_over(alloc, number, all, dialer)
}

// Has the round of this number over upstreams.
fn round_over<W: Dialer>(
    alloc: Global,
    number: u64,
    all: &mut [Followed<W::L>],
    dialer: &mut W,
) -> Result<(), AllocError>
    ensures same { in_hand.upstreams all.new ≡ in_hand.upstreams all.old }
    ensures rounds { in_hand.RoundsOver W.L.left W.L.taken W.L.held (in_hand.outside (W.dials dialer.old) (W.visits dialer.old)) (in_hand.outside (W.dials dialer.new) (W.visits dialer.new)) number all.old all.new result }
{
    poll_over(alloc, all, dialer)?;
    dial_over(alloc, number, all, dialer)
}

// Takes an upstream down.
fn take_down<W: Dialer>(followed: &mut Followed<W::L>, dialer: &mut W)
    ensures down { followed.new ≡ record followed.old { live = None } }
    ensures none { followed.old.live ≡ None → dialer.new ≡ dialer.old }
    ensures back { IfSome followed.old.live (λ l. in_hand.ComesBack W.L.left W.L.taken W.L.held W.L.read_faults W.L.write_faults l.session.link (W.visits dialer.old) (W.visits dialer.new)) }
    ensures apart { W.dials dialer.new ≡ W.dials dialer.old }
{
    let live = followed.live.take();
    end_live(live, dialer);
}

// The same as `put_at`; without memory the upstream is down.
fn put_or_down<W: Dialer>(
    alloc: Global,
    followed: &mut Followed<W::L>,
    place: usize,
    dialer: &mut W,
    body: Option<&Obj>,
) -> Result<Option<Obj>, AllocError>
    requires live { IsSome followed.old.live }
    requires there { place < length followed.old.upstream.hrefs.items }
    ensures same { followed.new.upstream ≡ followed.old.upstream }
    ensures failed { followed.new.failed ≡ followed.old.failed }
    ensures puts { (calls : List Call) → (href : List ℕ) → in_hand.Stands W.L.left W.L.taken W.L.held (in_hand.upstream followed.old.upstream) (Up calls) followed.old.live
        → slice_get followed.old.upstream.hrefs.items place ≡ Some href
        → in_hand.PutsTo W.L.left W.L.taken W.L.held (in_hand.outside (W.dials dialer.old) (W.visits dialer.old)) (in_hand.outside (W.dials dialer.new) (W.visits dialer.new)) (in_hand.upstream followed.old.upstream) calls (object_at followed.old.upstream.name place) (place_at followed.old.upstream.lobby.url href) (option_copied body.entry) followed.new.live result }
{
    match put_at(alloc, followed, place, dialer, body) {
        Ok(reply) => Ok(Some(reply)),
        Err(AllocError) => {
            take_down(followed, dialer);
            Err(AllocError)
        }
    }
}

// An upstream that is down stands last.
fn push_down<L: Drop>(
    all: &mut Vec<Followed<L>>,
    upstream: Upstream,
    wait_ms: u32,
) -> Result<(), AllocError>
    ensures { OnOk result (all.new.items ≡ all.old.items ++ in_hand.down wait_ms upstream ∷ []) }
{
    all.push(Followed {
        upstream,
        wait_ms,
        waits: false,
        failed: 0,
        live: None,
    })?;
    Ok(())
}

// Upstreams that are down.
fn all_down<L: Drop>(
    alloc: Global,
    upstreams: Vec<Upstream>,
    wait_ms: u32,
) -> Result<Vec<Followed<L>>, AllocError>
    ensures { IfOk result (λ all. in_hand.AreDown wait_ms upstreams.items all.items) }
{
    let mut all = Vec::new(alloc);
    for upstream in upstreams {
        push_down(&mut all, upstream, wait_ms)?;
    }
    Ok(all)
}

// Sends a PUT on to the first of upstreams that holds an object at this path.
fn put_over<W: Dialer>(
    alloc: Global,
    all: &mut [Followed<W::L>],
    dialer: &mut W,
    path: &str,
    body: Option<&Obj>,
) -> Result<Option<Obj>, AllocError>
    ensures same { in_hand.upstreams all.new ≡ in_hand.upstreams all.old }
    ensures fails { in_hand.fails all.new ≡ in_hand.fails all.old }
    ensures puts { in_hand.PutsAll W.L.left W.L.taken W.L.held (in_hand.outside (W.dials dialer.old) (W.visits dialer.old)) (in_hand.outside (W.dials dialer.new) (W.visits dialer.new)) all.old all.new path.now (option_copied body.entry) result }
{
    let Some((first, rest)) = all.split_first_mut() else {
        return Ok(None);
    };
    match held_place(first, path) {
        Some(place) => put_or_down(alloc, first, place, dialer, body),
        None => put_over(alloc, rest, dialer, path, body),
    }
}

// Gives the links of upstreams back, in order.
fn end_over<W: Dialer>(all: &mut [Followed<W::L>], dialer: &mut W)
    ensures { in_hand.EndsAll W.L.left W.L.taken W.L.held (in_hand.outside (W.dials dialer.old) (W.visits dialer.old)) (in_hand.outside (W.dials dialer.new) (W.visits dialer.new)) all.old }
{
    let Some((first, rest)) = all.split_first_mut() else {
        return;
    };
    take_down(first, dialer);
    end_over(rest, dialer)
}

// What the first of upstreams that has a place of this path shows there.
fn shown_over<L>(alloc: Global, all: &[Followed<L>], path: &str) -> Result<Option<Obj>, AllocError>
    ensures { IfOk result (λ shown. shown ≡ in_hand.shown_over all.now path.now) }
{
    for followed in all {
        if let Some(shown) = shown_of(alloc, followed, path)? {
            return Ok(Some(shown));
        }
    }
    Ok(None)
}

impl<L: Link + Drop> Super<L> {
    /// Follows the upstreams of a config, each of which is down. Each of these may take so many milliseconds: a poll; a dial with all
    /// that then opens a watch; a PUT that is sent on. Shape where a part of the config isn't as it has to be, with the
    /// number of the first such part.
    pub fn new(alloc: Global, config: &Obj, wait_ms: u32) -> Result<Super<L>, ConfigFault>
        ensures configured { in_hand.Configures config.now wait_ms result }
    {
        match upstreams(alloc, config) {
            Ok(upstreams) => {
                let followed = all_down(alloc, upstreams, wait_ms)?;
                Ok(Super {
                    alloc,
                    followed,
                    rounds: 0,
                })
            }
            Err(fault) => Err(fault),
        }
    }

    /// Has a round over the upstreams. Each that is up is asked for its changes, in order. Then those that were down before the round
    /// are dialled, one after the other, and a watch is opened over the link: first those whose last dial didn't fail, in order, then
    /// the others, the one whose last dial failed longest ago first. After the first round dialling ends with the first one that
    /// stays down. Without memory the upstream in hand is down.
    pub fn round<W: Dialer<L = L>>(&mut self, dialer: &mut W) -> Result<(), AllocError>
        ensures same { in_hand.upstreams self.new.followed.items ≡ in_hand.upstreams self.old.followed.items }
        ensures rounds { in_hand.RoundsAll L.left L.taken L.held (in_hand.outside (W.dials dialer.old) (W.visits dialer.old)) (in_hand.outside (W.dials dialer.new) (W.visits dialer.new)) self.old self.new result }
    {
        self.rounds = self.rounds.saturating_add(1);
        round_over(self.alloc, self.rounds, &mut self.followed, dialer)
    }

    /// What the tree shows at the place of this path; None where it has no such place.
    pub fn shown(&self, path: &str) -> Result<Option<Obj>, AllocError>
        ensures { IfOk result (λ shown. shown ≡ shown_in (in_hand.views self.now.followed.items) path.now) }
    {
        if path == ROOT {
            return Ok(Some(tree(self.alloc, &self.followed)?));
        }
        shown_over(self.alloc, &self.followed, path)
    }

    /// Sends a PUT on to the upstream of an object that is held at this path; None where none is held there. The reply stands at
    /// that path; where the call fails, the upstream is down, and the reply is the err `upstream down`. Where the href that was
    /// asked leads to no place of the upstream's server, nothing is sent, and the reply is the err of a verb that isn't supported.
    /// Without memory the upstream is down.
    pub fn put<W: Dialer<L = L>>(
        &mut self,
        dialer: &mut W,
        path: &str,
        body: Option<&Obj>,
    ) -> Result<Option<Obj>, AllocError>
        ensures same { in_hand.upstreams self.new.followed.items ≡ in_hand.upstreams self.old.followed.items }
        ensures past { in_hand.past self.new ≡ in_hand.past self.old }
        ensures puts { in_hand.PutsAll L.left L.taken L.held (in_hand.outside (W.dials dialer.old) (W.visits dialer.old)) (in_hand.outside (W.dials dialer.new) (W.visits dialer.new)) self.old.followed.items self.new.followed.items path.now (option_copied body.entry) result }
    {
        put_over(self.alloc, &mut self.followed, dialer, path, body)
    }

    /// Gives every link back.
    pub fn end<W: Dialer<L = L>>(self, dialer: &mut W)
        ensures { in_hand.EndsAll L.left L.taken L.held (in_hand.outside (W.dials dialer.old) (W.visits dialer.old)) (in_hand.outside (W.dials dialer.new) (W.visits dialer.new)) self.followed.items }
    {
        let Super {
            alloc: _,
            mut followed,
            rounds: _,
        } = self;
        end_over(&mut followed, dialer);
        drop(followed);
    }
}
