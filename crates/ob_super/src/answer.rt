//! Rounds, and the replies to requests.
ghost use Rattle.std.specs.Prelude.{◌≡◌, IfOk, option_copied, unwrap_or, is_some};
ghost use Rattle.ob_values.specs.declared.verb.Verb.TheVariants.{Put};
ghost use Rattle.ob_super.specs.Supervised.{no_such_object, refused_at};
ghost use Rattle.ob_super.specs.Trees.{shown_in};
ghost use Rattle.ob_super.specs.InHand as in_hand;

use crate::refusal::{no_such_object, not_supported};
use crate::state::Super;
use ob_io::{Dialer, Link};
use ob_object::Obj;
use ob_values::Verb;
use std::alloc::AllocError;

impl<L: Link + Drop> Super<L> {
    // The reply to a GET.
    fn got(&self, path: &str) -> Result<Obj, AllocError>
        ensures { IfOk result (λ o. o ≡ unwrap_or (shown_in (in_hand.views self.now.followed.items) path.now) no_such_object) }
    {
        match self.shown(path)? {
            Some(object) => Ok(object),
            None => no_such_object(self.alloc),
        }
    }

    // The reply where the verb isn't for the place of this path, or the tree has no such place.
    fn refused(&self, path: &str) -> Result<Obj, AllocError>
        ensures { IfOk result (λ o. o ≡ refused_at (is_some (shown_in (in_hand.views self.now.followed.items) path.now))) }
    {
        match self.shown(path)? {
            Some(_) => not_supported(self.alloc),
            None => no_such_object(self.alloc),
        }
    }

    // The reply to a PUT.
    fn put_reply<W: Dialer<L = L>>(
        &mut self,
        dialer: &mut W,
        path: &str,
        body: Option<&Obj>,
    ) -> Result<Obj, AllocError>
        ensures same { in_hand.upstreams self.new.followed.items ≡ in_hand.upstreams self.old.followed.items }
        ensures past { in_hand.past self.new ≡ in_hand.past self.old }
        ensures replies { in_hand.RepliesAll L.left L.taken L.held (in_hand.outside (W.dials dialer.old) (W.visits dialer.old)) (in_hand.outside (W.dials dialer.new) (W.visits dialer.new)) self.old.followed.items self.new.followed.items (in_hand.request Put path.now (option_copied body.entry)) (in_hand.replied_by result) }
    {
        match self.put(dialer, path, body)? {
            Some(reply) => Ok(reply),
            None => self.refused(path),
        }
    }

    // The reply to a request.
    fn reply<W: Dialer<L = L>>(
        &mut self,
        dialer: &mut W,
        verb: Verb,
        path: &str,
        body: Option<&Obj>,
    ) -> Result<Obj, AllocError>
        ensures same { in_hand.upstreams self.new.followed.items ≡ in_hand.upstreams self.old.followed.items }
        ensures past { in_hand.past self.new ≡ in_hand.past self.old }
        ensures replies { in_hand.RepliesAll L.left L.taken L.held (in_hand.outside (W.dials dialer.old) (W.visits dialer.old)) (in_hand.outside (W.dials dialer.new) (W.visits dialer.new)) self.old.followed.items self.new.followed.items (in_hand.request verb path.now (option_copied body.entry)) (in_hand.replied_by result) }
    {
        match verb {
            Verb::Get => self.got(path),
            Verb::Put => self.put_reply(dialer, path, body),
            Verb::Post => self.refused(path),
        }
    }

    /// Has a round, and then replies to a request: to a GET what the tree shows at the place of this path, to a PUT what the
    /// upstream of the object that is held there replies, to every other verb on a place an err of a verb that isn't supported, and
    /// at every other path an err of an object that there isn't. Without memory an upstream in hand is down.
    pub fn answer<W: Dialer<L = L>>(
        &mut self,
        dialer: &mut W,
        verb: Verb,
        path: &str,
        body: Option<&Obj>,
    ) -> Result<Obj, AllocError>
        ensures same { in_hand.upstreams self.new.followed.items ≡ in_hand.upstreams self.old.followed.items }
        ensures answers { in_hand.AnswersAll L.left L.taken L.held (in_hand.outside (W.dials dialer.old) (W.visits dialer.old)) (in_hand.outside (W.dials dialer.new) (W.visits dialer.new)) self.old self.new (in_hand.request verb path.now (option_copied body.entry)) (in_hand.replied_by result) }
    {
        self.round(dialer)?;
        self.reply(dialer, verb, path, body)
    }

    /// Has so many rounds, one behind the other. Without memory in one of them there are no more, and its upstream in hand is down.
    pub fn rounds<W: Dialer<L = L>>(&mut self, dialer: &mut W, count: u32) -> Result<(), AllocError>
        ensures same { in_hand.upstreams self.new.followed.items ≡ in_hand.upstreams self.old.followed.items }
        ensures rounds { in_hand.ManyAll L.left L.taken L.held (in_hand.outside (W.dials dialer.old) (W.visits dialer.old)) (in_hand.outside (W.dials dialer.new) (W.visits dialer.new)) self.old self.new count result }
    {
        for _ in 0..count {
            self.round(dialer)?;
        }
        Ok(())
    }
}
