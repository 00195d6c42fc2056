//! Replies cut from a stream of bytes that comes in pieces.
ghost use Rattle.std.specs.Prelude.{◌≡◌, ◌++◌, ◌≤◌, List, ℕ, [], length, drop, is_ok, IfOk, IfSome, if◌then◌else◌};
ghost use Rattle.ob_http.specs.Reply.{Response, ReplyStands};
ghost use Rattle.ob_http.specs.Replies.{reply_front_of, AreTaken, TakesReply, TakesNextReply};

use crate::buffer::Buffer;
use crate::fault::FrameFault;
use crate::reply::Reply;
use crate::reply_head::{ReplyPlace, SeenReply, look_at_reply, read_reply_head, read_reply_on};
use ob_values::Bytes;
use std::alloc::{AllocError, Global};
use std::marker::Model;

/// The bytes of a server that were not taken yet, and the reply at their front.
///
/// A contract sees the bytes that are kept.
pub struct ReplyFramer {
    alloc: Global,
    buffer: Buffer,
    known: Result<Option<ReplyPlace>, FrameFault>,
}

impl Drop for ReplyFramer {
    // By one call, so that to drop a framer is one call to whoever may have to.
    fn drop(self) {
        let ReplyFramer {
            alloc: _,
            buffer,
            known: _,
        } = self;
        drop(buffer);
    }
}

impl Model for ReplyFramer {
    ghost use Rattle.std.specs.Prelude.{List, ℕ};
    ghost use Rattle.ob_http.specs.Known.{KnowsReply};

    ghost Value = { List ℕ };

    ghost view = { λ f. f.buffer };

    ghost invariant = { λ f. KnowsReply f.buffer f.known };
}

impl ReplyFramer {
    /// A framer of a stream of which nothing came yet.
    pub fn new(alloc: Global) -> Result<ReplyFramer, AllocError>
        ensures empty { IfOk result (λ framer. framer ≡ []) }
        ensures taken { IfOk result (λ framer. AreTaken [] [] framer) }
    {
        let buffer = Buffer::new(alloc)?;
        let known = read_reply_head(buffer.as_slice());
        Ok(ReplyFramer {
            alloc,
            buffer,
            known,
        })
    }

    /// Puts the next piece of the stream behind what is kept; after an error nothing has changed.
    pub fn feed(&mut self, piece: &[u8]) -> Result<(), AllocError>
        ensures kept { self.new ≡ (if is_ok result then self.old ++ piece.now else self.old) }
        ensures taken { (stream : List ℕ) (replies : List Response) → AreTaken stream replies self.old
            → AreTaken (if is_ok result then stream ++ piece.now else stream) replies self.new }
    {
        self.buffer.push(piece)?;
        self.known = read_reply_on(self.known, self.buffer.as_slice());
        Ok(())
    }

    /// Takes the reply at the front, where a whole one stands there. A fault other than Memory
    /// stays, and each later take gives it again; after any fault, and None, nothing has changed.
    pub fn take(&mut self) -> Result<Option<Reply>, FrameFault>
        ensures takes { TakesReply self.old self.new result }
        ensures next { (stream : List ℕ) (replies : List Response) → AreTaken stream replies self.old
            → TakesNextReply stream replies self.old self.new result }
    {
        self.take_front()
    }

    fn take_front(&mut self) -> Result<Option<Reply>, FrameFault>
        ensures { TakesReply self.old self.new result }
    {
        let Some(seen) = self.front()? else {
            return Ok(None);
        };
        let reply = copy_reply(self.alloc, &seen)?;
        let len = seen.len;
        self.drop_front(len);
        Ok(Some(reply))
    }

    fn front(&self) -> Result<Option<SeenReply<'_>>, FrameFault>
        ensures stands { ReplyStands self.now (reply_front_of result) }
        ensures within { IfOk result (λ next. IfSome next (λ seen. seen.len ≤ length self.now)) }
    {
        look_at_reply(self.known, self.buffer.as_slice())
    }

    fn drop_front(&mut self, len: usize)
        requires { len ≤ length self.old }
        ensures { self.new ≡ drop len self.old }
    {
        self.buffer.drop_front(len);
        self.known = read_reply_head(self.buffer.as_slice());
    }
}

/// A copy of the reply that holds its own bytes.
fn copy_reply(alloc: Global, seen: &SeenReply<'_>) -> Result<Reply, AllocError>
    ensures { IfOk result (λ reply. (reply.status ≡ seen.now.status) × (reply.body ≡ seen.now.body.now)) }
{
    let body = Vec::from_slice(alloc, seen.body)?;
    Ok(Reply {
        status: seen.status,
        body: Bytes::new(body),
    })
}
