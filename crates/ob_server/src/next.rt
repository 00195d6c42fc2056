//! The next request of a stream.
ghost use Rattle.ob_server.specs.Next.{SortsNext};

use crate::sort::{Sorted, sort_request};
use ob_http::{FrameFault, Framer};
use std::alloc::Global;

/// A request that was taken from its stream.
#[derive(Drop)]
pub struct Next {
    /// How it is to be answered.
    pub sorted: Sorted,
    /// Whether the client closes the connection behind it.
    pub close: bool,
}

/// Takes the request at the front, where a whole one stands there, and says how it is to be answered. The request is
/// sorted while the framer lends it. After a fault, and None, nothing has changed.
pub fn take_next(alloc: Global, framer: &mut Framer) -> Result<Option<Next>, FrameFault>
    ensures { SortsNext framer.old framer.new result }
{
    let seen = match framer.look() {
        Ok(Some(seen)) => seen,
        Ok(None) => return Ok(None),
        Err(fault) => return Err(fault),
    };
    let (close, len) = (seen.close, seen.len);
    let Ok(sorted) = sort_request(alloc, seen.method, seen.target, seen.media, seen.body) else {
        return Err(FrameFault::Memory);
    };
    framer.drop_front(len);
    Ok(Some(Next { sorted, close }))
}
