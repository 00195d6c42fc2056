//! Why a stream of bytes goes on with no message.
use std::alloc::AllocError;
use thiserror::Error;

/// Why a stream of bytes goes on with no message.
#[derive(Clone, Copy, Debug, PartialEq, Eq, Error)]
pub enum FrameFault {
    /// No head begins with these bytes, or a whole one has more than 64 fields.
    #[error("Head")]
    Head,
    /// 8,192 bytes came, and no head ended in them.
    #[error("HeadBig")]
    HeadBig,
    /// A Transfer-Encoding field, or a reply without a Content-Length: the body's length isn't told.
    #[error("NoLength")]
    NoLength,
    /// A Content-Length that isn't 1 to 18 digits, or two that differ as numbers.
    #[error("Length")]
    Length,
    /// The body is longer than 1,048,576 bytes, or 16,777,216 in a reply.
    #[error("BodyBig")]
    BodyBig,
    /// There was no memory.
    #[error("Memory")]
    Memory,
}

impl From<AllocError> for FrameFault {
    ghost use Rattle.std.specs.Prelude.{◌≡◌};
    ghost use Rattle.ob_http.specs.declared.fault.FrameFault.TheVariants.{Memory};

    ghost from_gives = { λ _ e. e ≡ Memory };

    fn from(_: AllocError) -> FrameFault {
        FrameFault::Memory
    }
}
