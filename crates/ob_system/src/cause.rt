//! The causes that errors of std tell.
ghost use Rattle.std.specs.Prelude.{◌≡◌};
ghost use Rattle.ob_system.specs.Causes.{cause_of};

use ob_io::Cause;
use std::io::ErrorKind;

/// The cause that a kind of error tells: `missing` where a name leads nowhere, and `held` where the call would have to wait.
pub(crate) fn cause_of(kind: ErrorKind, missing: Cause, held: Cause) -> Cause
    ensures { result ≡ cause_of kind missing held }
{
    match kind {
        ErrorKind::AddrInUse => Cause::InUse,
        ErrorKind::AddrNotAvailable => Cause::NotHere,
        ErrorKind::PermissionDenied | ErrorKind::ReadOnlyFilesystem => Cause::NotAllowed,
        ErrorKind::StorageFull | ErrorKind::QuotaExceeded => Cause::Full,
        ErrorKind::NotADirectory => Cause::NoFolder,
        ErrorKind::IsADirectory => Cause::IsFolder,
        ErrorKind::NotFound => missing,
        ErrorKind::WouldBlock => held,
        _ => Cause::Untold,
    }
}
