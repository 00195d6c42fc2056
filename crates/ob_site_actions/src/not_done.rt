//! Why a request did nothing.
use ob_site_rules::Fault;
use std::alloc::AllocError;

/// Why a request did nothing.
#[derive(Clone, Copy, PartialEq, Eq)]
pub enum NotDone {
    /// It is refused, and the state is as it was.
    Refused(Fault),
    /// There was no memory: `State::undo` gives the state back as it was.
    Memory,
}

impl From<AllocError> for NotDone {
    ghost use Rattle.std.specs.Prelude.{◌≡◌};
    ghost use Rattle.ob_site_actions.specs.declared.not_done.NotDone.TheVariants.{Memory};

    ghost from_gives = { λ _ e. e ≡ Memory };

    fn from(_: AllocError) -> NotDone {
        NotDone::Memory
    }
}
