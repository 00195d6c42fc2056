//! How a dialogue is led.
ghost use Rattle.std.specs.Prelude.{◌≡◌, ◌-◌, ◌<◌};

use crate::plan::DialoguePlan;
use std::alloc::Global;

/// A dialogue by a plan, of which so many broken polls may still be mended.
#[derive(Clone, Copy)]
pub(crate) struct Talk<'p> {
    pub(crate) alloc: Global,
    pub(crate) plan: &'p DialoguePlan,
    pub(crate) retries: u64,
}

impl<'p> Talk<'p> {
    /// The dialogue once a broken poll is mended.
    pub(crate) fn mended(self) -> Talk<'p>
        requires { 0 < self.retries }
        ensures { result ≡ record self.entry { retries = self.entry.retries - 1 } }
    {
        Talk {
            alloc: self.alloc,
            plan: self.plan,
            retries: self.retries - 1,
        }
    }
}
