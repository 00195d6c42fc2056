//! Contracts of a library that are made anew.
ghost use Rattle.std.specs.Prelude.{◌≡◌, ◌≤◌, ◌<◌, None, Some, true, length, IfOk, OnOk, OnErr};
ghost use Rattle.ob_object.specs.Object.{Object, parts};
ghost use Rattle.ob_contracts.specs.Adding.{names_word, library_names};
ghost use Rattle.ob_contracts.specs.Index.{at_place};
ghost use Rattle.ob_contracts.specs.Inherit.{result_of};
ghost use Rattle.ob_contracts.specs.Renewing.{with_contract};

use crate::adding::result_of;
use crate::library::Library;
use crate::steps::Steps;
use ob_object::Obj;
use std::alloc::AllocError;
use std::sync::ledger::Ledger;

impl Library {
    /// Makes the contract of a place anew from an own object, by the contracts that the library has now, and gives the one that stood
    /// there. An error, which is only for want of memory, leaves all as it was. It counts one step for each part that is built.
    pub fn remake<L: Ledger>(
        &mut self,
        place: usize,
        own: &Obj,
        steps: &mut Steps<L>,
    ) -> Result<Obj, AllocError>
        requires within { place < length self.old }
        requires small { parts (result_of self.old own.now None None) ≤ 512 }
        ensures made { OnOk result (self.new ≡ with_contract place (result_of self.old own.now None None) self.old) }
        ensures old { IfOk result (λ old. at_place self.old place ≡ Some old) }
        ensures err { OnErr result (self.new ≡ self.old) }
    {
        let made = result_of(self, own, steps)?;
        self.put_at(place, own, made)
    }
}
