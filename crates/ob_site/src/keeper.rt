//! Who keeps what a site does, so that another life of the site may go on with it.
ghost use Rattle.std.specs.Prelude.{◌≡◌, ℕ, ⊤, ◌-◌, ◌^◌, OnOk, OnErr};
ghost use Rattle.ob_object.specs.Object.{Object};
ghost use Rattle.ob_site_rules.specs.declared.request.Request.{Request as Asked};

use ob_object::Obj;
use ob_site_rules::Request;
use ob_times::Moment;
use std::alloc::AllocError;

/// Who keeps what the steps of a site do, each before anything of it counts: the requests that may have changed the site, and of
/// watches nothing but which numbers may have been given.
pub trait Keeper {
    /// Whether it can be asked to keep something.
    ghost is_ready: { Self → Type 0 };

    /// The first number of a watch that can't have been given, by what is kept.
    ghost below: { Self → ℕ };

    /// What it is after it has kept a request, the site's time at it, the number of the next watch after it, and the reply.
    ghost keeps: { Self → Self → Asked → ℕ → ℕ → Object → Type 0 };

    /// What it may be after an error in that.
    ghost may_keep: { Self → Self → Asked → ℕ → ℕ → Object → Type 0 };

    /// The first number of a watch that can't have been given, by what is kept.
    fn below(&self) -> u64
        ensures { result ≡ below self.now };

    /// Keeps a request that is about to have this reply, at the site's time; the next watch after it will have this number. At an
    /// error the request has no effect on the site.
    fn keep(
        &mut self,
        request: &Request,
        time: Moment,
        next: u64,
        reply: &Obj,
    ) -> Result<(), AllocError>
        requires ready { is_ready self.old }
        ensures done { OnOk result (keeps self.old self.new request.now time next reply.now) }
        ensures err { OnErr result (may_keep self.old self.new request.now time next reply.now) };
}

/// It keeps nothing.
#[derive(Drop)]
pub(crate) struct Nobody;

impl Keeper for Nobody {
    ghost is_ready = { λ k. ⊤ };

    ghost below = { λ k. 2 ^ 64 - 1 };

    ghost keeps = { λ k l request time next reply. l ≡ k };

    ghost may_keep = { λ k l request time next reply. ⊥ };

    fn below(&self) -> u64 {
        u64::MAX
    }

    fn keep(
        &mut self,
        _request: &Request,
        _time: Moment,
        _next: u64,
        _reply: &Obj,
    ) -> Result<(), AllocError> {
        Ok(())
    }
}
