//! The whole site: its state in place, its watches with marks, and one step for each request.
//!
//! The contract of [`Site::step`] is the definition of a site's step (`ob_site_rules`). Nothing is copied: what a step
//! has changed is noted, so that want of memory takes it back.
//!
//! Behind a desk, what a pass has seen is a legal history from the state that the desk was opened with; here the laws of
//! watches are said of that history: each client that has replayed a stretch of it holds what is watched, and a watch that
//! is gone stays gone.
#![tactic(auto)]

mod acting;
mod changed;
mod ending;
mod keeper;
mod laws;
mod points;
mod quiet;
mod room;
mod serving;
mod site;
mod step;

ghost use Rattle.std.specs.Prelude.{◌≡◌, ◌++◌, ◌∷◌, [], length, IfOk, IfErr};
ghost use Rattle.ob_machine.specs.History.{entry, IsLegal};
ghost use Rattle.ob_site_laws.specs.Seen.{KeepsWatches};
ghost use Rattle.ob_site_laws.specs.SiteLaws.{acts, IsSoundSite};
ghost use Rattle.ob_turn.specs.Callers.{numbers_below, own, Strangers};
ghost use Rattle.ob_turn.specs.Standing.{mine};

pub use keeper::Keeper;
pub use laws::worked_polls;
pub use ob_machine::Machine;
use ob_object::Obj;
use ob_site_rules::Request;
use ob_times::Moment;
use ob_turn::{Answer, Desk, Pass};
pub use serving::{serve_alone, serve_link, serve_port};
pub use site::{Site, crosses_threads};
use std::alloc::{AllocError, Global};
use std::sync::Wait;

/// A desk with this site, which is sound, and the pass that has all shares. Where memory is wanting, the
/// site comes back as it was.
pub fn open_desk(alloc: Global, site: Site) -> Result<(Desk<Site>, Pass<Site>), (Site, AllocError)>
    ensures opening { IfOk result (λ made. made.0.opening ≡ site) }
    ensures sound { IfOk result (λ made. IsSoundSite made.0.opening) }
    ensures pass { IfOk result (λ made. made.1 ≡ record { table = made.0.table; numbers = numbers_below 4294967296; since = 0; seen = [] }) }
    ensures count { IfOk result (λ made. length made.1.numbers ≡ 4294967296) }
    ensures refused { IfErr result (λ refused. refused.0 ≡ site) }
{
    site.sound_law();
    Desk::new(alloc, site)
}

/// Of what a pass of a desk has seen, which is legal from the site that the desk was opened with, the laws
/// of watches hold, for each number of a watch and each stretch of it.
pub fn seen_is_lawful(desk: &Desk<Site>, pass: &Pass<Site>)
    requires sound { IsSoundSite desk.now.opening }
    requires legal { IsLegal acts desk.now.opening pass.now.seen }
    ensures { KeepsWatches desk.now.opening pass.now.seen }
{}

/// Asks the site one request under a pass, and the laws of watches hold of all that the pass has seen then.
pub fn ask<R: Wait>(
    rt: &R,
    desk: &Desk<Site>,
    pass: &mut Pass<Site>,
    request: &Request,
    moment: Moment,
) -> Answer<Obj>
    requires of { pass.old.table ≡ desk.now.table }
    requires sound { IsSoundSite desk.now.opening }
    ensures same { pass.new ≡ record pass.old { seen = pass.new.seen } }
    ensures seen { (between : _) × Strangers pass.old.numbers between × (pass.new.seen ≡ (pass.old.seen ++ between) ++ entry (own pass.old.numbers) request.now moment result ∷ []) }
    ensures legal { IsLegal acts desk.now.opening pass.new.seen }
    ensures calls { mine pass.new ≡ mine pass.old ++ entry (own pass.old.numbers) request.now moment result ∷ [] }
    ensures watches { KeepsWatches desk.now.opening pass.new.seen }
{
    let answer = desk.ask(rt, pass, request, moment);
    seen_is_lawful(desk, pass);
    answer
}
