//! The children that the roles of a node derive, as far as their number of parts goes.
ghost use Rattle.std.specs.Prelude.{◌≡◌, ◌++◌, ◌∷◌, [], ◌&&◌, true, false, is_some, bytes_eq, cond, codes, map, List, ℕ, IfOk};
ghost use Rattle.ob_object.specs.Paths.{is_path, node_path};
ghost use Rattle.ob_site_rules.specs.Shown.{derived, derived_at};
ghost use Rattle.ob_site_rules.specs.State.{State as SiteState, at, is_among};
ghost use Rattle.ob_site_rules.specs.declared.plan.Plan.{Plan};
ghost use Rattle.ob_plain_state.specs.States.{entry_of};
ghost use Rattle.ob_site_file.specs.Sizes.{has_text, IsCounting, stand_in, stood, plain};

use ob_contracts::Library;
use ob_object::Attributes;
use ob_plain_state::OpenedLog;
use ob_site_rules::Plan;
use ob_values::Text;
use std::alloc::{AllocError, Global};
use std::collections::BTreeSet;

/// Texts, found in an order.
pub(crate) type Texts<'a> = BTreeSet<&'a str>;

/// What the parts of a site are counted by: its contracts, its plan, and the paths of its points and of its histories.
#[derive(Drop)]
pub(crate) struct Counting<'a> {
    pub(crate) library: &'a Library,
    plan: &'a Plan,
    points: Texts<'a>,
    histories: Texts<'a>,
}

// Texts as a set.
fn texts_of<'a>(alloc: Global, texts: &'a [Text]) -> Result<Texts<'a>, AllocError>
    ensures { IfOk result (λ set. (t : List ℕ) → has_text set t ≡ is_among t texts.now) }
{
    let mut set = BTreeSet::new(alloc);
    for text in texts {
        set.insert(text.as_str())?;
    }
    Ok(set)
}

// The paths of logs as a set.
fn paths_of<'a>(alloc: Global, logs: &'a [(Text, OpenedLog)]) -> Result<Texts<'a>, AllocError>
    ensures { IfOk result (λ set. (t : List ℕ) → has_text set t ≡ is_some (at t (map entry_of logs.now))) }
{
    let mut set = BTreeSet::new(alloc);
    for entry in logs {
        set.insert(entry.0.as_str())?;
    }
    Ok(set)
}

/// A child that roles derive: its name, and whether it is a ref.
#[derive(Clone, Copy)]
pub(crate) struct Derived {
    pub(crate) name: &'static str,
    pub(crate) is_ref: bool,
}

// Puts a child last.
fn put(list: &mut Vec<Derived>, name: &'static str, is_ref: bool) -> Result<(), AllocError>
    ensures { IfOk result (λ _. map stood list.new.items ≡ map stood list.old.items ++ stand_in is_ref name.now ∷ []) }
{
    list.push(Derived { name, is_ref })?;
    Ok(())
}

// Puts what a lobby has last, if it is one.
fn put_lobby(list: &mut Vec<Derived>, there: bool) -> Result<(), AllocError>
    ensures { IfOk result (λ _. map stood list.new.items ≡ map stood list.old.items ++ cond there (stand_in true (codes "about") ∷ stand_in false (codes "batch") ∷ stand_in true (codes "watchService") ∷ []) []) }
{
    if !there {
        return Ok(());
    }
    put(list, "about", true)?;
    put(list, "batch", false)?;
    put(list, "watchService", true)?;
    Ok(())
}

// Puts what a writable point has last, if it is one.
fn put_point(list: &mut Vec<Derived>, there: bool) -> Result<(), AllocError>
    ensures { IfOk result (λ _. map stood list.new.items ≡ map stood list.old.items ++ cond there (stand_in false (codes "writePoint") ∷ []) []) }
{
    if !there {
        return Ok(());
    }
    put(list, "writePoint", false)?;
    Ok(())
}

// Puts what a history has last, if it is one.
fn put_history(list: &mut Vec<Derived>, there: bool) -> Result<(), AllocError>
    ensures { IfOk result (λ _. map stood list.new.items ≡ map stood list.old.items
        ++ cond there (stand_in false (codes "count") ∷ stand_in false (codes "start") ∷ stand_in false (codes "end") ∷ stand_in false (codes "query") ∷ stand_in false (codes "feed") ∷ []) []) }
{
    if !there {
        return Ok(());
    }
    put(list, "count", false)?;
    put(list, "start", false)?;
    put(list, "end", false)?;
    put(list, "query", false)?;
    put(list, "feed", false)?;
    Ok(())
}

// Puts what the alarm subject has last, if it is that.
fn put_subject(list: &mut Vec<Derived>, there: bool) -> Result<(), AllocError>
    ensures { IfOk result (λ _. map stood list.new.items ≡ map stood list.old.items ++ cond there (stand_in false (codes "count") ∷ stand_in false (codes "query") ∷ stand_in false (codes "feed") ∷ []) []) }
{
    if !there {
        return Ok(());
    }
    put(list, "count", false)?;
    put(list, "query", false)?;
    put(list, "feed", false)?;
    Ok(())
}

impl<'a> Counting<'a> {
    /// What the parts of a site with this library, this plan and these logs are counted by.
    pub(crate) fn of(
        alloc: Global,
        library: &'a Library,
        plan: &'a Plan,
        logs: &'a [(Text, OpenedLog)],
    ) -> Result<Counting<'a>, AllocError>
        ensures library { IfOk result (λ c. c.library.now ≡ library.now) }
        ensures plan { IfOk result (λ c. c.plan.now ≡ plan.now) }
        ensures points { IfOk result (λ c. (t : List ℕ) → has_text c.points t ≡ is_among t plan.now.points) }
        ensures histories { IfOk result (λ c. (t : List ℕ) → has_text c.histories t ≡ is_some (at t (map entry_of logs.now))) }
    {
        let points = texts_of(alloc, plan.points.as_slice())?;
        let histories = paths_of(alloc, logs)?;
        Ok(Counting {
            library,
            plan,
            points,
            histories,
        })
    }

    fn is_lobby(&self, path: &Text) -> bool
        ensures { result ≡ (self.now.plan.now.lobby && bytes_eq path.now self.now.plan.now.root) }
    {
        self.plan.lobby && path.as_str() == self.plan.root.as_str()
    }

    fn is_point(&self, path: &Text) -> bool
        ensures { result ≡ has_text self.now.points path.now }
    {
        self.points.contains(path.as_str())
    }

    fn is_history(&self, path: &Text) -> bool
        ensures { result ≡ has_text self.now.histories path.now }
    {
        self.histories.contains(path.as_str())
    }

    fn is_subject(&self, path: &Text) -> bool
        ensures { result ≡ is_path path.now self.now.plan.now.subject }
    {
        match &self.plan.subject {
            Some(subject) => subject.as_str() == path.as_str(),
            None => false,
        }
    }
}

// Puts the children last that the roles of the node at a path derive.
fn put_derived(list: &mut Vec<Derived>, counting: &Counting, path: &Text) -> Result<(), AllocError>
    ensures { IfOk result (λ _. (plan : Plan) (s : SiteState) → IsCounting counting.now plan s → map stood list.new.items ≡ map stood list.old.items ++ map plain (derived_at plan s path.now)) }
{
    put_lobby(list, counting.is_lobby(path))?;
    put_point(list, counting.is_point(path))?;
    put_history(list, counting.is_history(path))?;
    put_subject(list, counting.is_subject(path))?;
    Ok(())
}

/// The children that the roles of an object derive.
pub(crate) fn derived_children(
    alloc: Global,
    counting: &Counting,
    head: &Attributes,
) -> Result<Vec<Derived>, AllocError>
    ensures { IfOk result (λ ds. (plan : Plan) (s : SiteState) → IsCounting counting.now plan s → map stood ds.items ≡ map plain (derived plan s (node_path head.now))) }
{
    let mut list = Vec::new(alloc);
    match head.node_path() {
        Some(path) => {
            put_derived(&mut list, counting, path)?;
            Ok(list)
        }
        None => Ok(list),
    }
}
