//! What is fixed when a site is opened, and the logs of its histories.
ghost use Rattle.std.specs.Prelude.{◌≡◌, ◌++◌, ◌∷◌, [], false, map, filter, None, option_map, IfOk};
ghost use Rattle.ob_site_rules.specs.Loading.{about_texts, path_of, histories_in, root_lobby};
ghost use Rattle.ob_roles.specs.SiteParts.{part as site_part};
ghost use Rattle.ob_plain_state.specs.States.{entry_of, AreCounted};
ghost use Rattle.ob_site_file.specs.Opened.{history_entry, whole_log, rules_at, subject_of, plan_with};

use crate::about::put_about;
use crate::bad::subject_in;
use crate::histories::{log_of, source_path};
use crate::items::items_of;
use crate::nodes::nodes_of;
use crate::rules::put_rules;
use ob_href::Base;
use ob_object::Obj;
use ob_plain_state::OpenedLog;
use ob_roles::Part;
use ob_site_rules::{Fixed, Plan, PointRule};
use ob_times::Moment;
use ob_values::Text;
use std::alloc::{AllocError, Global};

fn path_of(part: &Part) -> Result<Text, AllocError>
    ensures { IfOk result (λ p. p ≡ path_of (site_part part.now)) }
{
    match part.own.head().node_path() {
        Some(path) => path.copy(),
        None => Ok(Text::empty()),
    }
}

// Puts the path of a part last, if it is a writable point.
fn put_point(points: &mut Vec<Text>, part: &Part) -> Result<(), AllocError>
    ensures { IfOk result (λ _. points.new.items ≡ points.old.items ++ map path_of (filter (λ p. p.roles.point) (site_part part.now ∷ []))) }
{
    if !part.roles.point {
        return Ok(());
    }
    let path = path_of(part)?;
    points.push(path)?;
    Ok(())
}

// Puts the paths of the writable points last.
fn put_points(points: &mut Vec<Text>, parts: &[Part]) -> Result<(), AllocError>
    ensures { IfOk result (λ _. points.new.items ≡ points.old.items ++ map path_of (filter (λ p. p.roles.point) (map site_part parts.now))) }
{
    for part in parts {
        put_point(points, part)?;
    }
    Ok(())
}

// The paths of the writable points.
fn points_of(alloc: Global, parts: &[Part]) -> Result<Fixed<Text>, AllocError>
    ensures { IfOk result (λ points. points ≡ map path_of (filter (λ p. p.roles.point) (map site_part parts.now))) }
{
    let mut points = Vec::new(alloc);
    put_points(&mut points, parts)?;
    Ok(Fixed::of(points))
}

// Puts the path of a part last, with that of its source, if it is a history.
fn put_history(histories: &mut Vec<(Text, Option<Text>)>, part: &Part) -> Result<(), AllocError>
    ensures { IfOk result (λ _. histories.new.items ≡ histories.old.items ++ map history_entry (histories_in (site_part part.now ∷ []))) }
{
    if !part.roles.history {
        return Ok(());
    }
    let source = source_path(part.own)?;
    let path = path_of(part)?;
    histories.push((path, source))?;
    Ok(())
}

fn put_histories(
    histories: &mut Vec<(Text, Option<Text>)>,
    parts: &[Part],
) -> Result<(), AllocError>
    ensures { IfOk result (λ _. histories.new.items ≡ histories.old.items ++ map history_entry (histories_in (map site_part parts.now))) }
{
    for part in parts {
        put_history(histories, part)?;
    }
    Ok(())
}

// The path of each history, with that of its source, if it has one.
fn histories_of(alloc: Global, parts: &[Part]) -> Result<Fixed<(Text, Option<Text>)>, AllocError>
    ensures { IfOk result (λ histories. histories ≡ map history_entry (histories_in (map site_part parts.now))) }
{
    let mut histories = Vec::new(alloc);
    put_histories(&mut histories, parts)?;
    Ok(Fixed::of(histories))
}

// What is fixed of a site of which only the root's path is known, whether it is a lobby, and when it is opened.
fn bare_plan(alloc: Global, base: Base, lobby: bool, boot: Moment) -> Result<Plan, AllocError>
    ensures { IfOk result (λ plan. plan ≡ record { base = base; root = base.path; boot = boot; lobby = lobby; points = []; histories = []; subject = None; rules = []; about = [] }) }
{
    let root = base.path(alloc)?;
    Ok(Plan {
        base,
        root,
        boot,
        lobby,
        points: Fixed::of(Vec::new(alloc)),
        histories: Fixed::of(Vec::new(alloc)),
        subject: None,
        rules: Fixed::of(Vec::new(alloc)),
        about: Fixed::of(Vec::new(alloc)),
    })
}

// The path of the alarm subject, if there is one.
fn subject_path(parts: &[Part]) -> Result<Option<Text>, AllocError>
    ensures { IfOk result (λ path. path ≡ option_map path_of (subject_of (map site_part parts.now))) }
{
    match subject_in(parts) {
        Some(subject) => {
            let path = path_of(subject)?;
            Ok(Some(path))
        }
        None => Ok(None),
    }
}

// Puts the rules of the alarm subject last, if there is one.
fn put_subject_rules(
    alloc: Global,
    rules: &mut Vec<PointRule>,
    parts: &[Part],
) -> Result<(), AllocError>
    ensures { IfOk result (λ _. rules.new.items ≡ rules.old.items ++ rules_at (map site_part parts.now) (subject_of (map site_part parts.now))) }
{
    let Some(subject) = subject_in(parts) else {
        return Ok(());
    };
    let nodes = nodes_of(alloc, parts)?;
    put_rules(rules, &nodes, items_of(subject, "rules").objects)?;
    Ok(())
}

// The rules of the alarm subject, if there is one.
fn rules_of(alloc: Global, parts: &[Part]) -> Result<Fixed<PointRule>, AllocError>
    ensures { IfOk result (λ rules. rules ≡ rules_at (map site_part parts.now) (subject_of (map site_part parts.now))) }
{
    let mut rules = Vec::new(alloc);
    put_subject_rules(alloc, &mut rules, parts)?;
    Ok(Fixed::of(rules))
}

// Whether the first part, which is the root, is a lobby.
fn is_lobby(parts: &[Part]) -> bool
    ensures { result ≡ root_lobby (map site_part parts.now) }
{
    match parts.first() {
        Some(root) => root.roles.lobby,
        None => false,
    }
}

// The texts of the About object that a site replaces, each behind its name.
fn about_of(alloc: Global, root: &Obj) -> Result<Fixed<(Text, Text)>, AllocError>
    ensures { IfOk result (λ about. about ≡ about_texts root.now) }
{
    let mut about = Vec::new(alloc);
    put_about(&mut about, root)?;
    Ok(Fixed::of(about))
}

/// What is fixed of a site whose root has these parts.
pub(crate) fn plan_of(
    alloc: Global,
    base: Base,
    root: &Obj,
    parts: &[Part],
    boot: Moment,
) -> Result<Plan, AllocError>
    ensures { IfOk result (λ plan. plan ≡ plan_with base boot root.now (map site_part parts.now)) }
{
    let subject = subject_path(parts)?;
    let mut plan = bare_plan(alloc, base, is_lobby(parts), boot)?;
    plan.subject = subject;
    plan.points = points_of(alloc, parts)?;
    plan.histories = histories_of(alloc, parts)?;
    plan.rules = rules_of(alloc, parts)?;
    plan.about = about_of(alloc, root)?;
    Ok(plan)
}

// Puts the log of a part last, if it is a history.
fn put_log(alloc: Global, logs: &mut Vec<(Text, OpenedLog)>, part: &Part) -> Result<(), AllocError>
    ensures logs { IfOk result (λ _. map entry_of logs.new.items ≡ map entry_of logs.old.items ++ map whole_log (histories_in (site_part part.now ∷ []))) }
    ensures counted { IfOk result (λ _. AreCounted (map entry_of logs.old.items) → AreCounted (map entry_of logs.new.items)) }
{
    if !part.roles.history {
        return Ok(());
    }
    let log = log_of(alloc, part)?;
    let path = path_of(part)?;
    logs.push((path, log))?;
    Ok(())
}

/// The logs of the histories among parts, each under its path.
pub(crate) fn logs_of(alloc: Global, parts: &[Part]) -> Result<Vec<(Text, OpenedLog)>, AllocError>
    ensures logs { IfOk result (λ logs. map entry_of logs.items ≡ map whole_log (histories_in (map site_part parts.now))) }
    ensures counted { IfOk result (λ logs. AreCounted (map entry_of logs.items)) }
{
    let mut logs = Vec::new(alloc);
    for part in parts {
        put_log(alloc, &mut logs, part)?;
    }
    Ok(logs)
}
