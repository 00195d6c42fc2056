//! What the logs of histories show.
ghost use Rattle.std.specs.Prelude.{◌≡◌, ◌++◌, IfOk};
ghost use Rattle.ob_replies.specs.Histories.{span_children, query_child, feed_child};
ghost use Rattle.ob_site_rules.specs.Shown.{history_children};

use ob_history::{Log, Record, first_time, last_time};
use ob_object::Obj;
use ob_replies::build::{feed_at, op_at, put, timed};
use ob_replies::{Contract, below, count_child};
use ob_values::Text;
use std::alloc::{AllocError, Global};

/// All records that a history keeps, in two slices.
#[tactic(auto, using(crate::proofs::Spans::from_start))]
fn all_records<'a>(log: &'a Log) -> (&'a [Record], &'a [Record])
    ensures { result.0.now ++ result.1.now ≡ log.entry.now.kept }
{
    log.since(0)
}

/// How many records a history keeps, and the first and the last of their times.
fn span_children(alloc: Global, log: &Log) -> Result<Vec<Obj>, AllocError>
    ensures { IfOk result (λ os. os.items ≡ span_children log.now.kept) }
{
    let (front, back) = all_records(log);
    let first = first_time(front, back);
    let last = last_time(front, back);
    let mut children = Vec::new(alloc);
    put(&mut children, count_child(alloc, log.len())?)?;
    put(&mut children, timed(alloc, "start", first)?)?;
    put(&mut children, timed(alloc, "end", last)?)?;
    Ok(children)
}

/// The query of a history.
fn query_child(alloc: Global, path: &Text) -> Result<Obj, AllocError>
    ensures { IfOk result (λ o. o ≡ query_child path.now) }
{
    let path = below(alloc, path, "query")?;
    op_at(
        alloc,
        "query",
        path,
        Contract::HistoryFilter,
        Contract::HistoryQueryOut,
    )
}

/// The feed of a history.
fn feed_child(alloc: Global, path: &Text) -> Result<Obj, AllocError>
    ensures { IfOk result (λ o. o ≡ feed_child path.now) }
{
    let path = below(alloc, path, "feed")?;
    feed_at(
        alloc,
        "feed",
        path,
        Contract::HistoryRecord,
        Contract::HistoryFilter,
    )
}

/// What a history has of its kept records.
///
/// Source: oBIX 1.1, chapter 14 (History).
pub(crate) fn history_children(
    alloc: Global,
    path: &Text,
    log: &Log,
) -> Result<Vec<Obj>, AllocError>
    ensures { IfOk result (λ os. os.items ≡ history_children path.now log.now.kept) }
{
    let mut children = span_children(alloc, log)?;
    put(&mut children, query_child(alloc, path)?)?;
    put(&mut children, feed_child(alloc, path)?)?;
    Ok(children)
}
