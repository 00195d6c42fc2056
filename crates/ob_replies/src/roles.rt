//! The children that the roles of a node derive.
ghost use Rattle.std.specs.Prelude.{◌≡◌, ◌<◌, ◌^◌, ◌∷◌, [], Some, codes, IsTrue, IfOk, option_map};
ghost use Rattle.ob_site_rules.specs.Build.{time_slot};
ghost use Rattle.ob_site_rules.specs.Shown.{lobby_children, write_point_op, count_child, subject_children};

use crate::build::{feed_at, op_at, put, ref_to};
use crate::contract::Contract;
use crate::fixed::batch_op;
use crate::paths::below;
use ob_object::{Attributes, Kind, Obj, Slot};
use ob_site_rules::Plan;
use ob_values::{Text, Value};
use std::alloc::{AllocError, Global};

/// What the root has as a lobby: About, the op of batches, and the watch service.
///
/// Source: oBIX 1.1, chapter 5 (Lobby).
pub fn lobby_children(alloc: Global, plan: &Plan) -> Result<Vec<Obj>, AllocError>
    ensures { IfOk result (λ os. os.items ≡ lobby_children plan.now) }
{
    let mut children = Vec::new(alloc);
    let about = plan.root.followed_by(alloc, "about")?;
    put(
        &mut children,
        ref_to(alloc, "about", about, Contract::About)?,
    )?;
    put(&mut children, batch_op(alloc, plan)?)?;
    let service = plan.root.followed_by(alloc, "watchService")?;
    put(
        &mut children,
        ref_to(alloc, "watchService", service, Contract::WatchService)?,
    )?;
    Ok(children)
}

/// The op of a writable point.
///
/// Source: oBIX 1.1, chapter 13 (Points).
pub fn write_point_op(alloc: Global, point: &Text) -> Result<Obj, AllocError>
    ensures { IfOk result (λ o. o ≡ write_point_op point.now) }
{
    let path = below(alloc, point, "writePoint")?;
    op_at(
        alloc,
        "writePoint",
        path,
        Contract::WritePointIn,
        Contract::Point,
    )
}

/// How many records or alarms there are, which is never below 0.
pub fn count_child(alloc: Global, count: u64) -> Result<Obj, AllocError>
    requires { count < 2 ^ 63 }
    ensures { IfOk result (λ o. o ≡ count_child count) }
{
    let name = Text::from_ascii(alloc, "count")?;
    let mut head = Attributes::empty(alloc, Kind::Int);
    head.put_name(Some(name));
    head.put_slot(Slot::Is(Value::Int(count as i64)));
    head.put_min(Some(Value::Int(0)));
    Ok(Obj::from_attributes(alloc, head))
}

/// What the alarm subject has of the alarms, of which there are so many.
///
/// Source: oBIX 1.1, chapter 15 (AlarmSubject).
pub fn subject_children(alloc: Global, path: &Text, alarms: u64) -> Result<Vec<Obj>, AllocError>
    requires { alarms < 2 ^ 63 }
    ensures { IfOk result (λ os. os.items ≡ subject_children path.now alarms) }
{
    let mut children = Vec::new(alloc);
    put(&mut children, count_child(alloc, alarms)?)?;
    let query = below(alloc, path, "query")?;
    let filter = Contract::AlarmFilter;
    put(
        &mut children,
        op_at(alloc, "query", query, filter, Contract::AlarmQueryOut)?,
    )?;
    let feed = below(alloc, path, "feed")?;
    put(
        &mut children,
        feed_at(alloc, "feed", feed, Contract::Alarm, filter)?,
    )?;
    Ok(children)
}
