//! Filters and queries read from objects.
ghost use Rattle.std.specs.Prelude.{◌≡◌, option_map};
ghost use Rattle.ob_history.specs.Filters.{filter_of, limit_of, bound_of};
ghost use Rattle.ob_history.specs.Queries.{number_in, number_of, query_of};

use crate::records::{Filter, Query};
use ob_object::{Kind, Obj, Slot};
use ob_values::{Abstime, Value};

/// How many a query without a limit asks for.
const WHOLE: u64 = 10_000;

// The limit that a child sets, where it is an int and isn't negative.
fn read_limit(child: Option<&Obj>) -> Option<u64>
    ensures { result ≡ limit_of (option_map (λ o. o.now) child.entry) }
{
    let Some(child) = child else {
        return Some(WHOLE);
    };
    match (child.kind(), child.slot()) {
        (Kind::Int, Slot::Is(Value::Int(number))) => u64::try_from(*number).ok(),
        (Kind::Int, _) => Some(WHOLE),
        _ => None,
    }
}

// The bound that a child sets or leaves open, where it is an abstime.
fn read_bound(child: Option<&Obj>) -> Option<Option<Abstime>>
    ensures { result ≡ bound_of (option_map (λ o. o.now) child.entry) }
{
    let Some(child) = child else {
        return Some(None);
    };
    match (child.kind(), child.slot()) {
        (Kind::Abstime, Slot::Is(Value::Abstime(time))) => Some(Some(*time)),
        (Kind::Abstime, _) => Some(None),
        _ => None,
    }
}

/// The filter that an object is: an obj with an int `limit` and the abstimes `start` and `end`, each of
/// which may be missing or without a value. No object, and a null obj, set nothing, and no limit is
/// 10,000.
///
/// Answers `None` exactly where it is no filter: an object of another kind, a child of one of the three
/// names with another kind, or a limit below 0.
/// Source: oBIX 1.1, section 14.2 (HistoryFilter).
pub fn read_filter(input: Option<&Obj>) -> Option<Filter>
    ensures { result ≡ filter_of (option_map (λ o. o.now) input.entry) }
{
    let all = Filter {
        limit: WHOLE,
        start: None,
        end: None,
    };
    let Some(input) = input else {
        return Some(all);
    };
    match (input.kind(), input.slot()) {
        (Kind::Obj, Slot::Null) => return Some(all),
        (Kind::Obj, _) => {}
        _ => return None,
    }
    let limit = read_limit(input.child("limit"))?;
    let start = read_bound(input.child("start"))?;
    let end = read_bound(input.child("end"))?;
    Some(Filter { limit, start, end })
}

// The number that a child gives, where it is an int with a value that isn't negative.
fn read_number(child: Option<&Obj>) -> Option<Option<u64>>
    ensures { result ≡ number_of (option_map (λ o. o.now) child.entry) }
{
    let Some(child) = child else {
        return Some(None);
    };
    match (child.kind(), child.slot()) {
        (Kind::Int, Slot::Is(Value::Int(number))) => match u64::try_from(*number) {
            Ok(number) => Some(Some(number)),
            Err(_) => None,
        },
        _ => None,
    }
}

// The number from which on an input asks, if it gives one; a null obj gives none.
fn read_from(input: Option<&Obj>) -> Option<Option<u64>>
    ensures { result ≡ number_in (option_map (λ o. o.now) input.entry) }
{
    let Some(input) = input else {
        return Some(None);
    };
    match input.slot() {
        Slot::Null => Some(None),
        _ => read_number(input.child("from")),
    }
}

/// The query that an object is: a filter, as `read_filter` says, that may have an int `from`, the number
/// of a record, too. A null obj sets nothing.
///
/// Answers `None` exactly where it is no filter, or where its child `from` is no int, has no value, or
/// one below 0.
/// Source: oBIX 1.1, section 14.2 (HistoryFilter); `from` is this profile's own.
pub fn read_query(input: Option<&Obj>) -> Option<Query>
    ensures { result ≡ query_of (option_map (λ o. o.now) input.entry) }
{
    let filter = read_filter(input)?;
    let from = read_from(input)?;
    Some(Query { filter, from })
}
