//! What queries answer.
ghost use Rattle.std.specs.Prelude.{◌≡◌, IfOk};
ghost use Rattle.std.specs.Option.{option_copied};
ghost use Rattle.ob_history.specs.Filters.{filter_of};
ghost use Rattle.ob_history.specs.Queries.{query_of};
ghost use Rattle.ob_site_rules.specs.State.{at, board};
ghost use Rattle.ob_site_rules.specs.Entries.{alarms_out};
ghost use Rattle.ob_site_rules.specs.Posts.{query, log_out};

use ob_history::{Log, read_filter, read_query};
use ob_object::Obj;
use ob_replies::{alarms_out, records_out, refusal};
use ob_site_rules::Fault;
use ob_site_state::State;
use ob_values::Text;
use std::alloc::{AllocError, Global};

/// The answer to a query of a history. An error only for want of memory.
///
/// Source: oBIX 1.1, chapter 14 (History.query).
pub fn query_records(state: &State, history: &Text, input: Option<&Obj>) -> Result<Obj, AllocError>
    ensures { IfOk result (λ o. o ≡ query (log_out (at history.now state.now.now.logs)) (query_of (option_copied input.entry))) }
{
    let alloc = state.allocator();
    let Some(query) = read_query(input) else {
        return refusal(alloc, Fault::OtherShape);
    };
    match state.log_at(history) {
        Some(log) => records_out(alloc, &query, log),
        None => records_out(alloc, &query, &Log::new(alloc)),
    }
}

/// The answer to a query of the alarms. An error only for want of memory.
///
/// Source: oBIX 1.1, chapter 15 (AlarmSubject.query).
pub fn query_alarms(state: &State, input: Option<&Obj>) -> Result<Obj, AllocError>
    ensures { IfOk result (λ o. o ≡ query (alarms_out (board state.now.plan state.now.now)) (filter_of (option_copied input.entry))) }
{
    match read_filter(input) {
        Some(filter) => alarms_out(state.allocator(), &filter, state.alarms()),
        None => refusal(state.allocator(), Fault::OtherShape),
    }
}
