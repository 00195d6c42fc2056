//! The lease that is asked for, and the feed that is asked for.
ghost use Rattle.std.specs.Prelude.{◌≡◌, ◌≤◌, None, IfOk};
ghost use Rattle.std.specs.Option.{option_copied};
ghost use Rattle.ob_contracts.specs.Inherit.{effective_of};
ghost use Rattle.ob_site_rules.specs.Watched.{feed_with, has_value, lease_of, lease_within, sets_limit};
ghost use Rattle.ob_requests.specs.Calls.{found, lease_in};

use ob_contracts::{Library, Steps, View};
use ob_history::{Filter, read_filter};
use ob_object::{Kind, Obj, Slot};
use ob_site_rules::Fault;
use ob_times::Reltime;
use ob_values::{Text, Value};
use std::sync::ledger::Ledger;

/// What an asked href names: an object to watch, a feed to watch through a filter, or nothing that can
/// be watched.
#[derive(Drop)]
pub enum Found {
    Object(Text),
    Feed(Text, Filter),
    Nothing(Fault),
}

// A second to a day, without months.
fn lease_within(span: &Reltime) -> Result<u64, Fault>
    ensures value { result ≡ lease_within span.now.months span.now.nanos }
    ensures bounded { IfOk result (λ nanos. nanos ≤ 86_400_000_000_000) }
{
    let (months, nanos) = span.parts();
    if months == 0 && 1_000_000_000 <= nanos && nanos <= 86_400_000_000_000 {
        Ok(nanos as u64)
    } else {
        Err(Fault::LeaseOutOfRange)
    }
}

// The lease that a reltime gives, with the value that it inherits.
fn lease_given<'x, L: Ledger>(
    library: &'x Library,
    input: &'x Obj,
    steps: &mut Steps<L>,
) -> Result<u64, Fault>
    ensures value { result ≡ lease_of (effective_of library.now input.now None None).head.slot }
    ensures bounded { IfOk result (λ nanos. nanos ≤ 86_400_000_000_000) }
{
    match View::new(library, input, None, None, steps).slot() {
        Slot::Is(Value::Reltime(span)) => lease_within(span),
        _ => Err(Fault::LeaseOutOfRange),
    }
}

/// The lease that an input gives, in nanoseconds, from a second to a day.
///
/// OtherShape where there is no input; OtherKind where it is no reltime; LeaseOutOfRange where its
/// value, or the one that it inherits, isn't from a second to a day, or has months.
/// Source: oBIX 1.1, chapter 12 (Watch.lease).
pub fn lease_asked<L: Ledger>(
    library: &Library,
    input: &Option<Obj>,
    steps: &mut Steps<L>,
) -> Result<u64, Fault>
    ensures value { result ≡ lease_in library.now input.now }
    ensures bounded { IfOk result (λ nanos. nanos ≤ 86_400_000_000_000) }
{
    let Some(input) = input else {
        return Err(Fault::OtherShape);
    };
    if !input.kind().same(Kind::Reltime) {
        return Err(Fault::OtherKind);
    }
    lease_given(library, input, steps)
}

// Whether there is an object with a value.
fn has_value(object: Option<&Obj>) -> bool
    ensures { result ≡ has_value (option_copied object.entry) }
{
    match object {
        Some(object) => matches!(object.slot(), Slot::Is(_)),
        None => false,
    }
}

// Whether the input of a feed sets a limit; a null obj sets nothing.
fn sets_limit(input: &Option<Obj>) -> bool
    ensures { result ≡ sets_limit input.now }
{
    let Some(input) = input else {
        return false;
    };
    match input.slot() {
        Slot::Null => false,
        _ => has_value(input.child("limit")),
    }
}

/// A feed through the filter that its input is, which has no limit.
///
/// OtherShape where the input is no filter, or sets a limit.
pub fn feed_with(path: Text, input: &Option<Obj>) -> Found
    ensures { found result ≡ feed_with path input.now }
{
    if sets_limit(input) {
        return Found::Nothing(Fault::OtherShape);
    }
    match read_filter(input.as_ref()) {
        Some(filter) => Found::Feed(path, filter),
        None => Found::Nothing(Fault::OtherShape),
    }
}
