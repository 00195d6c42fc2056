//! The answer to a query.
ghost use Rattle.std.specs.Prelude.{◌≡◌, ◌<◌, ◌^◌, ◌&&◌, ◌++◌, ◌∷◌, [], nat_lt, not, length, slice_get, true, is_none, IsTrue, IfOk};
ghost use Rattle.std.specs.List.{list_all};
ghost use Rattle.circular_buffer.specs.Buffer.{last_item};
ghost use Rattle.ob_object.specs.declared.kind.Kind.TheVariants as kind;
ghost use Rattle.ob_site_rules.specs.Build.{valued, number_slot};
ghost use Rattle.ob_site_rules.specs.Entries.{query_out, is_within};
ghost use Rattle.ob_replies.specs.ContractWords as contract_words;
ghost use Rattle.ob_replies.specs.Names.{is_name};
ghost use Rattle.ob_replies.specs.Numbers.{AreCounted, numbers_of};
ghost use Rattle.ob_replies.specs.Queries.{counts_of, data_of};

use crate::build::{obj_head, put, timed, valued, whole};
use crate::contract::Contract;
use ob_history::Filter;
use ob_object::{Attributes, Kind, Obj, Slot};
use ob_times::Abstime;
use ob_values::{Text, Value};
use std::alloc::{AllocError, Global};

/// What the answer to a query that asks from a number on tells: how many records rolled off, and the number of
/// the first one given, if one is given.
#[derive(Clone, Copy)]
pub(crate) struct Numbers {
    pub gone: u64,
    pub first: Option<u64>,
}

/// Whether a filter passes a time: it isn't before the filter's start, nor after its end.
///
/// Source: oBIX 1.1, section 14.2 (HistoryFilter).
pub fn passes(filter: &Filter, time: Abstime) -> bool
    ensures { result ≡ is_within filter.now time }
{
    let early = match filter.start {
        Some(start) => time.instant() < start.instant(),
        None => false,
    };
    let late = match filter.end {
        Some(end) => end.instant() < time.instant(),
        None => false,
    };
    !early && !late
}

/// Whether a query that has given these objects gives one more, of this time.
pub(crate) fn is_asked(filter: &Filter, given: &[Obj], time: Abstime) -> bool
    ensures { result ≡ (nat_lt (length given.now) filter.now.limit && is_within filter.now time) }
{
    (given.len() as u64) < filter.limit && passes(filter, time)
}

/// Whether a query has given as many objects as it is asked for.
pub(crate) fn has_all(filter: &Filter, given: &[Obj]) -> bool
    ensures { result ≡ not (nat_lt (length given.now) filter.now.limit) }
{
    filter.limit <= given.len() as u64
}

/// The first time.
fn first(times: &[Abstime]) -> Option<Abstime>
    ensures { result ≡ slice_get times.now 0 }
{
    times.first().copied()
}

/// The last time.
fn last(times: &[Abstime]) -> Option<Abstime>
    ensures { result ≡ last_item times.now }
{
    times.last().copied()
}

/// The list of what is given, which has no names.
#[tactic(auto, using(crate::proofs::New::nameless_new))]
fn data(alloc: Global, of: Contract, objects: Vec<Obj>) -> Result<Obj, AllocError>
    requires { list_all (λ o. is_none o.head.name) objects.items ≡ true }
    ensures { IfOk result (λ o. o ≡ data_of (contract_words.contract of) objects.items) }
{
    let name = Text::from_ascii(alloc, "data")?;
    let of = of.words(alloc)?;
    let mut head = Attributes::empty(alloc, Kind::List);
    head.put_name(Some(name));
    if head.put_of(Some(of)).is_err() {
        return Err(AllocError);
    }
    Ok(whole(head, objects))
}

/// Puts a number last, as an int of that name.
fn put_number(
    alloc: Global,
    children: &mut Vec<Obj>,
    name: &str,
    number: u64,
) -> Result<(), AllocError>
    requires name { IsTrue (is_name name.now) }
    requires counted { number < 2 ^ 63 }
    ensures { IfOk result (λ _. children.new.items ≡ children.old.items ++ valued kind.Int name.now (number_slot number) ∷ []) }
{
    let slot = Slot::Is(Value::Int(number as i64));
    put(children, valued(alloc, Kind::Int, name, slot)?)
}

/// Puts last what is told in numbers.
fn put_numbers(
    alloc: Global,
    children: &mut Vec<Obj>,
    numbers: Option<Numbers>,
) -> Result<(), AllocError>
    requires { AreCounted numbers }
    ensures { IfOk result (λ _. children.new.items ≡ children.old.items ++ numbers_of numbers) }
{
    let Some(numbers) = numbers else {
        return Ok(());
    };
    put_number(alloc, children, "gone", numbers.gone)?;
    match numbers.first {
        Some(first) => put_number(alloc, children, "first", first),
        None => Ok(()),
    }
}

/// Puts first how many objects are given, what else is told in numbers, and the first and the last of the
/// times of the objects.
fn put_counts(
    alloc: Global,
    children: &mut Vec<Obj>,
    count: u64,
    numbers: Option<Numbers>,
    times: &[Abstime],
) -> Result<(), AllocError>
    requires empty { children.old.items ≡ [] }
    requires counted { count < 2 ^ 63 }
    requires numbers { AreCounted numbers }
    ensures { IfOk result (λ _. children.new.items ≡ counts_of count numbers times.now) }
{
    put_number(alloc, children, "count", count)?;
    put_numbers(alloc, children, numbers)?;
    put(children, timed(alloc, "start", first(times))?)?;
    put(children, timed(alloc, "end", last(times))?)
}

/// What a query answers: how many objects, what else is told in numbers, the first and the last of their times,
/// and the objects, which have no names. The first contract is that of the answer, the second that of the objects.
///
/// Source: oBIX 1.1, chapters 14 (HistoryQueryOut) and 15 (AlarmQueryOut); the numbers are this profile's own.
#[tactic(auto, using(crate::proofs::New::counts_new))]
pub(crate) fn query_out(
    alloc: Global,
    contracts: (Contract, Contract),
    numbers: Option<Numbers>,
    times: &[Abstime],
    objects: Vec<Obj>,
) -> Result<Obj, AllocError>
    requires nameless { list_all (λ o. is_none o.head.name) objects.items ≡ true }
    requires numbers { AreCounted numbers }
    ensures { IfOk result (λ o. o ≡ query_out (contract_words.contract contracts.0) (contract_words.contract contracts.1) (numbers_of numbers) times.now objects.items) }
{
    let (is, of) = contracts;
    let head = obj_head(alloc, None, is)?;
    let mut children = Vec::new(alloc);
    put_counts(alloc, &mut children, objects.len() as u64, numbers, times)?;
    put(&mut children, data(alloc, of, objects)?)?;
    Ok(whole(head, children))
}
