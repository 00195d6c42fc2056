//! Machines behind a desk, which callers share.
ghost use Rattle.std.specs.Prelude.{◌≡◌, length};

use crate::counter::{Add, Counter};
use crate::minutes::tell_minutes;
use crate::notes::tell_notes;
use ob_rows::{Tally, asked_of, number_at, split_word};
use ob_times::Moment;
use ob_turn::{Answer, Desk, Pass, cross_threads};
use std::alloc::AllocError;
use std::rt::Files;
use std::sync::Wait;
use std::thread::{Threads, join};
use std::{fs, io};

/// So many milliseconds after 1970, 1,000,000 at most.
pub(crate) fn at(ms: u64) -> Moment {
    let Some(moment) = Moment::new(ms.min(1_000_000)) else {
        unreachable!()
    };
    moment
}

// Adds a number under the pass: the sum that is told, or 0 for want of memory.
fn add<R: Wait>(rt: &R, desk: &Desk<Counter>, pass: &mut Pass<Counter>, number: u64) -> u64
    requires { pass.old.table ≡ desk.now.table }
    ensures { (pass.new.table ≡ pass.old.table) × (pass.new.numbers ≡ pass.old.numbers) }
{
    match desk.ask(rt, pass, &Add(number), at(0)) {
        Answer::Done(sum) => sum,
        Answer::NoMemory => 0,
    }
}

// A desk that answered from the opening state, or put the machine back as it was, would tell other sums.
fn tell_turns<R: Wait + AllocGlobal>(
    rt: &R,
    said: &str,
    told: &mut String,
) -> Result<(), AllocError> {
    let sum = number_at(said, 0).unwrap_or(0);
    let Ok((desk, mut first)) = Desk::new(rt.alloc(), Counter { sum }) else {
        return Err(AllocError);
    };
    let mut second = first.split(&desk, 1);
    let one = add(rt, &desk, &mut first, number_at(said, 1).unwrap_or(0));
    let two = add(rt, &desk, &mut second, number_at(said, 2).unwrap_or(0));
    let three = add(rt, &desk, &mut first, number_at(said, 3).unwrap_or(0));
    second.join(&desk, first);
    let Counter { sum } = desk.close(second);
    write!(told, "{one} {two} {three}, closed {sum}")
}

// The same with the pass handed in and out.
fn added<R: Wait>(
    rt: &R,
    desk: &Desk<Counter>,
    mut pass: Pass<Counter>,
    number: u64,
) -> (Pass<Counter>, u64)
    requires { pass.table ≡ desk.now.table }
    ensures { (result.0.table ≡ pass.table) × (result.0.numbers ≡ pass.numbers) }
{
    let sum = add(rt, desk, &mut pass, number);
    (pass, sum)
}

// The sums that two calls on two threads tell, and the one of the closed desk.
fn at_once<R: Threads + Wait + Sync + AllocGlobal>(
    rt: &R,
    a: u64,
    b: u64,
) -> Result<(u64, u64, u64), AllocError> {
    let Ok((desk, mut first)) = Desk::new(rt.alloc(), Counter { sum: 0 }) else {
        return Err(AllocError);
    };
    let second = first.split(&desk, 1);
    let (left, right) = join(
        rt,
        || -> (Pass<Counter>, u64)
            requires { first.table ≡ desk.table }
            ensures { (result.0.table ≡ first.table) × (result.0.numbers ≡ first.numbers) }
        { added(rt, &desk, first, a) },
        || -> (Pass<Counter>, u64)
            requires { second.table ≡ desk.table }
            ensures { (result.0.table ≡ second.table) × (result.0.numbers ≡ second.numbers) }
        { added(rt, &desk, second, b) },
    );
    let (mut first, one) = left;
    let (second, two) = right;
    first.join(&desk, second);
    let Counter { sum } = desk.close(first);
    Ok((one, two, sum))
}

fn tell_at_once<R: Threads + Wait + Sync + AllocGlobal>(
    rt: &R,
    said: &str,
    told: &mut String,
) -> Result<(), AllocError> {
    let a = number_at(said, 1).unwrap_or(0);
    let b = number_at(said, 2).unwrap_or(0);
    let both = a.saturating_add(b);
    let (one, two, sum) = at_once(rt, a, b)?;
    if one == a && two == both || one == both && two == b {
        return write!(told, "one behind the other, closed {sum}");
    }
    write!(told, "{one} and {two}, closed {sum}")
}

// Splits the pass in halves, level by level. Each of the last makes a call, and tells its shares, which are added up.
fn shares_of_leaves<R: Wait>(
    rt: &R,
    desk: &Desk<Counter>,
    pass: &mut Pass<Counter>,
    levels: u32,
) -> u64
    requires { pass.old.table ≡ desk.now.table }
    ensures same { (pass.new.table ≡ pass.old.table) × (length pass.new.numbers ≡ length pass.old.numbers) }
    ensures all { result ≡ length pass.old.numbers }
{
    let shares = pass.shares();
    if levels == 0 || shares < 2 {
        desk.ask(rt, pass, &Add(1), at(0));
        return shares;
    }
    let mut other = pass.split(desk, shares / 2);
    let left = shares_of_leaves(rt, desk, pass, levels - 1);
    let right = shares_of_leaves(rt, desk, &mut other, levels - 1);
    pass.join(desk, other);
    left + right
}

fn tell_leaves<R: Wait + AllocGlobal>(
    rt: &R,
    said: &str,
    told: &mut String,
) -> Result<(), AllocError> {
    let levels = said.parse::<u32>().unwrap_or(0);
    let Ok((desk, mut pass)) = Desk::new(rt.alloc(), Counter { sum: 0 }) else {
        return Err(AllocError);
    };
    let leaves = shares_of_leaves(rt, &desk, &mut pass, levels);
    let shares = pass.shares();
    let Counter { sum } = desk.close(pass);
    write!(told, "{leaves} {shares}, closed {sum}")
}

// Tells what comes of a row.
fn tell_row<R: Threads + Wait + Sync + AllocGlobal>(
    rt: &R,
    row: &str,
    told: &mut String,
) -> Result<(), AllocError> {
    let (word, said) = split_word(row);
    match word {
        "turns" => tell_turns(rt, said, told),
        "at" => tell_at_once(rt, said, told),
        "leaves" => tell_leaves(rt, said, told),
        "minutes" => tell_minutes(rt, said.parse::<u64>().unwrap_or(0), told),
        "notes" => tell_notes(rt, said, told),
        _ => told.push_str("no such row"),
    }
}

// Asks a row, and counts it unless it is a remark.
fn ask<R: Threads + Wait + Sync + Print + AllocGlobal>(
    rt: &R,
    row: &str,
    tally: &mut Tally,
) -> io::Result<()> {
    let Some(text) = asked_of(row) else {
        return Ok(());
    };
    let mut told = String::new(rt.alloc());
    tell_row(rt, text, &mut told)?;
    tally.count(rt, row, told.as_str())
}

/// Asks the rows of a file, of callers of one machine, each under a pass of its own, and prints those that come out otherwise and
/// how many there are:
///
/// `turns SUM A B C`: three numbers are added to a sum, the second one under another pass: what each call tells, and the sum when
/// the desk is closed. `at once A B`: two are added on two threads: whether the calls tell one order of the two, and the sum.
/// `leaves LEVELS`: the pass is split in halves, level by level, and 1 is added under each of the last ones: how many shares
/// these had, how many the pass has when all are joined again, and the sum. `minutes COUNT`: so many requests on each of three
/// threads: how many are kept, and whether each stands once, at the place that was told, and those of a thread in order.
/// `notes A B`: a machine, requests and replies that own memory: the replies, the shares of the second pass, and the moments
/// of the calls.
///
/// An `io::Error` where the file isn't there, or for want of memory.
pub(crate) fn run_turns<R: Threads + Wait + Sync + Print + Files + AllocGlobal>(
    rt: &R,
    file: &str,
) -> io::Result<()> {
    cross_threads::<Counter>();
    let rows = fs::read_to_string(rt, file)?;
    let mut tally = Tally::new();
    for row in rows.lines() {
        ask(rt, row, &mut tally)?;
    }
    tally.print(rt, file)
}
