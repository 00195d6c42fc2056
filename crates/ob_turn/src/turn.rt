// The rule of the turn, and what its steps tell.
ghost use Rattle.std.specs.Prelude.{ℕ};

use crate::known::Known;
use atomic_table::{Join, Play, Split, TableRule};
use ob_machine::Machine;
use std::marker::{Brand, PhantomData};
use std::snapshot::Snapshot;

// The rule.
pub struct Turn;

impl<M: Machine> TableRule<Option<M>, Known<M::Request, M::Reply>, Snapshot<M>> for Turn {
    ghost use Rattle.std.specs.Prelude.{[], false};
    ghost use Rattle.ob_turn.specs.Callers.{numbers_below};
    ghost use Rattle.ob_turn.specs.Turn.{Kept, known};

    ghost holds = { λ key. Kept M.act key.value };

    ghost first = { λ _. known (numbers_below 4294967296) 0 [] false [] };
}

// One call at a desk, for the proof alone: the machine that the desk was opened with, and the entries that the call adds.
// A call of a function at `Brand` picks it.
pub trait Call<M, Q, P> {
    ghost use Rattle.std.specs.Prelude.{List, Option};
    ghost use Rattle.ob_machine.specs.declared.call.Entry.{Entry};

    ghost opening: { Option M };

    ghost entries: { List (Entry Q P) };
}

impl<M, Q, P> Call<M, Q, P> for Brand {
    ghost use Rattle.std.specs.Prelude.{None, []};

    ghost opening = { None };

    ghost entries = { [] };
}

// Takes the turn where it was free.
pub struct Take<C> {
    call: PhantomData<C>,
}

impl<M: Machine, C: Call<M, M::Request, M::Reply>> Play<Option<M>, Known<M::Request, M::Reply>>
    for Take<C> {
    ghost use Rattle.ob_turn.specs.Turn.{Takes};

    ghost then = { Takes M.act C.opening };
}

// Ends the turn.
pub struct End<C> {
    call: PhantomData<C>,
}

impl<M: Machine, C: Call<M, M::Request, M::Reply>> Play<Option<M>, Known<M::Request, M::Reply>>
    for End<C> {
    ghost use Rattle.ob_turn.specs.Turn.{Ends};

    ghost then = { Ends M.act C.opening C.entries };
}

// How many numbers a seat keeps, for the proof alone. A call of a function at `Brand` picks it.
pub trait Keeps {
    ghost kept: { ℕ };
}

impl Keeps for Brand {
    ghost kept = { 0 };
}

// Cuts the last numbers off.
pub struct Cut<C> {
    kept: PhantomData<C>,
}

impl<Q, P, C: Keeps> Split<Known<Q, P>> for Cut<C> {
    ghost use Rattle.ob_turn.specs.Turn.{kept_view, cut_view};

    ghost left = { kept_view C.kept };

    ghost right = { cut_view C.kept };
}

// Takes in another's numbers.
pub struct Merge;

impl<Q, P> Join<Known<Q, P>> for Merge {
    ghost use Rattle.ob_turn.specs.Turn.{both_views, spent_view};

    ghost both = { both_views };

    ghost spent = { spent_view };
}

// Looks at the history so far.
pub struct Look;

impl<S, Q, P> Play<S, Known<Q, P>> for Look {
    ghost use Rattle.ob_turn.specs.Turn.{Looks};

    ghost then = { Looks };
}
