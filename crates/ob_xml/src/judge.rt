//! The constructs of the bytes at hand, one after another.

ghost use Rattle.std.specs.Prelude.{◌≡◌, ◌≤◌, ◌+◌, ◌^◌, ◌<◌, ℕ, List, Bool, ◌++◌, length, drop, true, IfOk};
ghost use Rattle.ob_scan.specs.Waiting.{IsWaiting};
ghost use Rattle.ob_xml.specs.Structure.{IsSound};
ghost use Rattle.ob_xml.specs.Judged.{is_open, cause_of};
ghost use Rattle.ob_xml.specs.Leading.{Leads, is_tag, begins_by};
ghost use Rattle.ob_xml.specs.Turning.{Turned, Refuses, Settles, Shaped, Ran};
ghost use Rattle.ob_xml.specs.Views.{state_of};
ghost use Rattle.ob_xml.specs.declared.judge.Turn.TheVariants.{Fault};

use crate::doc::Doc;
use crate::meaning::mean;
use crate::refused::{Refused, Why};
use crate::state::State;
use ob_scan::{Found, Wait, next_piece};
use std::alloc::{AllocError, Global};

/// What one construct tells.
#[derive(Drop)]
pub enum Turn {
    /// The state that it leads to, and the place behind it.
    On(State, usize),
    /// It isn't whole, and more may come; the state, and what it waits for.
    Waiting(State, Wait),
    /// It is the end of the document.
    Document(Box<Doc>),
    Fault(Refused),
}

/// What all constructs tell.
#[derive(Drop)]
pub enum Outcome {
    /// The one at the place `at` isn't whole. It, or the tag that it is in, begins at `from`.
    Waiting {
        state: State,
        at: usize,
        from: usize,
        wait: Wait,
    },
    Document(Box<Doc>),
    Fault(Refused),
}

/// The bytes at hand of a document.
#[derive(Clone, Copy)]
pub struct Hand<'a> {
    pub bytes: &'a [u8],
    /// How many bytes stand before these in the document.
    pub base: u64,
    /// Whether no more come behind them.
    pub end: bool,
}

fn cause(why: ob_scan::Why) -> Why
    ensures { result ≡ cause_of why }
{
    match why {
        ob_scan::Why::Markup => Why::Markup,
        ob_scan::Why::Text => Why::Text,
        ob_scan::Why::Ended => Why::Ended,
    }
}

/// What is told of a construct at a place that is refused for what stands before it.
fn refuse(at: u64, why: Why) -> Result<Turn, AllocError>
    ensures { IfOk result (λ t. Refuses at why t) }
{
    if why == Why::Memory {
        return Err(AllocError);
    }
    Ok(Turn::Fault(Refused { at, why }))
}

/// The document, if it is whole; or the state, and where the text goes on.
fn settle(state: State, next: usize) -> Turn
    requires { IsSound (state_of state) }
    ensures { Settles (state_of state) next result }
{
    match state {
        State::Start => Turn::On(State::Start, next),
        State::Marked => Turn::On(State::Marked, next),
        State::Between { outer } => Turn::On(State::Between { outer }, next),
        State::InTag { tag, outer } => Turn::On(State::InTag { tag, outer }, next),
        State::Behind { doc } => Turn::On(State::Behind { doc }, next),
        State::Whole { doc } => Turn::Document(doc),
    }
}

/// The fault, after which what was read so far isn't needed.
fn told<T: Drop>(_read: T, refused: Refused) -> Turn
    ensures { result ≡ Fault refused }
{
    Turn::Fault(refused)
}

/// Want of memory, after which what was read so far isn't needed.
fn lost<T: Drop>(_read: T) -> Result<Turn, AllocError>
    ensures { IfOk result (λ _. ⊥) }
{
    Err(AllocError)
}

/// The construct at a place of the bytes at hand.
fn take_turn(alloc: Global, hand: Hand, state: State, at: usize) -> Result<Turn, AllocError>
    requires inside { at ≤ length hand.bytes.now }
    requires small { hand.base + length hand.bytes.now < 2 ^ 63 }
    requires unfinished { is_open (state_of state) ≡ true }
    requires sound { IsSound (state_of state) }
    ensures { IfOk result (λ t. Turned hand.entry.end hand.entry.bytes.now hand.entry.base state at t) }
{
    ob_scan::well_found();
    match next_piece(hand.bytes, at, state.place(), hand.end) {
        Err(fault) => {
            let fault_at = hand.base + fault.at as u64;
            Ok(told(
                state,
                Refused {
                    at: fault_at,
                    why: cause(fault.why),
                },
            ))
        }
        Ok(Found::More { wait }) => Ok(Turn::Waiting(state, wait)),
        Ok(Found::Piece { piece, first, next }) => {
            let piece_at = hand.base + first as u64;
            match mean(alloc, state.kind(), piece) {
                Ok(meaning) => match state.step(alloc, meaning) {
                    Ok(state) => Ok(settle(state, next)),
                    Err(why) => refuse(piece_at, why),
                },
                Err(_) => lost(state),
            }
        }
    }
}

/// Whether the state is in a tag.
fn is_tag(state: &State) -> bool
    ensures { result ≡ is_tag (state_of state.now) }
{
    matches!(state, State::InTag { .. })
}

/// Where the tag in hand begins, or else the next construct.
fn tag_begins(tag: bool, next_tag: bool, from: usize, at: usize, next: usize) -> usize
    ensures { result ≡ begins_by tag next_tag from at next }
{
    if !next_tag {
        return next;
    }
    if tag { from } else { at }
}

/// The constructs of the bytes at hand from a place on. What isn't whole there begins with the bytes.
pub fn run(alloc: Global, hand: Hand, state: State, at: usize) -> Result<Outcome, AllocError>
    requires inside { at ≤ length hand.bytes.now }
    requires small { hand.base + length hand.bytes.now < 2 ^ 63 }
    requires unfinished { is_open (state_of state) ≡ true }
    requires sound { IsSound (state_of state) }
    ensures shaped { IfOk result (λ o. Shaped hand.entry.end hand.entry.bytes.now o) }
    ensures ran { IfOk result (λ o. (gone : List ℕ) → hand.entry.base ≡ length gone → Leads hand.entry.end (gone ++ hand.entry.bytes.now) (state_of state) (hand.entry.base + at) hand.entry.base → Ran hand.entry.end gone hand.entry.bytes.now o) }
{
    let mut state = state;
    let mut at = at;
    let mut from = 0;
    'turns: loop {
        let tag = is_tag(&state);
        match take_turn(alloc, hand, state, at)? {
            Turn::On(after, next) => {
                from = tag_begins(tag, is_tag(&after), from, at, next);
                state = after;
                at = next;
            }
            Turn::Waiting(state, wait) => {
                return Ok(Outcome::Waiting {
                    state,
                    at,
                    from,
                    wait,
                });
            }
            Turn::Document(doc) => return Ok(Outcome::Document(doc)),
            Turn::Fault(refused) => return Ok(Outcome::Fault(refused)),
        }
    }
}
