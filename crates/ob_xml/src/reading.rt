//! What a decoder has read, and the bytes that it keeps.

ghost use Rattle.std.specs.Prelude.{◌≡◌, ◌≤◌, ◌+◌, ◌++◌, length, true, vec_len, IfOk};
ghost use Rattle.std.specs.Coded.{Coded-set, coded_bool};
ghost use Rattle.ob_xml.specs.Structure.{IsSound, IsSound-prop};
ghost use Rattle.ob_xml.specs.Judged.{is_open};
ghost use Rattle.ob_xml.specs.Views.{state_of};

use crate::doc::Doc;
use crate::going::{go_on, lost_at, wait_behind};
use crate::judge::{Hand, Outcome, run};
use crate::refused::{Refused, Why};
use crate::state::State;
use ob_scan::Wait;
use std::alloc::{AllocError, Global};

/// The most bytes that a document has.
pub const MAX_LEN: u64 = 16_777_216;

/// What has been read, the bytes from the first one of what isn't whole on, and where among them the construct stands that
/// isn't whole.
pub struct Reading {
    pub state: State,
    pub kept: Vec<u8>,
    /// How many bytes stand before those that are kept.
    pub base: u64,
    pub at: usize,
    pub wait: Wait,
    ghost inside: { at ≤ vec_len kept },
    ghost small: { base + vec_len kept ≤ 16777216 },
    ghost unfinished: { is_open (state_of state) ≡ true } by { Coded-set coded_bool (is_open (state_of state)) true },
    ghost sound: { IsSound (state_of state) } by { IsSound-prop (state_of state) },
}

impl Drop for Reading {
    // By one call for each part, so that to drop what was read is one call to whoever may have to.
    fn drop(self) {
        let Reading {
            state,
            kept,
            base: _,
            at: _,
            wait: _,
        } = self;
        drop(state);
        drop(kept);
    }
}

/// The bytes with a piece behind them.
fn with_piece(kept: Vec<u8>, piece: &[u8]) -> Result<Vec<u8>, AllocError>
    ensures items { IfOk result (λ v. v.items ≡ kept.items ++ piece.now) }
    ensures len { IfOk result (λ v. vec_len v ≡ vec_len kept + length piece.now) }
{
    let mut kept = kept;
    kept.extend_from_slice(piece)?;
    Ok(kept)
}

impl Reading {
    ghost use Rattle.std.specs.Prelude.{◌≡◌, ◌≤◌, ◌+◌, ◌++◌, ℕ, List, [], length, true, false, vec_len, IfSome, IfNone};
    ghost use Rattle.ob_scan.specs.declared.wait.Wait.{Wait};
    ghost use Rattle.ob_scan.specs.Waiting.{after_all};
    ghost use Rattle.ob_xml.specs.Decoding.{HasTaken, Takes, Ends};

    /// Nothing has been read.
    pub fn new(alloc: Global) -> Reading
        ensures { HasTaken result [] }
    {
        Reading {
            state: State::new(),
            kept: Vec::new(alloc),
            base: 0,
            at: 0,
            wait: Wait::Next,
        }
    }

    /// How many bytes were read.
    pub fn len(&self) -> u64
        ensures { result ≡ self.now.base + vec_len self.now.kept }
    {
        self.base + self.kept.len() as u64
    }

    /// What has been read with the piece, which is short enough for a document.
    pub fn take(self, alloc: Global, piece: &[u8]) -> Result<Reading, Refused>
        requires { self.base + vec_len self.kept + length piece.now ≤ 16777216 }
        ensures { (bytes : List ℕ) → HasTaken self bytes → Takes (bytes ++ piece.now) result }
    {
        let Reading {
            state,
            kept,
            base,
            at,
            wait,
        } = self;
        let whole = base + kept.len() as u64 + piece.len() as u64;
        let after = wait_behind(wait, piece);
        ob_scan::judged_once();
        match with_piece(kept, piece) {
            Err(_) => lost_at(state, whole),
            Ok(kept) => match after {
                Some(wait) => Ok(Reading {
                    state,
                    kept,
                    base,
                    at,
                    wait,
                }),
                None => go_on(alloc, state, kept, base, at),
            },
        }
    }

    /// The document that all bytes spell.
    pub fn end(self, alloc: Global) -> Result<Doc, Refused>
        ensures { (bytes : List ℕ) → HasTaken self bytes → Ends bytes result }
    {
        let Reading {
            state,
            kept,
            base,
            at,
            wait: _,
        } = self;
        let whole = base + kept.len() as u64;
        ob_scan::judged_once();
        ob_scan::well_found();
        let hand = Hand {
            bytes: &kept,
            base,
            end: true,
        };
        match run(alloc, hand, state, at) {
            Ok(Outcome::Document(doc)) => Ok(Box::into_inner(doc)),
            Ok(Outcome::Fault(refused)) => Err(refused),
            Ok(Outcome::Waiting { .. }) => unreachable!(),
            Err(_) => Err(Refused {
                at: whole,
                why: Why::Memory,
            }),
        }
    }
}
