//! Reading on.

ghost use Rattle.std.specs.Prelude.{◌≡◌, ◌≤◌, ◌+◌, ◌++◌, ℕ, List, length, true, false, vec_len, IfOk, Err};
ghost use Rattle.ob_scan.specs.Waiting.{after_all};
ghost use Rattle.ob_xml.specs.Structure.{IsSound};
ghost use Rattle.ob_xml.specs.Judged.{is_open, max_len};
ghost use Rattle.ob_xml.specs.Leading.{Leads};
ghost use Rattle.ob_xml.specs.Views.{state_of};
ghost use Rattle.ob_xml.specs.Decoding.{HasTaken, Takes};
ghost use Rattle.std.specs.Prelude.{drop};

use crate::judge::{Hand, Outcome, run};
use crate::reading::Reading;
use crate::refused::{Refused, Why};
use crate::state::State;
use ob_scan::Wait;
use std::alloc::{AllocError, Global};

/// What is waited for behind the piece; None where a byte of it may decide.
pub fn wait_behind(wait: Wait, piece: &[u8]) -> Option<Wait>
    ensures { result ≡ after_all wait piece.now }
{
    let mut wait = wait;
    for byte in piece {
        wait = wait.after(*byte)?;
    }
    Some(wait)
}

/// The bytes without the first ones.
fn without_front(alloc: Global, mut kept: Vec<u8>, from: usize) -> Result<Vec<u8>, AllocError>
    requires { from ≤ vec_len kept }
    ensures { IfOk result (λ v. v.items ≡ drop from kept.items) }
{
    if from == 0 {
        return Ok(kept);
    }
    if from == kept.len() {
        kept.clear();
        return Ok(kept);
    }
    Vec::from_slice(alloc, &kept[from..])
}

/// Want of memory at a number of bytes fed, after which what was read so far isn't needed.
pub fn lost_at<T: Drop>(_read: T, at: u64) -> Result<Reading, Refused>
    ensures { result ≡ Err (record { at = at; why = Why.Memory }) }
{
    Err(Refused {
        at,
        why: Why::Memory,
    })
}

/// What has been read where the construct at a place may be whole.
pub fn go_on(
    alloc: Global,
    state: State,
    kept: Vec<u8>,
    base: u64,
    at: usize,
) -> Result<Reading, Refused>
    requires inside { at ≤ vec_len kept }
    requires small { base + vec_len kept ≤ 16777216 }
    requires unfinished { is_open (state_of state) ≡ true }
    requires sound { IsSound (state_of state) }
    ensures { (gone : List ℕ) → base ≡ length gone → Leads false (gone ++ kept.items) (state_of state) (base + at) base → Takes (gone ++ kept.items) result }
{
    let whole = base + kept.len() as u64;
    ob_scan::well_found();
    let hand = Hand {
        bytes: &kept,
        base,
        end: false,
    };
    match run(alloc, hand, state, at) {
        Ok(
            Outcome::Waiting {
                state,
                at,
                from,
                wait,
            },
        ) => match without_front(alloc, kept, from) {
            Ok(kept) => Ok(Reading {
                state,
                kept,
                base: base + from as u64,
                at: at - from,
                wait,
            }),
            Err(_) => lost_at(state, whole),
        },
        Ok(Outcome::Document(_)) => unreachable!(),
        Ok(Outcome::Fault(refused)) => Err(refused),
        Err(_) => Err(Refused {
            at: whole,
            why: Why::Memory,
        }),
    }
}
