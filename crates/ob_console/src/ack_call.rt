//! Acknowledging an alarm.
ghost use Rattle.std.specs.Prelude.{◌≡◌, [], ◌∷◌, Ok, IfOk, codes};
ghost use Rattle.std.specs.Option.{option_copied};
ghost use Rattle.ob_object.specs.Object.{empty_head};
ghost use Rattle.ob_console.specs.Acks.{op_of, leads_to, fault_of, FindsTarget, user_child, ack_in, CallsAck, Acknowledges, answer_as, standing};
ghost use Rattle.ob_console.specs.InHand as in_hand;
ghost use Rattle.ob_io.specs.Links.{inlet};

use crate::board::Board;
use ob_client::{CallFault, Session};
use ob_href::{Base, HrefFault, Path, resolve};
use ob_io::Link;
use ob_object::{Head, Kind, Obj, Slot, WordFault, Words};
use ob_values::{Text, Value, Verb};
use std::alloc::{AllocError, Global};
use thiserror::Error;

/// Why an alarm wasn't acknowledged.
#[derive(Clone, Copy, Debug, PartialEq, Eq, Error)]
pub enum AckFault {
    /// The board has no such alarm with an op `ack`.
    #[error("NoSuch")]
    NoSuch,
    /// The href of the op leads to no place on the server.
    #[error("Origin")]
    Origin,
    /// The call gave no object, but not for want of memory.
    #[error("{0}")]
    Call(CallFault),
    /// There was no memory.
    #[error("Memory")]
    Memory,
}

impl From<AllocError> for AckFault {
    ghost use Rattle.std.specs.Prelude.{◌≡◌};
    ghost use Rattle.ob_console.specs.declared.ack_call.AckFault.TheVariants.{Memory};

    ghost from_gives = { λ _ e. e ≡ Memory };

    fn from(_: AllocError) -> AckFault {
        AckFault::Memory
    }
}

// The href of the op `ack`.
fn op_of<'a>(board: &'a Board, href: &str) -> Option<&'a Text>
    ensures { option_copied result ≡ op_of (in_hand.lines_of board.now) href.now }
{
    match board.alarm(href) {
        Some(alarm) => alarm.ack.as_ref(),
        None => None,
    }
}

/// Where the op `ack` of an alarm of the board is called. NoSuch where the board has no such alarm with one; Origin where
/// its href is refused against the base.
pub fn ack_target(alloc: Global, base: &Base, board: &Board, href: &str) -> Result<Path, AckFault>
    ensures { FindsTarget (leads_to base.now (op_of (in_hand.lines_of board.now) href.now)) result }
{
    let Some(op) = op_of(board, href) else {
        return Err(AckFault::NoSuch);
    };
    match resolve(alloc, base, op.as_str()) {
        Ok(target) => Ok(target),
        Err(fault) => Err(fault_of(fault)),
    }
}

// What the refusal of an href is.
fn fault_of(fault: HrefFault) -> AckFault
    ensures { result ≡ fault_of fault }
{
    match fault {
        HrefFault::Memory => AckFault::Memory,
        _ => AckFault::Origin,
    }
}

// The str `ackUser`.
fn user_child(alloc: Global, user: &Text) -> Result<Obj, AllocError>
    ensures { IfOk result (λ o. o ≡ user_child user.now) }
{
    let mut head = Head::empty(Kind::Str);
    head.name = Some(Text::from_ascii(alloc, "ackUser")?);
    head.slot = Slot::Is(Value::Str(user.copy()?));
    Obj::from_head(alloc, head)
}

// A list of one word.
fn one_word(alloc: Global) -> Result<Words, AllocError>
    ensures { IfOk result (λ ws. ws ≡ codes "obix:AckAlarmIn" ∷ []) }
{
    let mut words = Words::new(alloc);
    let word = Text::from_ascii(alloc, "obix:AckAlarmIn")?;
    match words.push(word) {
        Ok(()) => Ok(words),
        Err(WordFault::NotWord { word: _word }) => unreachable!(),
        Err(WordFault::Memory { word: _word }) => Err(AllocError),
    }
}

// What the op `ack` is called with: AckAlarmIn with this user.
fn ack_in(alloc: Global, user: &Text) -> Result<Obj, AllocError>
    ensures { IfOk result (λ o. o ≡ ack_in user.now) }
{
    let mut head = Head::empty(Kind::Obj);
    head.is = Some(one_word(alloc)?);
    let mut input = Obj::from_head(alloc, head)?;
    let child = user_child(alloc, user)?;
    match input.push_new(child) {
        Ok(()) => Ok(input),
        Err(_child) => Err(AllocError),
    }
}

// The session's answer as an answer here.
fn answer_as(answer: Result<Obj, CallFault>) -> Result<Obj, AckFault>
    ensures { result ≡ answer_as answer }
{
    match answer {
        Ok(reply) => Ok(reply),
        Err(CallFault::Memory) => Err(AckFault::Memory),
        Err(fault) => Err(AckFault::Call(fault)),
    }
}

/// Calls the op `ack` at this path as this user, over the session, and gives the session's answer. Memory: nothing was
/// asked, or the session found none and is dead.
pub fn acknowledge_at<L: Link>(
    alloc: Global,
    session: &mut Session<L>,
    target: &Path,
    user: &Text,
) -> Result<Obj, CallFault>
    ensures { CallsAck target.now user.now
        (standing (L.held session.old.link) (inlet (L.left session.old.link) (L.taken session.old.link)) (L.read_faults session.old.link) (L.write_faults session.old.link) session.old.host session.old.framer session.old.is_dead)
        (standing (L.held session.new.link) (inlet (L.left session.new.link) (L.taken session.new.link)) (L.read_faults session.new.link) (L.write_faults session.new.link) session.new.host session.new.framer session.new.is_dead)
        result }
{
    let Ok(input) = ack_in(alloc, user) else {
        return Err(CallFault::Memory);
    };
    session.call(Verb::Post, target, Some(&input))
}

/// Acknowledges the alarm of this href as this user, over the session; `base` is the URL that the board's events were
/// read from. NoSuch where the board has no such alarm with an op `ack`; Origin where the op's href is refused against the
/// base; Call where the session gave no object for another reason than memory; Memory: nothing was asked, or the session found
/// none and is dead.
pub fn acknowledge<L: Link>(
    alloc: Global,
    session: &mut Session<L>,
    base: &Base,
    board: &Board,
    href: &Text,
    user: &Text,
) -> Result<Obj, AckFault>
    ensures { Acknowledges (leads_to base.now (op_of (in_hand.lines_of board.now) href.now)) user.now
        (standing (L.held session.old.link) (inlet (L.left session.old.link) (L.taken session.old.link)) (L.read_faults session.old.link) (L.write_faults session.old.link) session.old.host session.old.framer session.old.is_dead)
        (standing (L.held session.new.link) (inlet (L.left session.new.link) (L.taken session.new.link)) (L.read_faults session.new.link) (L.write_faults session.new.link) session.new.host session.new.framer session.new.is_dead)
        result }
{
    match ack_target(alloc, base, board, href.as_str()) {
        Ok(target) => answer_as(acknowledge_at(alloc, session, &target, user)),
        Err(fault) => Err(fault),
    }
}
