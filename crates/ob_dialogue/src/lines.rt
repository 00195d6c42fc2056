//! What is printed.
ghost use Rattle.std.specs.Prelude.{◌≡◌, ◌++◌, IfOk, OnOk, filter, option_map};
ghost use Rattle.ob_client.specs.Entries.{is_err};
ghost use Rattle.ob_console.specs.InHand as boards;
ghost use Rattle.ob_dialogue.specs.Printing.{line, lines_of, items_text, events_of, board_in, body_text, add_heading, poll_heading};
ghost use Rattle.ob_dialogue.specs.InHand as in_hand;

use crate::plan::Topic;
use crate::stage::Watching;
use ob_client::Mirror;
use ob_console::{Board, BoardFault, print_board, put_screened};
use ob_encoding::write;
use ob_object::{Kind, Obj};
use std::alloc::{AllocError, Global};

/// The heading of an add.
pub(crate) fn add_heading(alloc: Global) -> Result<Vec<u8>, AllocError>
    ensures { IfOk result (λ text. text.items ≡ add_heading) }
{
    let mut text = Vec::new(alloc);
    text.extend_from_slice(b"# add\n")?;
    Ok(text)
}

/// The heading of a poll.
pub(crate) fn poll_heading(alloc: Global, poll: u64) -> Result<Vec<u8>, AllocError>
    ensures { IfOk result (λ text. text.items ≡ poll_heading poll) }
{
    let heading = format!(in alloc; "# {poll}\n")?;
    let mut text = Vec::new(alloc);
    text.extend_from_slice(heading.as_bytes())?;
    Ok(text)
}

// An object on a line.
fn line(alloc: Global, out: &mut Vec<u8>, object: &Obj) -> Result<(), AllocError>
    ensures { OnOk result (out.new.items ≡ out.old.items ++ line object.now) }
{
    let mut text = Vec::new(alloc);
    write(None, object, &mut text)?;
    put_screened(text.as_slice(), out)?;
    out.push(b'\n')?;
    Ok(())
}

// A line for each item of the mirror.
fn items(alloc: Global, mirror: &Mirror) -> Result<Vec<u8>, AllocError>
    ensures { IfOk result (λ text. text.items ≡ items_text mirror.now.held) }
{
    let mut out = Vec::new(alloc);
    for place in 0..mirror.len() {
        match mirror.at(place) {
            Some(object) => line(alloc, &mut out, object)?,
            None => unreachable!(),
        }
    }
    Ok(out)
}

// The entries of a WatchOut.
fn entries(reply: &Obj) -> &[Obj]
    ensures { in_hand.AreEntries reply.now result.now }
{
    match reply.child("values") {
        Some(values) => values.children(),
        None => &[],
    }
}

// A line for each err.
fn err_lines(alloc: Global, entries: &[Obj]) -> Result<Vec<u8>, AllocError>
    ensures { IfOk result (λ text. text.items ≡ lines_of (filter is_err entries.now)) }
{
    let mut out = Vec::new(alloc);
    for entry in entries {
        if entry.kind().same(Kind::Err) {
            line(alloc, &mut out, entry)?;
        }
    }
    Ok(out)
}

/// The lines that stand behind the items of an add: of the errs of the reply, where items are printed.
pub(crate) fn errs(alloc: Global, topic: &Topic, reply: &Obj) -> Result<Vec<u8>, AllocError>
    ensures { IfOk result (λ text. in_hand.AreErrs topic.now reply.now text.items) }
{
    match topic {
        Topic::Watch { hrefs: _ } => err_lines(alloc, entries(reply)),
        Topic::Console {
            subject: _,
            ack: _,
            user: _,
        } => Ok(Vec::new(alloc)),
    }
}

// The events of the feed that was added.
fn events_in(watching: &Watching) -> &[Obj]
    ensures { result.now ≡ events_of watching.now.asked.items watching.now.mirror.held }
{
    match watching.asked.first() {
        Some(feed) => watching.mirror.events(feed.as_str()),
        None => &[],
    }
}

// What the making of a board answers. An error only for want of memory.
fn made(answer: Result<Board, BoardFault>) -> Result<Option<Board>, AllocError>
    ensures { in_hand.Makes answer result }
{
    match answer {
        Ok(board) => Ok(Some(board)),
        Err(BoardFault::Shape { place: _ }) => Ok(None),
        Err(BoardFault::Memory) => Err(AllocError),
    }
}

/// The board of the feed that was added; None where an event is no alarm.
pub(crate) fn board_in(alloc: Global, watching: &Watching) -> Result<Option<Board>, AllocError>
    ensures { IfOk result (λ board. option_map boards.lines_of board ≡ board_in (in_hand.watching watching.now)) }
{
    made(Board::of(alloc, events_in(watching)))
}

/// What stands under a heading: the items, or the board.
pub(crate) fn body(
    alloc: Global,
    topic: &Topic,
    watching: &Watching,
) -> Result<Option<Vec<u8>>, AllocError>
    ensures { IfOk result (λ text. option_map in_hand.bytes text ≡ body_text topic.now (in_hand.watching watching.now)) }
{
    match topic {
        Topic::Watch { hrefs: _ } => {
            let text = items(alloc, &watching.mirror)?;
            Ok(Some(text))
        }
        Topic::Console {
            subject: _,
            ack: _,
            user: _,
        } => {
            let Some(board) = board_in(alloc, watching)? else {
                return Ok(None);
            };
            let text = print_board(alloc, &board)?;
            Ok(Some(text))
        }
    }
}
