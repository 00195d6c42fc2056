//! What is told on `errors` of how a run ended.
ghost use Rattle.std.specs.Prelude.{◌≡◌, ◌++◌, ℕ, List, codes, IfOk};
ghost use Rattle.ob_program.specs.Telling.{errors_told, lead, has_words, short, Tells};

use crate::exit::Exit;
use ob_io::{Sink, write_all};
use std::alloc::{AllocError, Global};

/// The line of an exit, but for its words.
fn lead(exit: Exit) -> &'static str
    ensures { result.now ≡ lead exit }
{
    match exit {
        Exit::Ok => "",
        Exit::Usage => "obix: usage: ",
        Exit::Refused => "obix: refused: ",
        Exit::ReadFault => "obix: read fault",
        Exit::WriteFault => "obix: write fault\n",
        Exit::Frame => "obix: frame ",
        Exit::Truncated => "obix: truncated\n",
        Exit::LinkFault => "obix: link fault\n",
        Exit::Peer => "obix: peer: ",
        Exit::PortFault => "obix: port fault",
        Exit::ClockFault => "obix: clock fault\n",
        Exit::Budget => "obix: budget\n",
        Exit::Memory => "obix: out of memory\n",
        Exit::Illegal => "",
        Exit::IllegalRecord => "obix: illegal at ",
        Exit::RecordFault => "obix: record fault",
    }
}

/// Whether the line of an exit goes on with words.
fn has_words(exit: Exit) -> bool
    ensures { result ≡ has_words exit }
{
    matches!(
        exit,
        Exit::Usage
            | Exit::Refused
            | Exit::ReadFault
            | Exit::Frame
            | Exit::Peer
            | Exit::PortFault
            | Exit::IllegalRecord
            | Exit::RecordFault
    )
}

/// What is told of an exit that has words, where there is no memory for its line: a fault, or that.
fn short(exit: Exit) -> &'static str
    ensures { result.now ≡ short exit }
{
    match exit {
        Exit::ReadFault => "obix: read fault\n",
        Exit::PortFault => "obix: port fault\n",
        Exit::RecordFault => "obix: record fault\n",
        _ => "obix: out of memory\n",
    }
}

/// The line of an exit that has words.
fn worded_line(
    alloc: Global,
    exit: Exit,
    words: Result<Vec<u8>, AllocError>,
) -> Result<Vec<u8>, AllocError>
    ensures { (said : List ℕ) → IfOk words (λ bytes. bytes.items ≡ said) → IfOk result (λ line. line.items ≡ lead exit ++ (said ++ codes "\n")) }
{
    let words = words?;
    let mut line = lead(exit).as_bytes().to_vec(alloc)?;
    line.extend_from_slice(&words)?;
    line.extend_from_slice(b"\n")?;
    Ok(line)
}

/// Tells the line of an exit, with these words where it has some. Where there was no memory for them, a fault is told without
/// them, and of another exit that in its place.
/// Faults of `errors` change nothing.
pub(crate) fn tell<E: Sink>(
    alloc: Global,
    errors: &mut E,
    exit: Exit,
    words: Result<Vec<u8>, AllocError>,
)
    ensures { (said : List ℕ) → IfOk words (λ bytes. bytes.items ≡ said)
        → Tells (errors_told (E.held errors.old) (E.faults errors.old)) (errors_told (E.held errors.new) (E.faults errors.new)) exit said }
{
    if !has_words(exit) {
        let _ = write_all(errors, lead(exit).as_bytes());
        return;
    }
    let _ = match worded_line(alloc, exit, words) {
        Ok(line) => write_all(errors, &line),
        Err(AllocError) => write_all(errors, short(exit).as_bytes()),
    };
}
