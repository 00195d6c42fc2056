//! `help` and `--version`: a text of the program's own is written.
ghost use Rattle.std.specs.Prelude.{◌≡◌, ◌≢◌};
ghost use Rattle.ob_program.specs.Telling.{errors_told};
ghost use Rattle.ob_program.specs.Text.{exit_of_write, TextRan};

use crate::exit::Exit;
use crate::telling::tell;
use ob_io::{Failed, Sink, write_all};
use std::alloc::Global;

/// The exit that a write leads to.
fn exit_of_write(written: Result<(), Failed>) -> Exit
    ensures { result ≡ exit_of_write written }
{
    match written {
        Ok(()) => Exit::Ok,
        Err(_) => Exit::WriteFault,
    }
}

/// Writes a text, and tells on `errors` what went wrong.
pub(crate) fn run_text<K: Sink, E: Sink>(
    alloc: Global,
    text: &str,
    sink: &mut K,
    errors: &mut E,
) -> Exit
    ensures ran { TextRan text.now (K.held sink.old) (K.held sink.new) (K.faults sink.old) (K.faults sink.new)
        (errors_told (E.held errors.old) (E.faults errors.old)) (errors_told (E.held errors.new) (E.faults errors.new)) result }
    ensures unused { result ≢ Exit.Usage }
{
    let written = write_all(sink, text.as_bytes());
    let exit = exit_of_write(written);
    tell(alloc, errors, exit, Ok(Vec::new(alloc)));
    exit
}
