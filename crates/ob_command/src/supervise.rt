//! The command that supervises several servers.
ghost use Rattle.std.specs.Prelude.{◌≡◌, option_map};
ghost use Rattle.ob_command.specs.Command.{supervise_of};
ghost use Rattle.ob_command.specs.Words.{arguments_of};
ghost use Rattle.ob_command.specs.Named.{command_of};

use crate::argument::Arguments;
use crate::command::Command;

/// Servers that are shown in one tree.
#[derive(Clone, Copy)]
pub struct Supervise<'a> {
    /// The file that names them, and what is watched at each.
    pub config: &'a str,
    /// How many rounds over them come before the first request.
    pub rounds: u32,
    /// How many milliseconds one of them may take for a poll, for a dial with all that opens its watch, and for a write that is
    /// sent on.
    pub wait_ms: u32,
}

/// The command of the arguments `CONFIG [--rounds N] [--wait MS]`.
pub(crate) fn supervise_of(given: Arguments<'_>) -> Option<Command<'_>>
    ensures { option_map command_of result ≡ supervise_of (arguments_of given.entry) }
{
    if !given.has_only(&["--rounds", "--wait"]) {
        return None;
    }
    let (config, behind) = given.next_operand()?;
    if behind.next_operand().is_some() {
        return None;
    }
    let rounds = given.number_or("--rounds", 0, 1_000_000, 1)?;
    let wait_ms = given.number_or("--wait", 1, 300_000, 10_000)?;
    Some(Command::Super(Supervise {
        config,
        rounds: rounds as u32,
        wait_ms: wait_ms as u32,
    }))
}
