//! The command that serves a site with weekly schedules.
ghost use Rattle.std.specs.Prelude.{◌≡◌, option_map};
ghost use Rattle.ob_command.specs.Command.{schedule_of};
ghost use Rattle.ob_command.specs.Words.{arguments_of};
ghost use Rattle.ob_command.specs.Named.{command_of};

use crate::argument::Arguments;
use crate::command::Command;
use crate::number::LARGEST_NUMBER;
use crate::server::LAST_MOMENT;

/// A site that is served on the standard streams and gets the writes of weekly schedules, and when.
#[derive(Clone, Copy)]
pub struct Scheduled<'a> {
    /// The site file.
    pub site: &'a str,
    /// The file of the schedules.
    pub file: &'a str,
    /// The moment of the boot and of the first request, in milliseconds since 1970, where the clock isn't asked.
    pub at: Option<u64>,
    /// The milliseconds from the moment of a request to that of the next.
    pub tick: u64,
}

/// The command of the arguments `SITE FILE [--at MS] [--tick MS]`.
pub(crate) fn schedule_of(given: Arguments<'_>) -> Option<Command<'_>>
    ensures { option_map command_of result ≡ schedule_of (arguments_of given.entry) }
{
    if !given.has_only(&["--at", "--tick"]) {
        return None;
    }
    let (site, behind) = given.next_operand()?;
    let (file, behind) = behind.next_operand()?;
    if behind.next_operand().is_some() {
        return None;
    }
    let at = given.number_given("--at", 0, LAST_MOMENT)?;
    let tick = given.number_or("--tick", 0, LARGEST_NUMBER, 0)?;
    Some(Command::Schedule(Scheduled {
        site,
        file,
        at,
        tick,
    }))
}
