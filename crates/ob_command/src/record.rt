//! The commands on the record of a run.
ghost use Rattle.std.specs.Prelude.{◌≡◌, option_map};
ghost use Rattle.ob_command.specs.Command.{auditing_of, compact_of};
ghost use Rattle.ob_command.specs.Words.{arguments_of};
ghost use Rattle.ob_command.specs.Named.{command_of};

use crate::argument::Arguments;
use crate::command::Command;

/// A record that is audited.
#[derive(Clone, Copy)]
pub struct Audit<'a> {
    /// The site file.
    pub site: &'a str,
    /// The record's file.
    pub file: &'a str,
}

/// A record of which a shorter one is written.
#[derive(Clone, Copy)]
pub struct Compact<'a> {
    /// The site file.
    pub site: &'a str,
    /// The record's file.
    pub file: &'a str,
    /// The file of the new record.
    pub new: &'a str,
}

/// The command of the arguments `SITE FILE`.
pub(crate) fn audit_of(given: Arguments<'_>) -> Option<Command<'_>>
    ensures { option_map command_of result ≡ auditing_of (arguments_of given.entry) }
{
    if !given.has_only(&[]) {
        return None;
    }
    let (site, behind) = given.next_operand()?;
    let (file, behind) = behind.next_operand()?;
    if behind.next_operand().is_some() {
        return None;
    }
    Some(Command::Audit(Audit { site, file }))
}

/// The command of the arguments `SITE RECORD NEW`.
pub(crate) fn compact_of(given: Arguments<'_>) -> Option<Command<'_>>
    ensures { option_map command_of result ≡ compact_of (arguments_of given.entry) }
{
    if !given.has_only(&[]) {
        return None;
    }
    let (site, behind) = given.next_operand()?;
    let (file, behind) = behind.next_operand()?;
    let (new, behind) = behind.next_operand()?;
    if behind.next_operand().is_some() {
        return None;
    }
    Some(Command::Compact(Compact { site, file, new }))
}
