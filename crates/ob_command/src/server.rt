//! The commands that serve a site, and the one that checks a document.
ghost use Rattle.std.specs.Prelude.{◌≡◌, option_map};
ghost use Rattle.ob_command.specs.Command.{stdio_of, serve_of, keep_of, check_of};
ghost use Rattle.ob_command.specs.Words.{arguments_of};
ghost use Rattle.ob_command.specs.Named.{command_of};

use crate::argument::Arguments;
use crate::command::Command;
use crate::number::{LARGEST_NUMBER, number_between};

/// The last moment that there is, in milliseconds since 1970.
pub(crate) const LAST_MOMENT: u64 = 253_402_300_799_999;

/// What is written for the requests of the source.
#[derive(Clone, Copy)]
pub enum Output {
    /// Their answers.
    Answers,
    /// The record of those that go to the site.
    Record,
}

/// A site that is served on the standard streams, and when.
#[derive(Clone, Copy)]
pub struct Stdio<'a> {
    pub output: Output,
    /// The site file.
    pub site: &'a str,
    /// The moment of the boot and of the first request, in milliseconds since 1970, where the clock isn't asked.
    pub at: Option<u64>,
    /// The milliseconds from the moment of a request to that of the next.
    pub tick: u64,
}

/// A site that is served at a port.
#[derive(Clone, Copy)]
pub struct Serve<'a> {
    /// The site file.
    pub site: &'a str,
    /// The name or address that is listened at.
    pub host: &'a str,
    pub port: u16,
    /// How many workers there are.
    pub workers: u8,
    /// How many links each of them serves.
    pub quota: u32,
}

/// A site that is served at a port, with the file of its record.
#[derive(Clone, Copy)]
pub struct Keep<'a> {
    pub service: Serve<'a>,
    /// The record's file.
    pub file: &'a str,
}

/// The command of the arguments `SITE [--at MS] [--tick MS]`.
pub(crate) fn stdio_of(output: Output, given: Arguments<'_>) -> Option<Command<'_>>
    ensures { option_map command_of result ≡ stdio_of output (arguments_of given.entry) }
{
    if !given.has_only(&["--at", "--tick"]) {
        return None;
    }
    let (site, behind) = given.next_operand()?;
    if behind.next_operand().is_some() {
        return None;
    }
    let at = given.number_given("--at", 0, LAST_MOMENT)?;
    let tick = given.number_or("--tick", 0, LARGEST_NUMBER, 0)?;
    Some(Command::Stdio(Stdio {
        output,
        site,
        at,
        tick,
    }))
}

/// The command of the arguments `SITE HOST PORT [--workers N] [--quota M]`.
pub(crate) fn serve_of(given: Arguments<'_>) -> Option<Command<'_>>
    ensures { option_map command_of result ≡ serve_of (arguments_of given.entry) }
{
    if !given.has_only(&["--workers", "--quota"]) {
        return None;
    }
    let (site, behind) = given.next_operand()?;
    let (host, behind) = behind.next_operand()?;
    let (port, behind) = behind.next_operand()?;
    if behind.next_operand().is_some() {
        return None;
    }
    let port = number_between(port.as_bytes(), 0, 65_535)?;
    let workers = given.number_or("--workers", 1, 64, 4)?;
    let quota = given.number_or("--quota", 1, 1_000_000, 1)?;
    Some(Command::Serve(Serve {
        site,
        host,
        port: port as u16,
        workers: workers as u8,
        quota: quota as u32,
    }))
}

/// The command of the arguments `SITE RECORD HOST PORT [--workers N] [--quota M]`.
pub(crate) fn keep_of(given: Arguments<'_>) -> Option<Command<'_>>
    ensures { option_map command_of result ≡ keep_of (arguments_of given.entry) }
{
    if !given.has_only(&["--workers", "--quota"]) {
        return None;
    }
    let (site, behind) = given.next_operand()?;
    let (file, behind) = behind.next_operand()?;
    let (host, behind) = behind.next_operand()?;
    let (port, behind) = behind.next_operand()?;
    if behind.next_operand().is_some() {
        return None;
    }
    let port = number_between(port.as_bytes(), 0, 65_535)?;
    let workers = given.number_or("--workers", 1, 64, 4)?;
    let quota = given.number_or("--quota", 1, 1_000_000, 1)?;
    let service = Serve {
        site,
        host,
        port: port as u16,
        workers: workers as u8,
        quota: quota as u32,
    };
    Some(Command::Keep(Keep { service, file }))
}

/// The command of the argument `FILE`.
pub(crate) fn check_of(given: Arguments<'_>) -> Option<Command<'_>>
    ensures { option_map command_of result ≡ check_of (arguments_of given.entry) }
{
    if !given.has_only(&[]) {
        return None;
    }
    let (file, behind) = given.next_operand()?;
    if behind.next_operand().is_some() {
        return None;
    }
    Some(Command::Check(file))
}
