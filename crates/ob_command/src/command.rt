//! The commands.
ghost use Rattle.std.specs.Prelude.{◌≡◌, true, map, option_map, string_bytes, Some, MatchResult};
ghost use Rattle.ob_command.specs.Command.{command, is_client, reads_url, storm, named, is_help, is_version, asks_help, help_of, worded};
ghost use Rattle.ob_command.specs.Forms.{verb_of, form};
ghost use Rattle.ob_command.specs.Slips.{slip, form_slip, help_slip, text_slip};
ghost use Rattle.ob_command.specs.Storm.{storm_of};
ghost use Rattle.ob_command.specs.Words.{arguments_of};
ghost use Rattle.ob_command.specs.Named.{command_of, IsRead};

use crate::argument::Arguments;
use crate::client::{Console, Watch, console_of, watch_of};
use crate::form::{Verb, verb_of};
use crate::number::{LARGEST_NUMBER, number_between};
use crate::record::{Audit, Compact, audit_of, compact_of};
use crate::schedule::{Scheduled, schedule_of};
use crate::server::{Keep, Output, Serve, Stdio, check_of, keep_of, serve_of, stdio_of};
use crate::slip::{HELP_USAGE, Slip, VERSION_USAGE, form_slip};
use crate::storm::Storm;
use crate::supervise::{Supervise, supervise_of};
use crate::text::{are_texts, first_other};
use std::alloc::{AllocError, Global};

/// What is to be done.
#[derive(Drop)]
pub enum Command<'a> {
    /// The requests of the source are asked of a site file's site, and answered or recorded.
    Stdio(Stdio<'a>),
    /// The requests of the source are answered from a site file's site, which also gets the writes of weekly schedules.
    Schedule(Scheduled<'a>),
    /// Whether a record is legal from a site file.
    Audit(Audit<'a>),
    /// The requests of links that come to a port are answered from a site file.
    Serve(Serve<'a>),
    /// They are answered so, and what changes is in the file of a record before anyone is told.
    Keep(Keep<'a>),
    /// A shorter record that leads a site file's site to the same is written to a new file.
    Compact(Compact<'a>),
    /// The document of a file is checked and written in its canonical form.
    Check(&'a str),
    /// Objects of a server are watched and written.
    Watch(Watch),
    /// The alarms of a subject are watched and written.
    Console(Console),
    /// A site of its own is asked what a seed draws.
    Storm(Storm),
    /// The requests of the source are answered from a tree of what several servers show.
    Super(Supervise<'a>),
    /// The page on a command is written, or that on all of them.
    Help(Option<Verb>),
    /// The program's version is written.
    Version,
}

/// The storm that the arguments `SEED CLIENTS REQUESTS` ask for.
fn storm_of(given: Arguments<'_>) -> Option<Command<'_>>
    ensures { option_map command_of result ≡ option_map storm (storm_of (arguments_of given.entry)) }
{
    if !given.has_only(&[]) {
        return None;
    }
    let (seed, behind) = given.next_operand()?;
    let (clients, behind) = behind.next_operand()?;
    let (requests, behind) = behind.next_operand()?;
    if behind.next_operand().is_some() {
        return None;
    }
    let seed = number_between(seed.as_bytes(), 0, LARGEST_NUMBER)?;
    let clients = number_between(clients.as_bytes(), 1, 100)?;
    let requests = number_between(requests.as_bytes(), 1, 1_000_000)?;
    Some(Command::Storm(Storm {
        seed,
        clients: clients as u32,
        requests: requests as u32,
    }))
}

/// The command of a name with these arguments, if they are some. An error only for want of memory, and only for the commands of
/// clients.
fn named(alloc: Global, verb: Verb, given: Arguments<'_>) -> Result<Option<Command<'_>>, AllocError>
    ensures { MatchResult result
        (λ read. option_map command_of read ≡ named verb (arguments_of given.entry))
        (λ _. reads_url (Some verb) ≡ true) }
{
    match verb {
        Verb::Serve => Ok(serve_of(given)),
        Verb::Keep => Ok(keep_of(given)),
        Verb::Compact => Ok(compact_of(given)),
        Verb::Stdio => Ok(stdio_of(Output::Answers, given)),
        Verb::Schedule => Ok(schedule_of(given)),
        Verb::Watch => watch_of(alloc, given),
        Verb::Console => console_of(alloc, given),
        Verb::Check => Ok(check_of(given)),
        Verb::Record => Ok(stdio_of(Output::Record, given)),
        Verb::Audit => Ok(audit_of(given)),
        Verb::Super => Ok(supervise_of(given)),
        Verb::Storm => Ok(storm_of(given)),
    }
}

/// The command of a name with these arguments, or the first offence among them. An error only for want of memory, and only for
/// the commands of clients.
fn read_named(
    alloc: Global,
    verb: Verb,
    given: Arguments<'_>,
) -> Result<Result<Command<'_>, Slip<'_>>, AllocError>
    ensures { MatchResult result
        (λ read. IsRead (named verb (arguments_of given.entry)) (form_slip (form verb) (arguments_of given.entry)) read)
        (λ _. reads_url (Some verb) ≡ true) }
{
    if let Some(command) = named(alloc, verb, given)? {
        return Ok(Ok(command));
    }
    let form = verb.form();
    match form_slip(alloc, form, given)? {
        Some(slip) => Ok(Err(slip)),
        // There is an offence where there is no command.
        None => Ok(Err(Slip::Miscounted(form.usage))),
    }
}

fn is_help(word: &str) -> bool
    ensures { result ≡ is_help word.now }
{
    word == "help" || word == "--help"
}

fn is_version(word: &str) -> bool
    ensures { result ≡ is_version word.now }
{
    word == "--version"
}

/// Whether `--help` stands among the words, before any `--`.
fn asks_help(words: &[String]) -> bool
    ensures { result ≡ asks_help (map string_bytes words.now) }
{
    for word in words {
        if word.as_str() == "--" {
            return false;
        }
        if word.as_str() == "--help" {
            return true;
        }
    }
    false
}

/// The command of the words after `help`, or the first offence among them.
fn help_of(words: &[String]) -> Result<Command<'_>, Slip<'_>>
    ensures { IsRead (help_of (map string_bytes words.now)) (help_slip (map string_bytes words.now)) result }
{
    let word = match words {
        [] => return Ok(Command::Help(None)),
        [word] => word.as_str(),
        _ => return Err(Slip::Miscounted(HELP_USAGE)),
    };
    if is_help(word) || is_version(word) {
        return Ok(Command::Help(None));
    }
    match verb_of(word) {
        Some(verb) => Ok(Command::Help(Some(verb))),
        None => Err(Slip::NoCommand(word)),
    }
}

/// The command of words that XML can carry, or their first offence. An error only for want of memory, and only for the commands
/// of clients.
fn worded<'a>(
    alloc: Global,
    word: &'a str,
    words: &'a [String],
) -> Result<Result<Command<'a>, Slip<'a>>, AllocError>
    ensures { MatchResult result
        (λ read. IsRead (worded word.now (map string_bytes words.now)) (text_slip word.now (map string_bytes words.now)) read)
        (λ _. reads_url (verb_of word.now) ≡ true) }
{
    if is_help(word) {
        return Ok(help_of(words));
    }
    if is_version(word) {
        return Ok(match words {
            [] => Ok(Command::Version),
            _ => Err(Slip::Miscounted(VERSION_USAGE)),
        });
    }
    let Some(verb) = verb_of(word) else {
        return Ok(Err(Slip::NoCommand(word)));
    };
    if asks_help(words) {
        return Ok(Ok(Command::Help(Some(verb))));
    }
    read_named(alloc, verb, Arguments::of(words))
}

/// The command that the words are, where they are one:
///
/// - `serve SITE HOST PORT [--workers N] [--quota M]`
/// - `keep SITE RECORD HOST PORT [--workers N] [--quota M]`
/// - `compact SITE RECORD NEW`
/// - `stdio SITE [--at MS] [--tick MS]`
/// - `schedule SITE FILE [--at MS] [--tick MS]`
/// - `watch URL HREF.. [--polls N] [--retry R]`
/// - `console URL SUBJECT [--polls N] [--ack HREF] [--user NAME]`
/// - `check FILE`
/// - `record SITE [--at MS] [--tick MS]`
/// - `audit SITE FILE`
/// - `super CONFIG [--rounds N] [--wait MS]`
/// - `storm SEED CLIENTS REQUESTS`
/// - `help [COMMAND]`, `--help [COMMAND]`, or one of the commands above with `--help` among its words, before any `--`
/// - `--version`
///
/// An option stands anywhere after the command, at most once, as `--x V` or `--x=V`; `--` ends the options. Numbers
/// have 1 to 18 digits, and each word is text that XML can carry. URL is an http URL without a fragment, and SUBJECT names
/// something on its server. Other words are no command, and their first offence is told. An error only for want of memory, and
/// only for the commands of clients.
pub fn read_command<'a>(
    alloc: Global,
    words: &'a [String],
) -> Result<Result<Command<'a>, Slip<'a>>, AllocError>
    ensures { MatchResult result
        (λ read. IsRead (command (map string_bytes words.now)) (slip (map string_bytes words.now)) read)
        (λ _. is_client (map string_bytes words.now) ≡ true) }
{
    let [word, behind @ ..] = words else {
        return Ok(Err(Slip::Nothing));
    };
    if !are_texts(words) {
        return Ok(Err(Slip::NoText(first_other(words))));
    }
    worded(alloc, word.as_str(), behind)
}
