//! The commands of clients.
ghost use Rattle.std.specs.Prelude.{◌≡◌, None, MatchOption, IfOk, option_map, option_copied};
ghost use Rattle.ob_command.specs.Command.{watch_of, console_of};
ghost use Rattle.ob_command.specs.Words.{arguments_of};
ghost use Rattle.ob_command.specs.Named.{command_of, watch_from, console_from};
ghost use Rattle.ob_command.specs.Texts.{optional_text};

use crate::argument::Arguments;
use crate::command::Command;
use crate::text::{read_text, read_texts, read_url, read_url_of};
use ob_href::Base;
use ob_values::Text;
use std::alloc::{AllocError, Global};

/// Objects of a server that are watched.
#[derive(Drop)]
pub struct Watch {
    /// The URL of the server's lobby.
    pub url: Base,
    /// What is watched.
    pub hrefs: Vec<Text>,
    /// How often the watch is polled.
    pub polls: u64,
    /// How many broken polls are mended.
    pub retries: u64,
}

/// The alarms of a subject, which are watched, and one of which may be acknowledged.
#[derive(Drop)]
pub struct Console {
    /// The URL of the server's lobby.
    pub url: Base,
    /// The alarm subject.
    pub subject: Text,
    /// How often its feed is polled.
    pub polls: u64,
    /// The alarm that is acknowledged.
    pub ack: Option<Text>,
    /// Who acknowledges it.
    pub user: Text,
}

/// The words of `watch`.
#[derive(Clone, Copy)]
pub(crate) struct WatchWords<'a> {
    pub url: &'a str,
    /// Their operands.
    pub hrefs: Arguments<'a>,
    pub polls: u64,
    pub retries: u64,
}

/// The words of `console`.
#[derive(Clone, Copy)]
pub(crate) struct ConsoleWords<'a> {
    pub url: &'a str,
    pub subject: &'a str,
    pub polls: u64,
    pub ack: Option<&'a str>,
    pub user: &'a str,
}

/// The words of the arguments `URL HREF.. [--polls N] [--retry R]`.
fn watch_words(given: Arguments<'_>) -> Option<WatchWords<'_>>
    ensures { MatchOption result (watch_of (arguments_of given.entry) ≡ None) (λ words. watch_of (arguments_of given.entry) ≡ watch_from words) }
{
    if !given.has_only(&["--polls", "--retry"]) {
        return None;
    }
    let (url, hrefs) = given.next_operand()?;
    hrefs.next_operand()?;
    let polls = given.number_or("--polls", 0, 1_000_000, 1)?;
    let retries = given.number_or("--retry", 0, 100, 0)?;
    Some(WatchWords {
        url,
        hrefs,
        polls,
        retries,
    })
}

/// The watch of such words, if their texts and the URL are some. An error only for want of memory.
fn read_watch(alloc: Global, words: WatchWords<'_>) -> Result<Option<Command<'static>>, AllocError>
    ensures { IfOk result (λ read. option_map command_of read ≡ watch_from words.entry) }
{
    let Some(hrefs) = read_texts(alloc, words.hrefs)? else {
        return Ok(None);
    };
    let Some(url) = read_url(alloc, words.url)? else {
        return Ok(None);
    };
    Ok(Some(Command::Watch(Watch {
        url,
        hrefs,
        polls: words.polls,
        retries: words.retries,
    })))
}

/// The watch that the arguments `URL HREF.. [--polls N] [--retry R]` ask for. An error only for want of memory.
pub(crate) fn watch_of(
    alloc: Global,
    given: Arguments<'_>,
) -> Result<Option<Command<'static>>, AllocError>
    ensures { IfOk result (λ read. option_map command_of read ≡ watch_of (arguments_of given.entry)) }
{
    match watch_words(given) {
        Some(words) => read_watch(alloc, words),
        None => Ok(None),
    }
}

/// The words of the arguments `URL SUBJECT [--polls N] [--ack HREF] [--user NAME]`.
fn console_words(given: Arguments<'_>) -> Option<ConsoleWords<'_>>
    ensures { MatchOption result (console_of (arguments_of given.entry) ≡ None) (λ words. console_of (arguments_of given.entry) ≡ console_from words) }
{
    if !given.has_only(&["--polls", "--ack", "--user"]) {
        return None;
    }
    let (url, behind) = given.next_operand()?;
    let (subject, behind) = behind.next_operand()?;
    if behind.next_operand().is_some() {
        return None;
    }
    let polls = given.number_or("--polls", 0, 1_000_000, 1)?;
    let ack = given.word_given("--ack")?;
    let user = given.word_given("--user")?;
    Some(ConsoleWords {
        url,
        subject,
        polls,
        ack,
        user: user.unwrap_or("console"),
    })
}

/// The word as a text, where there is one: nothing where XML can't carry it. An error only for want of memory.
fn read_optional(alloc: Global, word: Option<&str>) -> Result<Option<Option<Text>>, AllocError>
    ensures { IfOk result (λ text. text ≡ optional_text (option_copied word.entry)) }
{
    match word {
        None => Ok(Some(None)),
        Some(word) => match read_text(alloc, word)? {
            Some(text) => Ok(Some(Some(text))),
            None => Ok(None),
        },
    }
}

/// The console of such words, if their texts and the URL are some. An error only for want of memory.
fn read_console(
    alloc: Global,
    words: ConsoleWords<'_>,
) -> Result<Option<Command<'static>>, AllocError>
    ensures { IfOk result (λ read. option_map command_of read ≡ console_from words.entry) }
{
    let Some(subject) = read_text(alloc, words.subject)? else {
        return Ok(None);
    };
    let Some(user) = read_text(alloc, words.user)? else {
        return Ok(None);
    };
    let Some(ack) = read_optional(alloc, words.ack)? else {
        return Ok(None);
    };
    let Some(url) = read_url_of(alloc, words.url, words.subject)? else {
        return Ok(None);
    };
    Ok(Some(Command::Console(Console {
        url,
        subject,
        polls: words.polls,
        ack,
        user,
    })))
}

/// The console that the arguments `URL SUBJECT [--polls N] [--ack HREF] [--user NAME]` ask for. An error only for want of
/// memory.
pub(crate) fn console_of(
    alloc: Global,
    given: Arguments<'_>,
) -> Result<Option<Command<'static>>, AllocError>
    ensures { IfOk result (λ read. option_map command_of read ≡ console_of (arguments_of given.entry)) }
{
    match console_words(given) {
        Some(words) => read_console(alloc, words),
        None => Ok(None),
    }
}
