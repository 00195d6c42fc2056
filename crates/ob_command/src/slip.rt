//! What is wrong with words that are no command: the first offence, in their order.
ghost use Rattle.std.specs.Prelude.{◌≡◌, ◌++◌, List, ℕ, length, nat_lt, map, option_map, string_bytes, true, MatchOption, MatchResult, IfOk, IfErr};
ghost use Rattle.ob_command.specs.Arguments as grammar;
ghost use Rattle.ob_command.specs.Arguments.{operands, values};
ghost use Rattle.ob_command.specs.Command.{reads_url};
ghost use Rattle.ob_command.specs.Forms.{asked_name};
ghost use Rattle.ob_command.specs.Named.{asked_of, form_of, slip_of};
ghost use Rattle.ob_command.specs.Slips.{fits, fit_slip, asked_as, operand_slip, argument_slip, wanted_after, still_wanted, is_done, first_slip, first_of, form_slip, takes_memory, reads_memory};
ghost use Rattle.ob_command.specs.Words.{argument_of, arguments_of};

use crate::argument::{Argument, Arguments};
use crate::form::{Asked, Form};
use crate::number::number_between;
use crate::text::{is_text, read_url, read_url_of};
use std::alloc::{AllocError, Global};

/// What `help` asks for.
pub(crate) const HELP_USAGE: &str = "help [COMMAND]";

/// What `--version` asks for.
pub(crate) const VERSION_USAGE: &str = "--version";

/// What is wrong with words that are no command.
#[derive(Clone, Copy)]
pub enum Slip<'a> {
    /// There is no word.
    Nothing,
    /// XML can't carry the word.
    NoText(&'a str),
    /// The word is no command's name.
    NoCommand(&'a str),
    /// There are too few operands, or too many, for a command of this usage.
    Miscounted(&'static str),
    /// The command, the first name, has no option of the second name.
    NoOption(&'static str, &'a str),
    /// The option of this name has no value.
    NoValue(&'a str),
    /// The option of this name stands a second time.
    Twice(&'a str),
    /// The word isn't what is asked for.
    Unfit(Asked, &'a str),
}

/// Where an argument stands among those of a command.
#[derive(Clone, Copy)]
struct Standing<'a> {
    form: Form,
    /// The first operand of the command.
    url: &'a str,
    /// All arguments of the command.
    given: Arguments<'a>,
    /// Those from this one on.
    rest: Arguments<'a>,
    /// The operands that are asked for from here on.
    wanted: &'static [Asked],
}

impl Asked {
    /// The name of an operand or an option.
    pub(crate) fn name(self) -> &'static str
        ensures { result.now ≡ asked_name (asked_of self) }
    {
        match self {
            Asked::Text(name) | Asked::Texts(name) | Asked::Url(name) | Asked::Place(name) => name,
            Asked::Number(name, _, _) => name,
        }
    }
}

/// Whether a word is what is asked for, where the first operand is `url`. An error only for want of memory, and only where a URL
/// is read.
fn fits(alloc: Global, url: &str, asked: Asked, word: &str) -> Result<bool, AllocError>
    ensures value { IfOk result (λ fits_it. fits_it ≡ fits url.now (asked_of asked) word.now) }
    ensures memory { IfErr result (λ _. takes_memory (asked_of asked) ≡ true) }
{
    match asked {
        Asked::Text(_) | Asked::Texts(_) => Ok(is_text(word)),
        Asked::Number(_, least, most) => {
            Ok(number_between(word.as_bytes(), least, most).is_some())
        }
        Asked::Url(_) => {
            let read = read_url(alloc, word)?;
            Ok(read.is_some())
        }
        Asked::Place(_) => {
            if !is_text(word) {
                return Ok(false);
            }
            let read = read_url_of(alloc, url, word)?;
            Ok(read.is_some())
        }
    }
}

/// The slip where a word isn't what is asked for. An error only for want of memory, and only where a URL is read.
fn fit_slip<'a>(
    alloc: Global,
    url: &str,
    asked: Asked,
    word: &'a str,
) -> Result<Option<Slip<'a>>, AllocError>
    ensures value { IfOk result (λ slip. option_map slip_of slip ≡ fit_slip url.now (asked_of asked) word.now) }
    ensures memory { IfErr result (λ _. takes_memory (asked_of asked) ≡ true) }
{
    if fits(alloc, url, asked, word)? {
        return Ok(None);
    }
    Ok(Some(Slip::Unfit(asked, word)))
}

/// What is asked for by a name.
fn asked_as(name: &str, options: &[Asked]) -> Option<Asked>
    ensures { option_map asked_of result ≡ asked_as name.now (map asked_of options.now) }
{
    for asked in options {
        if asked.name() == name {
            return Some(*asked);
        }
    }
    None
}

/// Whether an option has more values among all arguments than among those from a place on.
fn is_before(given: Arguments<'_>, rest: Arguments<'_>, name: &str) -> bool
    ensures { result ≡ nat_lt (length (values name.now (arguments_of rest.entry))) (length (values name.now (arguments_of given.entry))) }
{
    let mut all = given;
    let mut later = rest;
    while let Some((_, left)) = all.next_value(name) {
        match later.next_value(name) {
            None => return true,
            Some((_, left)) => later = left,
        }
        all = left;
    }
    false
}

/// What is wrong with an argument, if anything is. An error only for want of memory, and only where a URL is read.
fn argument_slip<'a>(
    alloc: Global,
    here: Standing<'a>,
    argument: Argument<'a>,
) -> Result<Option<Slip<'a>>, AllocError>
    ensures value { (before : List grammar.Argument) → arguments_of here.entry.given ≡ before ++ arguments_of here.entry.rest
        → IfOk result (λ slip. option_map slip_of slip ≡ argument_slip (form_of here.entry.form) here.entry.url.now before (map asked_of here.entry.wanted.now) (argument_of argument.entry)) }
    ensures memory { IfErr result (λ _. reads_memory (form_of here.entry.form) (map asked_of here.entry.wanted.now) ≡ true) }
{
    let form = here.form;
    match argument {
        Argument::Operand(word) => match here.wanted {
            [asked, ..] => fit_slip(alloc, here.url, *asked, word),
            [] => Ok(Some(Slip::Miscounted(form.usage))),
        },
        Argument::Set(name, value) => match asked_as(name, form.options) {
            None => Ok(Some(Slip::NoOption(form.name, name))),
            Some(_) if is_before(here.given, here.rest, name) => Ok(Some(Slip::Twice(name))),
            Some(asked) => fit_slip(alloc, here.url, asked, value),
        },
        Argument::Bare(name) => Ok(Some(match asked_as(name, form.options) {
            None => Slip::NoOption(form.name, name),
            Some(_) => Slip::NoValue(name),
        })),
    }
}

/// What is asked for after an argument.
fn still_wanted(wanted: &'static [Asked], argument: Argument<'_>) -> &'static [Asked]
    ensures { map asked_of result.now ≡ still_wanted (map asked_of wanted.now) (argument_of argument.entry) }
{
    let Argument::Operand(_) = argument else {
        return wanted;
    };
    match wanted {
        [Asked::Texts(_), ..] | [] => wanted,
        [_, more @ ..] => more,
    }
}

/// Whether no operand is missing.
fn is_done(wanted: &[Asked]) -> bool
    ensures { result ≡ is_done (map asked_of wanted.now) }
{
    matches!(wanted, [] | [Asked::Texts(_), ..])
}

/// The first operand, or nothing.
fn first_operand<'a>(given: Arguments<'a>) -> &'a str
    ensures { result.now ≡ first_of (operands (arguments_of given.entry)) }
{
    match given.next_operand() {
        Some((word, _)) => word,
        None => "",
    }
}

/// The first offence among the arguments of a command, if there is one. An error only for want of memory, and only where the
/// command asks for a URL.
pub(crate) fn form_slip<'a>(
    alloc: Global,
    form: Form,
    given: Arguments<'a>,
) -> Result<Option<Slip<'a>>, AllocError>
    ensures value { IfOk result (λ slip. option_map slip_of slip ≡ form_slip (form_of form) (arguments_of given.entry)) }
    ensures memory { IfErr result (λ _. reads_memory (form_of form) (map asked_of form.operands.now) ≡ true) }
{
    let url = first_operand(given);
    let mut rest = given;
    let mut wanted = form.operands;
    while let Some((argument, left)) = rest.split_first() {
        let here = Standing {
            form,
            url,
            given,
            rest,
            wanted,
        };
        if let Some(slip) = argument_slip(alloc, here, argument)? {
            return Ok(Some(slip));
        }
        wanted = still_wanted(wanted, argument);
        rest = left;
    }
    if is_done(wanted) {
        return Ok(None);
    }
    Ok(Some(Slip::Miscounted(form.usage)))
}
