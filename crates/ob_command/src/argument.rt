//! The words behind the command: operands, and options with their values.
ghost use Rattle.std.specs.Prelude.{◌≡◌, ◌≤◌, ◌<◌, ◌∷◌, [], true, false, length, map, option_map, option_copied, string_bytes, codes, bytes_eq, None, IfSome, MatchOption};
ghost use Rattle.std.specs.List.{list_any};
ghost use Rattle.ob_command.specs.Arguments.{is_option, arguments, operands, values, has_only};
ghost use Rattle.ob_command.specs.Command.{number_given, number_or, word_given};
ghost use Rattle.ob_command.specs.Words.{argument_of, arguments_of};

use crate::number::number_between;

/// What a word is, before `--`.
#[derive(Clone, Copy)]
pub(crate) enum Argument<'a> {
    /// A word that is no option.
    Operand(&'a str),
    /// The option of a name, with its value.
    Set(&'a str, &'a str),
    /// An option of a name, without a value.
    Bare(&'a str),
}

/// Words as arguments, one after the other.
#[derive(Clone, Copy)]
pub(crate) struct Arguments<'a> {
    pub words: &'a [String],
    /// Whether `--` stands before them, so that each is an operand.
    pub plain: bool,
}

fn is_option(word: &str) -> bool
    ensures { result ≡ is_option word.now }
{
    match word.as_bytes() {
        [b'-', ..] => true,
        _ => false,
    }
}

/// Whether a word is one of these.
fn is_among(word: &str, words: &[&str]) -> bool
    ensures { result ≡ list_any (λ other. bytes_eq other word.now) (map (λ other. other.now) words.now) }
{
    for other in words {
        if *other == word {
            return true;
        }
    }
    false
}

/// What a word other than `--` is, with the words behind it, and the arguments that are left then.
fn next_argument<'a>(word: &'a str, rest: &'a [String]) -> (Argument<'a>, Arguments<'a>)
    requires { bytes_eq word.now (codes "--") ≡ false }
    ensures next { arguments (word.now ∷ map string_bytes rest.now) ≡ argument_of result.0 ∷ arguments_of result.1 }
    ensures shorter { length result.1.words.now ≤ length rest.now }
{
    let left = Arguments::of(rest);
    if !is_option(word) {
        return (Argument::Operand(word), left);
    }
    if let Some((name, value)) = word.split_once('=') {
        return (Argument::Set(name, value), left);
    }
    match rest {
        [value, behind @ ..] if !is_option(value.as_str()) => (
            Argument::Set(word, value.as_str()),
            Arguments::of(behind),
        ),
        _ => (Argument::Bare(word), left),
    }
}

impl<'a> Arguments<'a> {
    /// The words as arguments.
    pub(crate) fn of(words: &'a [String]) -> Arguments<'a>
        ensures value { arguments_of result ≡ arguments (map string_bytes words.now) }
        ensures words { result.words.now ≡ words.now }
    {
        Arguments {
            words,
            plain: false,
        }
    }

    /// The first argument, and those behind it; `None` where there is none.
    pub(crate) fn split_first(self) -> Option<(Argument<'a>, Arguments<'a>)>
        ensures { MatchOption result (arguments_of self.entry ≡ [])
            (λ next. (arguments_of self.entry ≡ argument_of next.0 ∷ arguments_of next.1) × (length next.1.words.now < length self.entry.words.now)) }
    {
        let [word, behind @ ..] = self.words else {
            return None;
        };
        if self.plain {
            return Some((
                Argument::Operand(word.as_str()),
                Arguments::behind_dashes(behind),
            ));
        }
        if word.as_str() != "--" {
            return Some(next_argument(word.as_str(), behind));
        }
        let [word, behind @ ..] = behind else {
            return None;
        };
        Some((
            Argument::Operand(word.as_str()),
            Arguments::behind_dashes(behind),
        ))
    }

    /// The words as operands.
    fn behind_dashes(words: &'a [String]) -> Arguments<'a>
        ensures { (result.words.now ≡ words.now) × (result.plain ≡ true) }
    {
        Arguments { words, plain: true }
    }

    /// Whether there is no option but those of these names, each with a value.
    pub(crate) fn has_only(self, names: &[&str]) -> bool
        ensures { result ≡ has_only (map (λ name. name.now) names.now) (arguments_of self.entry) }
    {
        let mut rest = self;
        while let Some((argument, left)) = rest.split_first() {
            let is_allowed = match argument {
                Argument::Operand(_) => true,
                Argument::Set(name, _) => is_among(name, names),
                Argument::Bare(_) => false,
            };
            if !is_allowed {
                return false;
            }
            rest = left;
        }
        true
    }

    /// The first operand, and the arguments behind it.
    pub(crate) fn next_operand(self) -> Option<(&'a str, Arguments<'a>)>
        ensures { MatchOption result (operands (arguments_of self.entry) ≡ [])
            (λ next. operands (arguments_of self.entry) ≡ next.0.now ∷ operands (arguments_of next.1)) }
    {
        let mut rest = self;
        while let Some((argument, left)) = rest.split_first() {
            if let Argument::Operand(word) = argument {
                return Some((word, left));
            }
            rest = left;
        }
        None
    }

    /// The first value of the option of a name, and the arguments behind it.
    pub(crate) fn next_value(self, name: &str) -> Option<(&'a str, Arguments<'a>)>
        ensures { MatchOption result (values name.now (arguments_of self.entry) ≡ [])
            (λ next. values name.now (arguments_of self.entry) ≡ next.0.now ∷ values name.now (arguments_of next.1)) }
    {
        let mut rest = self;
        while let Some((argument, left)) = rest.split_first() {
            if let Argument::Set(other, value) = argument
                && other == name
            {
                return Some((value, left));
            }
            rest = left;
        }
        None
    }

    /// The word that an option is given, if it is given; `None` where it is given twice.
    pub(crate) fn word_given(self, name: &str) -> Option<Option<&'a str>>
        ensures { option_map option_copied result ≡ word_given (values name.now (arguments_of self.entry)) }
    {
        match self.next_value(name) {
            None => Some(None),
            Some((word, behind)) => match behind.next_value(name) {
                None => Some(Some(word)),
                Some(_) => None,
            },
        }
    }

    /// The number that an option is given, if it is given; `None` where it is given twice, or no number in this range.
    pub(crate) fn number_given(self, name: &str, least: u64, most: u64) -> Option<Option<u64>>
        ensures value { result ≡ number_given least most (values name.now (arguments_of self.entry)) }
        ensures fits { IfSome result (λ given. IfSome given (λ number. number ≤ most)) }
    {
        match self.next_value(name) {
            None => Some(None),
            Some((text, behind)) => match behind.next_value(name) {
                None => match number_between(text.as_bytes(), least, most) {
                    Some(number) => Some(Some(number)),
                    None => None,
                },
                Some(_) => None,
            },
        }
    }

    /// The number that an option is given, or `default` where it isn't given; `None` where it is given twice, or no number
    /// in this range.
    pub(crate) fn number_or(self, name: &str, least: u64, most: u64, default: u64) -> Option<u64>
        requires { default ≤ most }
        ensures value { result ≡ number_or least most default (values name.now (arguments_of self.entry)) }
        ensures fits { IfSome result (λ number. number ≤ most) }
    {
        match self.number_given(name, least, most) {
            Some(Some(number)) => Some(number),
            Some(None) => Some(default),
            None => None,
        }
    }
}
