//! The words that say what is wrong with a command line.
ghost use Rattle.std.specs.Prelude.{◌≡◌, ◌++◌, ◌<◌, codes, OnOk, IfOk};
ghost use Rattle.ob_command.specs.Forms.{asked_name};
ghost use Rattle.ob_command.specs.Lines.{is_plain, hex_digit, shown_byte, shown_bytes, shown, rule_words, slip_words};
ghost use Rattle.ob_command.specs.Named.{asked_of, slip_of};

use crate::form::Asked;
use crate::slip::Slip;
use std::alloc::{AllocError, Global};

/// The most bytes of a user's word that are shown.
const MOST_SHOWN: usize = 60;

/// Whether a byte is a printable one of ASCII, and not `\`.
fn is_plain(byte: u8) -> bool
    ensures { result ≡ is_plain byte }
{
    (32..=126).contains(&byte) && byte != b'\\'
}

fn hex_digit(digit: u8) -> u8
    requires { digit < 16 }
    ensures { result ≡ hex_digit digit }
{
    if digit < 10 { 48 + digit } else { 55 + digit }
}

/// Appends a byte, as `\xHH` where it isn't plain.
fn append_shown_byte(byte: u8, out: &mut Vec<u8>) -> Result<(), AllocError>
    ensures { OnOk result (out.new.items ≡ out.old.items ++ shown_byte byte) }
{
    if is_plain(byte) {
        return out.extend_from_slice(&[byte]);
    }
    let escape = [b'\\', b'x', hex_digit(byte / 16), hex_digit(byte % 16)];
    out.extend_from_slice(&escape)
}

/// Appends bytes, those that aren't plain as `\xHH`.
fn append_shown_bytes(bytes: &[u8], out: &mut Vec<u8>) -> Result<(), AllocError>
    ensures { OnOk result (out.new.items ≡ out.old.items ++ shown_bytes bytes.now) }
{
    for byte in bytes {
        append_shown_byte(*byte, out)?;
    }
    Ok(())
}

/// Appends a user's word, as far as it is shown.
fn append_shown(word: &str, out: &mut Vec<u8>) -> Result<(), AllocError>
    ensures { OnOk result (out.new.items ≡ out.old.items ++ shown word.now) }
{
    let bytes = word.as_bytes();
    if bytes.len() <= MOST_SHOWN {
        return append_shown_bytes(bytes, out);
    }
    let (front, _) = bytes.split_at(MOST_SHOWN);
    append_shown_bytes(front, out)?;
    out.extend_from_slice(b"..")
}

/// Appends what is asked for.
fn append_rule(alloc: Global, asked: Asked, out: &mut Vec<u8>) -> Result<(), AllocError>
    ensures { OnOk result (out.new.items ≡ out.old.items ++ rule_words (asked_of asked)) }
{
    match asked {
        Asked::Text(_) | Asked::Texts(_) => out.extend_from_slice(
            "text that XML can carry".as_bytes(),
        ),
        Asked::Number(_, least, most) => {
            let range = format!(in alloc; "{least} to {most}")?;
            out.extend_from_slice(range.as_bytes())
        }
        Asked::Url(_) => out.extend_from_slice("an http URL without a fragment".as_bytes()),
        Asked::Place(_) => out.extend_from_slice("a place on the server of URL".as_bytes()),
    }
}

/// What says that a word isn't what is asked for.
fn unfit_words(alloc: Global, asked: Asked, word: &str) -> Result<Vec<u8>, AllocError>
    ensures { IfOk result (λ words. words.items ≡ asked_name (asked_of asked) ++ (codes " " ++ (shown word.now ++ (codes " isn't " ++ rule_words (asked_of asked))))) }
{
    let mut words = asked.name().as_bytes().to_vec(alloc)?;
    words.extend_from_slice(" ".as_bytes())?;
    append_shown(word, &mut words)?;
    words.extend_from_slice(" isn't ".as_bytes())?;
    append_rule(alloc, asked, &mut words)?;
    Ok(words)
}

/// A text, and a user's word as far as it is shown.
fn text_and_word(alloc: Global, text: &str, word: &str) -> Result<Vec<u8>, AllocError>
    ensures { IfOk result (λ words. words.items ≡ text.now ++ shown word.now) }
{
    let mut words = text.as_bytes().to_vec(alloc)?;
    append_shown(word, &mut words)?;
    Ok(words)
}

/// A user's word as far as it is shown, and a text.
fn word_and_text(alloc: Global, word: &str, text: &str) -> Result<Vec<u8>, AllocError>
    ensures { IfOk result (λ words. words.items ≡ shown word.now ++ text.now) }
{
    let mut words = Vec::new(alloc);
    append_shown(word, &mut words)?;
    words.extend_from_slice(text.as_bytes())?;
    Ok(words)
}

/// Two texts, one after the other.
fn joined(alloc: Global, first: &str, second: &str) -> Result<Vec<u8>, AllocError>
    ensures { IfOk result (λ words. words.items ≡ first.now ++ second.now) }
{
    let mut words = first.as_bytes().to_vec(alloc)?;
    words.extend_from_slice(second.as_bytes())?;
    Ok(words)
}

/// What says that a command has no such option.
fn no_option_words(alloc: Global, command: &str, name: &str) -> Result<Vec<u8>, AllocError>
    ensures { IfOk result (λ words. words.items ≡ command.now ++ (codes " has no option " ++ shown name.now)) }
{
    let mut words = joined(alloc, command, " has no option ")?;
    append_shown(name, &mut words)?;
    Ok(words)
}

impl<'a> Slip<'a> {
    /// The words that say it: a user's word in at most 60 bytes, of which those that aren't printable ASCII are escaped. An error
    /// only for want of memory.
    pub fn words(self, alloc: Global) -> Result<Vec<u8>, AllocError>
        ensures { IfOk result (λ words. words.items ≡ slip_words (slip_of self.entry)) }
    {
        match self {
            Slip::Nothing => "no command, obix help lists them".as_bytes().to_vec(alloc),
            Slip::NoText(word) => word_and_text(alloc, word, " isn't text that XML can carry"),
            Slip::NoCommand(word) => text_and_word(alloc, "no command ", word),
            Slip::Miscounted(usage) => usage.as_bytes().to_vec(alloc),
            Slip::NoOption(command, name) => no_option_words(alloc, command, name),
            Slip::NoValue(name) => joined(alloc, name, " has no value"),
            Slip::Twice(name) => joined(alloc, name, " stands twice"),
            Slip::Unfit(asked, word) => unfit_words(alloc, asked, word),
        }
    }
}
