//! Attributes, each where the object has it.
ghost use Rattle.std.specs.Option.{option_copied};
ghost use Rattle.std.specs.Prelude.{◌≡◌, ◌++◌, Some, OnOk, option_map};
ghost use Rattle.ob_encoding.specs.Canonical.{quoted, joined};
ghost use Rattle.ob_values.specs.Spelled.{printed};
ghost use Rattle.ob_encoding.specs.Escaped.{escaped};
ghost use Rattle.ob_encoding.specs.Names.{status_word};
ghost use Rattle.ob_encoding.specs.Written.{IsFront};

use crate::escape::{append, append_escaped};
use crate::names::status_word;
use ob_object::{Status, Words};
use ob_values::{Text, Value, print_value};
use std::alloc::AllocError;

/// Appends what leads to the value, the value and the closing quote.
pub(crate) fn write_quoted(lead: &[u8], text: &str, out: &mut Vec<u8>) -> Result<(), AllocError>
    ensures written { OnOk result (out.new.items ≡ out.old.items ++ quoted lead.now (Some text.now)) }
    ensures front { IsFront out.old.items out.new.items }
{
    append(lead, out)?;
    append_escaped(text.as_bytes(), out)?;
    append(b"\"", out)
}

pub(crate) fn write_text(
    lead: &[u8],
    text: Option<&Text>,
    out: &mut Vec<u8>,
) -> Result<(), AllocError>
    ensures written { OnOk result (out.new.items ≡ out.old.items ++ quoted lead.now (option_copied text.entry)) }
    ensures front { IsFront out.old.items out.new.items }
{
    match text {
        Some(text) => write_quoted(lead, text.as_str(), out),
        None => Ok(()),
    }
}

pub(crate) fn write_value(lead: &[u8], value: &Value, out: &mut Vec<u8>) -> Result<(), AllocError>
    ensures written { OnOk result (out.new.items ≡ out.old.items ++ quoted lead.now (Some (printed value.now))) }
    ensures front { IsFront out.old.items out.new.items }
{
    match value {
        Value::Str(text) | Value::Enum(text) | Value::Uri(text) => {
            write_quoted(lead, text.as_str(), out)
        }
        value => write_quoted(lead, print_value(value).as_str(), out),
    }
}

pub(crate) fn write_limit(
    lead: &[u8],
    limit: Option<&Value>,
    out: &mut Vec<u8>,
) -> Result<(), AllocError>
    ensures written { OnOk result (out.new.items ≡ out.old.items ++ quoted lead.now (option_map printed (option_copied limit.entry))) }
    ensures front { IsFront out.old.items out.new.items }
{
    match limit {
        Some(limit) => write_value(lead, limit, out),
        None => Ok(()),
    }
}

pub(crate) fn write_truth(
    lead: &[u8],
    truth: Option<bool>,
    out: &mut Vec<u8>,
) -> Result<(), AllocError>
    ensures written { OnOk result (out.new.items ≡ out.old.items ++ quoted lead.now (option_map (λ b. printed (Value.Bool b)) truth)) }
    ensures front { IsFront out.old.items out.new.items }
{
    match truth {
        Some(truth) => write_quoted(lead, print_value(&Value::Bool(truth)).as_str(), out),
        None => Ok(()),
    }
}

pub(crate) fn write_number(
    lead: &[u8],
    number: Option<i64>,
    out: &mut Vec<u8>,
) -> Result<(), AllocError>
    ensures written { OnOk result (out.new.items ≡ out.old.items ++ quoted lead.now (option_map (λ n. printed (Value.Int n)) number)) }
    ensures front { IsFront out.old.items out.new.items }
{
    match number {
        Some(number) => write_quoted(lead, print_value(&Value::Int(number)).as_str(), out),
        None => Ok(()),
    }
}

pub(crate) fn write_status(
    lead: &[u8],
    status: Option<Status>,
    out: &mut Vec<u8>,
) -> Result<(), AllocError>
    ensures written { OnOk result (out.new.items ≡ out.old.items ++ quoted lead.now (option_map status_word status)) }
    ensures front { IsFront out.old.items out.new.items }
{
    match status {
        Some(status) => write_quoted(lead, status_word(status), out),
        None => Ok(()),
    }
}

/// Appends the words, each escaped, with a space between two.
fn append_words(words: &[Text], out: &mut Vec<u8>) -> Result<(), AllocError>
    ensures written { OnOk result (out.new.items ≡ out.old.items ++ escaped (joined words.now)) }
    ensures front { IsFront out.old.items out.new.items }
{
    let Some((first, others)) = words.split_first() else {
        return Ok(());
    };
    append_escaped(first.as_str().as_bytes(), out)?;
    for word in others {
        append(b" ", out)?;
        append_escaped(word.as_str().as_bytes(), out)?;
    }
    Ok(())
}

fn write_list(lead: &[u8], words: &Words, out: &mut Vec<u8>) -> Result<(), AllocError>
    ensures written { OnOk result (out.new.items ≡ out.old.items ++ quoted lead.now (Some (joined words.now))) }
    ensures front { IsFront out.old.items out.new.items }
{
    append(lead, out)?;
    append_words(words.as_slice(), out)?;
    append(b"\"", out)
}

pub(crate) fn write_words(
    lead: &[u8],
    words: Option<&Words>,
    out: &mut Vec<u8>,
) -> Result<(), AllocError>
    ensures written { OnOk result (out.new.items ≡ out.old.items ++ quoted lead.now (option_map joined (option_copied words.entry))) }
    ensures front { IsFront out.old.items out.new.items }
{
    match words {
        Some(words) => write_list(lead, words, out),
        None => Ok(()),
    }
}
