//! What one attribute says of an object.

ghost use Rattle.std.specs.Prelude.{◌≡◌, true, IfOk, OnOk, Ok};
ghost use Rattle.ob_encoding.specs.Fields.{has_limit, applies};
ghost use Rattle.ob_object.specs.Kinds.{has_values};
ghost use Rattle.ob_encoding.specs.Parts.{ReadsValue, ReadsLimit, PartRead, put_text, put_words, put_part};

use crate::field::{Field, TextField, ValueField, WordsField};
use crate::status::read_status;
use crate::words::read_words;
use ob_object::{Attributes, Kind, Slot, Status, Words};
use ob_values::{
    Text, Value, ValueFault, read_abstime, read_bool, read_date, read_dec, read_int, read_reltime,
    read_time,
};
use std::alloc::{AllocError, Global};
use thiserror::Error;

/// What an attribute says of an object.
#[derive(Drop)]
pub enum Part {
    Text(TextField, Text),
    Words(WordsField, Words),
    Null(bool),
    Val(Value),
    Max(Value),
    Min(Value),
    Precision(i64),
    Status(Status),
    Writable(bool),
}

/// Why an attribute says nothing.
#[derive(Clone, Copy, Debug, PartialEq, Eq, Error)]
pub enum PartFault {
    /// Its text can't be read as what the attribute takes.
    #[error("{0}")]
    Value(ValueFault),
    #[error("Memory")]
    Memory,
}

impl From<AllocError> for PartFault {
    ghost use Rattle.ob_encoding.specs.declared.part.PartFault.TheVariants.{Memory};

    ghost from_gives = { λ _ e. e ≡ Memory };

    fn from(_e: AllocError) -> PartFault {
        PartFault::Memory
    }
}

/// The value of a kind that a text spells.
fn read_value(kind: Kind, text: Text) -> Result<Value, ValueFault>
    requires { has_values kind ≡ true }
    ensures { ReadsValue kind text result }
{
    match kind {
        Kind::Bool => match read_bool(text.as_str().as_bytes()) {
            Ok(truth) => Ok(Value::Bool(truth)),
            Err(fault) => Err(fault),
        },
        Kind::Int => match read_int(text.as_str().as_bytes()) {
            Ok(number) => Ok(Value::Int(number)),
            Err(fault) => Err(fault),
        },
        Kind::Real => match read_dec(text.as_str().as_bytes()) {
            Ok(number) => Ok(Value::Real(number)),
            Err(fault) => Err(fault),
        },
        Kind::Str => Ok(Value::Str(text)),
        Kind::Enum => Ok(Value::Enum(text)),
        Kind::Uri => Ok(Value::Uri(text)),
        Kind::Abstime => match read_abstime(text.as_str().as_bytes()) {
            Ok(time) => Ok(Value::Abstime(time)),
            Err(fault) => Err(fault),
        },
        Kind::Reltime => match read_reltime(text.as_str().as_bytes()) {
            Ok(time) => Ok(Value::Reltime(time)),
            Err(fault) => Err(fault),
        },
        Kind::Date => match read_date(text.as_str().as_bytes()) {
            Ok(date) => Ok(Value::Date(date)),
            Err(fault) => Err(fault),
        },
        Kind::Time => match read_time(text.as_str().as_bytes()) {
            Ok(time) => Ok(Value::Time(time)),
            Err(fault) => Err(fault),
        },
        Kind::Obj | Kind::List | Kind::Op | Kind::Feed | Kind::Ref | Kind::Err => unreachable!(),
    }
}

/// The least or the greatest value of a kind, or of the length of what it counts.
fn read_limit(kind: Kind, text: Text) -> Result<Value, ValueFault>
    requires { has_limit kind ≡ true }
    ensures { ReadsLimit kind text result }
{
    match kind {
        Kind::Str | Kind::List => match read_int(text.as_str().as_bytes()) {
            Ok(number) => Ok(Value::Int(number)),
            Err(fault) => Err(fault),
        },
        _ => read_value(kind, text),
    }
}

/// What a value that an attribute spells says of an object.
fn read_value_part(kind: Kind, field: ValueField, text: Text) -> Result<Part, ValueFault>
    requires { applies kind (Field.Value field) ≡ true }
    ensures { Rattle.ob_encoding.specs.Parts.ReadsPart kind (Field.Value field) text result }
{
    match field {
        ValueField::Null => match read_bool(text.as_str().as_bytes()) {
            Ok(truth) => Ok(Part::Null(truth)),
            Err(fault) => Err(fault),
        },
        ValueField::Val => match read_value(kind, text) {
            Ok(value) => Ok(Part::Val(value)),
            Err(fault) => Err(fault),
        },
        ValueField::Max => match read_limit(kind, text) {
            Ok(value) => Ok(Part::Max(value)),
            Err(fault) => Err(fault),
        },
        ValueField::Min => match read_limit(kind, text) {
            Ok(value) => Ok(Part::Min(value)),
            Err(fault) => Err(fault),
        },
        ValueField::Precision => match read_int(text.as_str().as_bytes()) {
            Ok(number) => Ok(Part::Precision(number)),
            Err(fault) => Err(fault),
        },
        ValueField::Status => match read_status(text.as_str().as_bytes()) {
            Ok(status) => Ok(Part::Status(status)),
            Err(fault) => Err(fault),
        },
        ValueField::Writable => match read_bool(text.as_str().as_bytes()) {
            Ok(truth) => Ok(Part::Writable(truth)),
            Err(fault) => Err(fault),
        },
    }
}

/// What an attribute, which objects of the kind have, says by its text. Value where the text is not what
/// the attribute takes.
pub fn read_part(alloc: Global, kind: Kind, field: Field, text: Text) -> Result<Part, PartFault>
    requires { applies kind field ≡ true }
    ensures { PartRead kind field text result }
{
    match field {
        Field::Text(field) => Ok(Part::Text(field, text)),
        Field::Words(field) => Ok(Part::Words(field, read_words(alloc, &text)?)),
        Field::Value(field) => match read_value_part(kind, field, text) {
            Ok(part) => Ok(part),
            Err(fault) => Err(PartFault::Value(fault)),
        },
    }
}

// Done, or want of memory, where a part came back.
fn taken<T: Drop>(put: Result<(), T>) -> Result<(), AllocError>
    ensures { OnOk result (put ≡ Ok tt) }
{
    match put {
        Ok(()) => Ok(()),
        Err(_back) => Err(AllocError),
    }
}

fn put_text_in(head: &mut Attributes, field: TextField, text: Text) -> Result<(), AllocError>
    ensures { IfOk result (λ _. head.new ≡ put_text field head.old text) }
{
    match field {
        TextField::Name => head.put_name(Some(text)),
        TextField::Href => head.put_href(Some(text)),
        TextField::Display => taken(head.put_display(Some(text)))?,
        TextField::DisplayName => taken(head.put_display_name(Some(text)))?,
        TextField::Icon => taken(head.put_icon(Some(text)))?,
        TextField::Range => taken(head.put_range(Some(text)))?,
        TextField::Tz => taken(head.put_tz(Some(text)))?,
        TextField::Unit => head.put_unit(Some(text)),
    }
    Ok(())
}

fn put_words_in(head: &mut Attributes, field: WordsField, words: Words) -> Result<(), AllocError>
    ensures { IfOk result (λ _. head.new ≡ put_words field head.old words) }
{
    match field {
        WordsField::Is => head.put_is(Some(words)),
        WordsField::Of => taken(head.put_of(Some(words)))?,
        WordsField::In => taken(head.put_input(Some(words)))?,
        WordsField::Out => taken(head.put_output(Some(words)))?,
    }
    Ok(())
}

fn is_null(slot: &Slot) -> bool
    ensures { result ≡ Rattle.ob_encoding.specs.Parts.is_null slot.now }
{
    matches!(slot, Slot::Null)
}

impl Part {
    /// Puts it into the head of an object. Null goes before a value, whichever comes first.
    pub fn put(self, head: &mut Attributes) -> Result<(), AllocError>
        ensures { IfOk result (λ _. head.new ≡ put_part self head.old) }
    {
        match self {
            Part::Text(field, text) => put_text_in(head, field, text)?,
            Part::Words(field, words) => put_words_in(head, field, words)?,
            Part::Null(truth) => {
                if truth {
                    head.put_slot(Slot::Null);
                }
            }
            Part::Val(value) => {
                if !is_null(head.slot()) {
                    head.put_slot(Slot::Is(value));
                }
            }
            Part::Max(value) => head.put_max(Some(value)),
            Part::Min(value) => head.put_min(Some(value)),
            Part::Precision(number) => head.put_precision(Some(number)),
            Part::Status(status) => head.put_status(Some(status)),
            Part::Writable(truth) => head.put_writable(Some(truth)),
        }
        Ok(())
    }
}
