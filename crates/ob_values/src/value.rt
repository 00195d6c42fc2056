//! Values of every kind.
ghost use Rattle.std.specs.Prelude.{◌≡◌, ◌↔◌, IsTrue, IfOk};
ghost use Rattle.ob_values.specs.Spelled.{HasPrinted, printed, SpellsValue};

use crate::print::{print_bool, print_dec, print_int};
use crate::{Dec, Text};
use arrayvec::ArrayString;
use ob_times::{
    Abstime, CivilDate, Reltime, TimeOfDay, print_abstime, print_date, print_reltime, print_time,
};
use std::alloc::AllocError;

/// A value, with its kind.
#[derive(Drop, PartialEq, Eq)]
pub enum Value {
    Bool(bool),
    Int(i64),
    Real(Dec),
    Str(Text),
    Enum(Text),
    Uri(Text),
    Abstime(Abstime),
    Reltime(Reltime),
    Date(CivilDate),
    Time(TimeOfDay),
}

impl Value {
    /// Whether the two are one value of one kind.
    pub fn same(&self, other: &Value) -> bool
        ensures { IsTrue result ↔ (self.now ≡ other.now) }
    {
        match self {
            Value::Bool(own) => match other {
                Value::Bool(others) => own == others,
                _ => false,
            },
            Value::Int(own) => match other {
                Value::Int(others) => own == others,
                _ => false,
            },
            Value::Real(own) => match other {
                Value::Real(others) => own == others,
                _ => false,
            },
            Value::Str(own) => match other {
                Value::Str(others) => own == others,
                _ => false,
            },
            Value::Enum(own) => match other {
                Value::Enum(others) => own == others,
                _ => false,
            },
            Value::Uri(own) => match other {
                Value::Uri(others) => own == others,
                _ => false,
            },
            Value::Abstime(own) => match other {
                Value::Abstime(others) => own == others,
                _ => false,
            },
            Value::Reltime(own) => match other {
                Value::Reltime(others) => own == others,
                _ => false,
            },
            Value::Date(own) => match other {
                Value::Date(others) => own == others,
                _ => false,
            },
            Value::Time(own) => match other {
                Value::Time(others) => own == others,
                _ => false,
            },
        }
    }

    /// A copy of the value. An error only for want of memory, which only a text takes.
    pub fn copy(&self) -> Result<Value, AllocError>
        ensures { IfOk result (λ v. v ≡ self.now) }
    {
        match self {
            Value::Bool(truth) => Ok(Value::Bool(*truth)),
            Value::Int(number) => Ok(Value::Int(*number)),
            Value::Real(dec) => Ok(Value::Real(*dec)),
            Value::Str(text) => Ok(Value::Str(text.copy()?)),
            Value::Enum(text) => Ok(Value::Enum(text.copy()?)),
            Value::Uri(text) => Ok(Value::Uri(text.copy()?)),
            Value::Abstime(instant) => Ok(Value::Abstime(*instant)),
            Value::Reltime(span) => Ok(Value::Reltime(*span)),
            Value::Date(date) => Ok(Value::Date(*date)),
            Value::Time(time) => Ok(Value::Time(*time)),
        }
    }
}

/// The one text that is printed of a value other than a `Str`, an `Enum` or a `Uri`, which are their
/// own text. No value of these kinds has more than 64 bytes.
pub fn print_value(value: &Value) -> ArrayString<64>
    requires { HasPrinted value.now }
    ensures printed { result.bytes ≡ printed value.now }
    ensures spelled { SpellsValue result.bytes value.now }
{
    match value {
        Value::Bool(truth) => print_bool(*truth),
        Value::Int(number) => print_int(*number),
        Value::Real(dec) => print_dec(dec),
        Value::Str(_) => ArrayString::new(),
        Value::Enum(_) => ArrayString::new(),
        Value::Uri(_) => ArrayString::new(),
        Value::Abstime(instant) => print_abstime(instant),
        Value::Reltime(span) => print_reltime(span),
        Value::Date(date) => print_date(date),
        Value::Time(time) => print_time(time),
    }
}
