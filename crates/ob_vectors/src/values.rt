//! Values: what each text is read as, and what is printed of it.
use ob_rows::{Row, Table};
use ob_values::{
    Abstime, CivilDate, Dec, Reltime, Text, TextFault, TimeOfDay, Value, ValueFault, print_value,
    read_abstime, read_bool, read_date, read_dec, read_int, read_reltime, read_time,
};
use std::alloc::{AllocError, Global};

/// What the bytes of a row are read as.
#[derive(Clone, Copy)]
pub(crate) enum Reading {
    Bool,
    Int,
    Real,
    Date,
    Time,
    Abstime,
    Reltime,
    Text,
}

fn fault_word(fault: ValueFault) -> &'static str {
    match fault {
        ValueFault::NotBool => "NotBool",
        ValueFault::NotNumber => "NotNumber",
        ValueFault::NotFinite => "NotFinite",
        ValueFault::Digits => "Digits",
        ValueFault::Range => "Range",
        ValueFault::NotTime => "NotTime",
        ValueFault::NotStatus => "NotStatus",
        ValueFault::NotName => "NotName",
    }
}

fn tell_bool(told: &mut String, truth: bool) -> Result<(), AllocError> {
    told.push_str(print_value(&Value::Bool(truth)).as_str())
}

fn tell_int(told: &mut String, number: i64) -> Result<(), AllocError> {
    let printed = print_value(&Value::Int(number));
    if printed.as_str().parse() != Ok(number) {
        told.push_str("another number: ")?;
    }
    told.push_str(printed.as_str())
}

// Tells the parts of a value, and what is printed of it, and if its parts are another one's.
fn tell_parts(
    told: &mut String,
    is_of_parts: bool,
    parts: &[i64],
    printed: &str,
) -> Result<(), AllocError> {
    if !is_of_parts {
        told.push_str("of other parts: ")?;
    }
    for part in parts {
        write!(told, "{part} ")?;
    }
    told.push_str(printed)
}

fn tell_real(told: &mut String, real: Dec) -> Result<(), AllocError> {
    let (coefficient, scale) = real.parts();
    let is_of_parts = Dec::new(coefficient, scale) == Some(real);
    let printed = print_value(&Value::Real(real));
    let parts = [coefficient, i64::from(scale)];
    tell_parts(told, is_of_parts, &parts, printed.as_str())
}

fn tell_date(told: &mut String, date: CivilDate) -> Result<(), AllocError> {
    let (year, month, day) = date.parts();
    let is_of_parts = CivilDate::new(year, month, day) == Some(date);
    let printed = print_value(&Value::Date(date));
    let parts = [i64::from(year), i64::from(month), i64::from(day)];
    tell_parts(told, is_of_parts, &parts, printed.as_str())
}

fn tell_time(told: &mut String, time: TimeOfDay) -> Result<(), AllocError> {
    let nanos = time.parts();
    let is_of_parts = TimeOfDay::new(nanos) == Some(time);
    let printed = print_value(&Value::Time(time));
    let parts = [i64::try_from(nanos).unwrap_or(-1)];
    tell_parts(told, is_of_parts, &parts, printed.as_str())
}

fn tell_abstime(told: &mut String, instant: Abstime) -> Result<(), AllocError> {
    let (seconds, nanos, offset) = instant.parts();
    let is_of_parts = Abstime::new(seconds, nanos, offset) == Some(instant);
    let printed = print_value(&Value::Abstime(instant));
    let parts = [seconds, i64::from(nanos), i64::from(offset)];
    tell_parts(told, is_of_parts, &parts, printed.as_str())
}

fn tell_reltime(told: &mut String, span: Reltime) -> Result<(), AllocError> {
    let (months, nanos) = span.parts();
    let is_of_parts = Reltime::new(months, nanos) == Some(span);
    let printed = print_value(&Value::Reltime(span));
    let parts = [i64::from(months), nanos];
    tell_parts(told, is_of_parts, &parts, printed.as_str())
}

fn tell_text(
    told: &mut String,
    text: &Result<Text, TextFault>,
    bytes: &[u8],
) -> Result<(), AllocError> {
    match text {
        Ok(text) if text.as_str().as_bytes() == bytes => told.push_str("ok"),
        Ok(_) => told.push_str("other bytes"),
        Err(TextFault::NotUtf8) => told.push_str("NotUtf8"),
        Err(TextFault::NotXmlChar { at }) => write!(told, "NotXmlChar {at}"),
        Err(TextFault::Memory) => Err(AllocError),
    }
}

// Tells of the value that the bytes are read as, but no text.
fn tell_value(reading: Reading, bytes: &[u8], told: &mut String) -> Result<(), AllocError> {
    let fault = match reading {
        Reading::Bool => match read_bool(bytes) {
            Ok(truth) => return tell_bool(told, truth),
            Err(fault) => fault,
        },
        Reading::Int => match read_int(bytes) {
            Ok(number) => return tell_int(told, number),
            Err(fault) => fault,
        },
        Reading::Real => match read_dec(bytes) {
            Ok(real) => return tell_real(told, real),
            Err(fault) => fault,
        },
        _ => return tell_when(reading, bytes, told),
    };
    told.push_str(fault_word(fault))
}

// Tells of the date, the time of day, the instant or else the span that the bytes are read as.
fn tell_when(reading: Reading, bytes: &[u8], told: &mut String) -> Result<(), AllocError> {
    let fault = match reading {
        Reading::Date => match read_date(bytes) {
            Ok(date) => return tell_date(told, date),
            Err(fault) => fault,
        },
        Reading::Time => match read_time(bytes) {
            Ok(time) => return tell_time(told, time),
            Err(fault) => fault,
        },
        Reading::Abstime => match read_abstime(bytes) {
            Ok(instant) => return tell_abstime(told, instant),
            Err(fault) => fault,
        },
        _ => match read_reltime(bytes) {
            Ok(span) => return tell_reltime(told, span),
            Err(fault) => fault,
        },
    };
    told.push_str(fault_word(fault))
}

impl Table for Reading {
    fn answer(&mut self, alloc: Global, asked: Row, told: &mut String) -> Result<(), AllocError> {
        match *self {
            Reading::Text => tell_text(told, &Text::from_utf8(alloc, asked.bytes), asked.bytes),
            reading => tell_value(reading, asked.bytes, told),
        }
    }
}
