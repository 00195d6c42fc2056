//! The words of kinds and of statuses.
ghost use Rattle.std.specs.Prelude.{◌≡◌};
ghost use Rattle.ob_encoding.specs.Names.{kind_name, status_word};

use ob_object::{Kind, Status};

/// The name of an element of the kind.
/// Source: oBIX 1.1, chapter 4.
pub fn kind_name(kind: Kind) -> &'static str
    ensures { result.now ≡ kind_name kind }
{
    match kind {
        Kind::Obj => "obj",
        Kind::Bool => "bool",
        Kind::Int => "int",
        Kind::Real => "real",
        Kind::Str => "str",
        Kind::Enum => "enum",
        Kind::Uri => "uri",
        Kind::Abstime => "abstime",
        Kind::Reltime => "reltime",
        Kind::Date => "date",
        Kind::Time => "time",
        Kind::List => "list",
        Kind::Op => "op",
        Kind::Feed => "feed",
        Kind::Ref => "ref",
        Kind::Err => "err",
    }
}

/// The word of the status.
/// Source: oBIX 1.1, section 4.2.7.8.
pub fn status_word(status: Status) -> &'static str
    ensures { result.now ≡ status_word status }
{
    match status {
        Status::Disabled => "disabled",
        Status::Fault => "fault",
        Status::Down => "down",
        Status::UnackedAlarm => "unackedAlarm",
        Status::Alarm => "alarm",
        Status::Unacked => "unacked",
        Status::Overridden => "overridden",
        Status::Ok => "ok",
    }
}
