//! What each command asks for: the table of the commands.
ghost use Rattle.std.specs.Prelude.{◌≡◌};
ghost use Rattle.ob_command.specs.Forms.{verb_of, form};
ghost use Rattle.ob_command.specs.Named.{form_of};

use crate::number::LARGEST_NUMBER;
use crate::server::LAST_MOMENT;

/// A command that does something, by its name.
#[derive(Clone, Copy, PartialEq, Eq)]
pub enum Verb {
    Serve,
    Keep,
    Compact,
    Stdio,
    Schedule,
    Watch,
    Console,
    Check,
    Record,
    Audit,
    Super,
    Storm,
}

/// An operand or an option by its name, and what it has to be, or the option's value.
#[derive(Clone, Copy)]
pub enum Asked {
    /// Text that XML can carry.
    Text(&'static str),
    /// The same; further operands are such ones too, as many as there are.
    Texts(&'static str),
    /// A number of 1 to 18 digits that is at least the first number and at most the second.
    Number(&'static str, u64, u64),
    /// An http URL without a fragment.
    Url(&'static str),
    /// What names something on the server of the first operand, which is a URL.
    Place(&'static str),
}

/// What a command asks for.
#[derive(Clone, Copy)]
pub(crate) struct Form {
    pub name: &'static str,
    /// Its name with all that it asks for.
    pub usage: &'static str,
    /// Its operands, in their order.
    pub operands: &'static [Asked],
    /// Its options, each at most once.
    pub options: &'static [Asked],
}

const AT: Asked = Asked::Number("--at", 0, LAST_MOMENT);

const TICK: Asked = Asked::Number("--tick", 0, LARGEST_NUMBER);

const WORKERS: Asked = Asked::Number("--workers", 1, 64);

const QUOTA: Asked = Asked::Number("--quota", 1, 1_000_000);

const POLLS: Asked = Asked::Number("--polls", 0, 1_000_000);

pub(crate) const SERVE: Form = Form {
    name: "serve",
    usage: "serve SITE HOST PORT [--workers N] [--quota M]",
    operands: &[
        Asked::Text("SITE"),
        Asked::Text("HOST"),
        Asked::Number("PORT", 0, 65_535),
    ],
    options: &[
        Asked::Number("--workers", 1, 64),
        Asked::Number("--quota", 1, 1_000_000),
    ],
};

pub(crate) const KEEP: Form = Form {
    name: "keep",
    usage: "keep SITE RECORD HOST PORT [--workers N] [--quota M]",
    operands: &[
        Asked::Text("SITE"),
        Asked::Text("RECORD"),
        Asked::Text("HOST"),
        Asked::Number("PORT", 0, 65_535),
    ],
    options: &[
        Asked::Number("--workers", 1, 64),
        Asked::Number("--quota", 1, 1_000_000),
    ],
};

pub(crate) const COMPACT: Form = Form {
    name: "compact",
    usage: "compact SITE RECORD NEW",
    operands: &[
        Asked::Text("SITE"),
        Asked::Text("RECORD"),
        Asked::Text("NEW"),
    ],
    options: &[],
};

pub(crate) const STDIO: Form = Form {
    name: "stdio",
    usage: "stdio SITE [--at MS] [--tick MS]",
    operands: &[Asked::Text("SITE")],
    options: &[AT, TICK],
};

pub(crate) const SCHEDULE: Form = Form {
    name: "schedule",
    usage: "schedule SITE FILE [--at MS] [--tick MS]",
    operands: &[Asked::Text("SITE"), Asked::Text("FILE")],
    options: &[AT, TICK],
};

pub(crate) const WATCH: Form = Form {
    name: "watch",
    usage: "watch URL HREF.. [--polls N] [--retry R]",
    operands: &[Asked::Url("URL"), Asked::Text("HREF"), Asked::Texts("HREF")],
    options: &[POLLS, Asked::Number("--retry", 0, 100)],
};

pub(crate) const CONSOLE: Form = Form {
    name: "console",
    usage: "console URL SUBJECT [--polls N] [--ack HREF] [--user NAME]",
    operands: &[Asked::Url("URL"), Asked::Place("SUBJECT")],
    options: &[POLLS, Asked::Text("--ack"), Asked::Text("--user")],
};

pub(crate) const CHECK: Form = Form {
    name: "check",
    usage: "check FILE",
    operands: &[Asked::Text("FILE")],
    options: &[],
};

pub(crate) const RECORD: Form = Form {
    name: "record",
    usage: "record SITE [--at MS] [--tick MS]",
    operands: &[Asked::Text("SITE")],
    options: &[AT, TICK],
};

pub(crate) const AUDIT: Form = Form {
    name: "audit",
    usage: "audit SITE FILE",
    operands: &[Asked::Text("SITE"), Asked::Text("FILE")],
    options: &[],
};

pub(crate) const SUPER: Form = Form {
    name: "super",
    usage: "super CONFIG [--rounds N] [--wait MS]",
    operands: &[Asked::Text("CONFIG")],
    options: &[
        Asked::Number("--rounds", 0, 1_000_000),
        Asked::Number("--wait", 1, 300_000),
    ],
};

pub(crate) const STORM: Form = Form {
    name: "storm",
    usage: "storm SEED CLIENTS REQUESTS",
    operands: &[
        Asked::Number("SEED", 0, LARGEST_NUMBER),
        Asked::Number("CLIENTS", 1, 100),
        Asked::Number("REQUESTS", 1, 1_000_000),
    ],
    options: &[],
};

/// The command of a name, if there is one.
pub(crate) fn verb_of(word: &str) -> Option<Verb>
    ensures { result ≡ verb_of word.now }
{
    match word {
        "serve" => Some(Verb::Serve),
        "keep" => Some(Verb::Keep),
        "compact" => Some(Verb::Compact),
        "stdio" => Some(Verb::Stdio),
        "schedule" => Some(Verb::Schedule),
        "watch" => Some(Verb::Watch),
        "console" => Some(Verb::Console),
        "check" => Some(Verb::Check),
        "record" => Some(Verb::Record),
        "audit" => Some(Verb::Audit),
        "super" => Some(Verb::Super),
        "storm" => Some(Verb::Storm),
        _ => None,
    }
}

impl Verb {
    /// What it asks for.
    pub(crate) fn form(self) -> Form
        ensures { form_of result ≡ form self }
    {
        match self {
            Verb::Serve => SERVE,
            Verb::Keep => KEEP,
            Verb::Compact => COMPACT,
            Verb::Stdio => STDIO,
            Verb::Schedule => SCHEDULE,
            Verb::Watch => WATCH,
            Verb::Console => CONSOLE,
            Verb::Check => CHECK,
            Verb::Record => RECORD,
            Verb::Audit => AUDIT,
            Verb::Super => SUPER,
            Verb::Storm => STORM,
        }
    }
}
