//! What `help` writes: a page on all commands, and one on each. A page has at most 24 lines.
ghost use Rattle.std.specs.Prelude.{◌≡◌};
ghost use Rattle.ob_command.specs.Pages.{page};

use crate::form::Verb;

/// The page on all commands.
pub const ALL: &str = "\
obix: an oBIX 1.1 server, client, alarm console and auditor. Its commands:
  serve SITE HOST PORT         serves a site file over HTTP, all in memory
  keep SITE RECORD HOST PORT   serves it, and keeps what is written in RECORD
  compact SITE RECORD NEW      writes a shorter record, by which keep goes on
  stdio SITE                   answers the requests of standard input
  schedule SITE FILE           the same, with the weekly schedules of FILE
  watch URL HREF..             follows objects of a server
  console URL SUBJECT          shows the alarms of a server, acknowledges one
  check FILE                   writes a document in its canonical form
  record SITE                  writes the record of what stdio would answer
  audit SITE FILE              says whether the site gives what a record has
  super CONFIG                 shows several servers in one tree
  storm SEED CLIENTS REQUESTS  counts the replies to requests that are drawn
  help [COMMAND]               writes this, or more on a command
  --version                    writes the version
Options of theirs, as --x V or --x=V, and what holds where they aren't given:
  serve, keep                  --workers N (4)  --quota M (1)
  stdio, schedule, record      --at MS (the system's time)  --tick MS (0)
  watch                        --polls N (1)  --retry R (0)
  console                      --polls N (1)  --ack HREF  --user NAME (console)
  super                        --rounds N (1)  --wait MS (10000)
More on one: obix COMMAND --help. All: man obix (man -l docs/obix.1).
";

const SERVE: &str = "\
obix serve SITE HOST PORT [--workers N] [--quota M]
Answers the HTTP requests that come to a port, from the tree of a site file.
All is in memory: obix keep does the same and keeps what is written.
  SITE         the site file, an oBIX document
  HOST, PORT   where it listens; PORT is 0 to 65535
  --workers N  how many connections at once: 1 to 64, 4 if not given
  --quota M    how many each worker serves, one after the other, before it
               ends: 1 to 1000000, 1 if not given
It writes \"listening HOST PORT\" first, and \"served N\" at its end.
The manual: man obix (man -l docs/obix.1).
";

const KEEP: &str = "\
obix keep SITE RECORD HOST PORT [--workers N] [--quota M]
Does what obix serve does, on a site that outlives the process: what a request
changes is in RECORD, on the disk, before it is answered.
  SITE         the site file, an oBIX document
  RECORD       the file of the record; it is made where there is none
  HOST, PORT   where it listens; PORT is 0 to 65535
  --workers N  how many connections at once: 1 to 64, 4 if not given
  --quota M    how many each worker serves, one after the other, before it
               ends: 1 to 1000000, 1 if not given
The manual: man obix (man -l docs/obix.1).
";

const COMPACT: &str = "\
obix compact SITE RECORD NEW
Writes a record with fewer entries, by which obix keep goes on alike, and
prints how many. No server may have RECORD meanwhile.
  SITE    the site file of the record
  RECORD  the file of the record; it is not changed
  NEW     the file of the new record, which must not be there yet
The manual: man obix (man -l docs/obix.1).
";

const STDIO: &str = "\
obix stdio SITE [--at MS] [--tick MS]
Answers the HTTP requests of standard input on standard output.
  SITE       the site file, an oBIX document
  --at MS    the moment of the opening and of the first request, in
             milliseconds from 1970; the system's time if not given
  --tick MS  how much later each further request comes, where --at is given:
             0 if not given
The manual: man obix (man -l docs/obix.1).
";

const SCHEDULE: &str = "\
obix schedule SITE FILE [--at MS] [--tick MS]
Does what obix stdio does, on a site whose points also get the values of weekly
schedules when they are due.
  SITE       the site file, an oBIX document
  FILE       the file of the schedules
  --at MS    the moment of the opening and of the first request, in
             milliseconds from 1970; the system's time if not given
  --tick MS  how much later each further request comes, where --at is given:
             0 if not given
The manual: man obix (man -l docs/obix.1).
";

const WATCH: &str = "\
obix watch URL HREF.. [--polls N] [--retry R]
Follows objects of a server, and writes a line for each at the beginning and
at each poll.
  URL        the server's lobby, an http URL
  HREF..     the objects
  --polls N  how many polls, one at once after the other: 0 to 1000000,
             1 if not given
  --retry R  how many broken polls are mended, each on a new connection:
             0 to 100, 0 if not given
The manual: man obix (man -l docs/obix.1).
";

const CONSOLE: &str = "\
obix console URL SUBJECT [--polls N] [--ack HREF] [--user NAME]
Writes the alarms of a server, a line for each, and acknowledges one.
  URL          the server's lobby, an http URL
  SUBJECT      the href of its alarm subject
  --polls N    how many polls, one at once after the other: 0 to 1000000,
               1 if not given
  --ack HREF   the alarm to acknowledge; none if not given
  --user NAME  who acknowledges it: console if not given
The manual: man obix (man -l docs/obix.1).
";

const CHECK: &str = "\
obix check FILE
Writes the canonical text of an oBIX document, or says the first refused
construct, its cause and its place in bytes.
  FILE  the document
The manual: man obix (man -l docs/obix.1).
";

const RECORD: &str = "\
obix record SITE [--at MS] [--tick MS]
Asks a site what obix stdio would, and writes the record of that in place of
the answers: each request with its moment and its reply.
  SITE       the site file, an oBIX document
  --at MS    the moment of the opening and of the first request, in
             milliseconds from 1970; the system's time if not given
  --tick MS  how much later each further request comes, where --at is given:
             0 if not given
The manual: man obix (man -l docs/obix.1).
";

const AUDIT: &str = "\
obix audit SITE FILE
Says whether a record of obix record is one that the site gives: it writes
\"legal N\" with the number of its requests and ends with 0, or \"illegal at K\"
with the number of the first whose reply isn't the site's, and ends with 13.
  SITE  the site file
  FILE  the record
The manual: man obix (man -l docs/obix.1).
";

const SUPER: &str = "\
obix super CONFIG [--rounds N] [--wait MS]
Follows several servers, and answers the HTTP requests of standard input from
one tree of what they show.
  CONFIG      the file that names the servers, and what is followed at each
  --rounds N  how many rounds over the servers come before the first request:
              0 to 1000000, 1 if not given
  --wait MS   how long a server may take for a poll, a dial or a write that is
              sent on, in milliseconds: 1 to 300000, 10000 if not given
The manual: man obix (man -l docs/obix.1).
";

const STORM: &str = "\
obix storm SEED CLIENTS REQUESTS
Makes the requests that a seed draws of a site of its own, and writes the counts
of what is in the replies.
  SEED      a number of at most 18 digits
  CLIENTS   how many clients make them, in turn: 1 to 100
  REQUESTS  how many there are: 1 to 1000000
The manual: man obix (man -l docs/obix.1).
";

/// The page on a command, or that on all of them.
pub fn page(verb: Option<Verb>) -> &'static str
    ensures { result.now ≡ page verb }
{
    match verb {
        None => ALL,
        Some(Verb::Serve) => SERVE,
        Some(Verb::Keep) => KEEP,
        Some(Verb::Compact) => COMPACT,
        Some(Verb::Stdio) => STDIO,
        Some(Verb::Schedule) => SCHEDULE,
        Some(Verb::Watch) => WATCH,
        Some(Verb::Console) => CONSOLE,
        Some(Verb::Check) => CHECK,
        Some(Verb::Record) => RECORD,
        Some(Verb::Audit) => AUDIT,
        Some(Verb::Super) => SUPER,
        Some(Verb::Storm) => STORM,
    }
}
