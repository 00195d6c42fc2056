//! Clients of one site: what their sessions ask of the program, and what their mirrors hold.
use crate::inputs::Inputs;
use crate::mirrors::Mirrors;
use crate::outside::{Case, ran};
use crate::runs::{text_named, words_in};
use crate::sessions::{session_over, tell_answer};
use ob_client::{CallFault, Session};
use ob_documents::read;
use ob_io::MemLink;
use ob_object::Obj;
use ob_rows::{Row, Table, Tally, asked_of, split_word, text_of};
use ob_values::{Text, Verb};
use std::alloc::{AllocError, Global};
use std::rt::Files;
use std::sync::Wait;
use std::thread::Threads;
use std::{fs, io};

/// A client: what it has asked over its link, a row each, the bytes that answered it, how many bytes it wrote, and its mirror.
struct Client {
    asked: Vec<String>,
    answers: Vec<u8>,
    written: usize,
    mirror: Mirrors,
}

impl Drop for Client {
    // By one call for each part.
    fn drop(self) {
        let Client {
            asked,
            answers,
            written: _,
            mirror,
        } = self;
        drop(asked);
        drop(answers);
        drop(mirror);
    }
}

fn verb(word: &str) -> Verb {
    match word {
        "GET" => Verb::Get,
        "PUT" => Verb::Put,
        _ => Verb::Post,
    }
}

// The object that a text is, if it is a document.
fn object(alloc: Global, said: &str) -> Option<Obj> {
    let (_, root) = read(alloc, said.as_bytes()).ok()?.into_parts();
    Some(root)
}

// What a session answers to `VERB TARGET` or `VERB TARGET BODY`.
fn ask(alloc: Global, session: &mut Session<MemLink>, row: &str) -> Result<Obj, CallFault> {
    let (word, rest) = split_word(row);
    let (target, body) = split_word(rest);
    let Ok(target) = Text::from_utf8(alloc, target.as_bytes()) else {
        return Err(CallFault::Memory);
    };
    let body = object(alloc, body);
    session.call(verb(word), &target, body.as_ref())
}

// Asks all rows over a session, whatever is answered.
fn ask_all(alloc: Global, session: &mut Session<MemLink>, rows: &[String]) {
    for row in rows {
        let _ = ask(alloc, session, row.as_str());
    }
}

impl Client {
    // Nothing is asked, and nothing is held.
    fn new(alloc: Global) -> Client {
        Client {
            asked: Vec::new(alloc),
            answers: Vec::new(alloc),
            written: 0,
            mirror: Mirrors::new(alloc),
        }
    }

    // The bytes that it writes to ask one row more, as its session writes them behind those of the rows before.
    fn request(&mut self, alloc: Global, row: &str) -> Result<Vec<u8>, AllocError> {
        self.asked.push(String::from_str(alloc, row)?)?;
        let mut session = session_over(alloc, self.answers.as_slice())?;
        ask_all(alloc, &mut session, self.asked.as_slice());
        let link = session.end();
        let written = link.written().unwrap_or(&[]);
        let request = written.get(self.written..).unwrap_or(&[]).to_vec(alloc)?;
        self.written = written.len();
        Ok(request)
    }

    // What its session answers to the last row, with these bytes behind those that answered the rows before.
    fn hear(&mut self, alloc: Global, answer: &[u8]) -> Result<Result<Obj, CallFault>, AllocError> {
        self.answers.extend_from_slice(answer)?;
        let mut session = session_over(alloc, self.answers.as_slice())?;
        let Some((last, front)) = self.asked.as_slice().split_last() else {
            return Ok(Err(CallFault::Ended));
        };
        ask_all(alloc, &mut session, front);
        Ok(ask(alloc, &mut session, last.as_str()))
    }
}

/// Two clients of a site, each with a session over a link of its own, and a mirror; what both sessions have written since the
/// site was opened, in the order of the rows, and how many bytes answered that.
struct Polls<'a> {
    texts: &'a str,
    document: &'a str,
    requests: Vec<u8>,
    answered: usize,
    first: Client,
    second: Client,
}

impl Drop for Polls<'_> {
    // By one call for each part.
    fn drop(self) {
        let Polls {
            texts: _,
            document: _,
            requests,
            answered: _,
            first,
            second,
        } = self;
        drop(requests);
        drop(first);
        drop(second);
    }
}

impl<'a> Polls<'a> {
    // No site; those that are opened have their documents among these texts.
    fn new(alloc: Global, texts: &'a str) -> Polls<'a> {
        Polls {
            texts,
            document: "",
            requests: Vec::new(alloc),
            answered: 0,
            first: Client::new(alloc),
            second: Client::new(alloc),
        }
    }

    // Both begin anew, with the site of this text.
    fn open(&mut self, alloc: Global, name: &str) {
        self.document = text_named(self.texts, name);
        self.requests.clear();
        self.answered = 0;
        self.first = Client::new(alloc);
        self.second = Client::new(alloc);
    }

    fn client(&mut self, is_first: bool) -> &mut Client {
        if is_first {
            &mut self.first
        } else {
            &mut self.second
        }
    }

    // All that the site answers to what was written so far.
    fn output<R: Threads + Wait + Sync + AllocGlobal>(
        &self,
        rt: &R,
    ) -> Result<Vec<u8>, AllocError> {
        let words = words_in(rt.alloc(), "4096 stdio site")?;
        let case = Case {
            piece: 4096,
            is_scarce: false,
            words: &words,
            document: self.document.as_bytes(),
            inputs: Inputs::Source(text_of(self.requests.as_slice())),
        };
        let ran = ran(rt, case, None)?;
        ran.output.as_slice().to_vec(rt.alloc())
    }

    // What a client's session answers to a row.
    fn ask<R: Threads + Wait + Sync + AllocGlobal>(
        &mut self,
        rt: &R,
        is_first: bool,
        row: &str,
    ) -> Result<Result<Obj, CallFault>, AllocError> {
        let request = self.client(is_first).request(rt.alloc(), row)?;
        self.requests.extend_from_slice(&request)?;
        drop(request);
        let output = self.output(rt)?;
        let answer = output.get(self.answered..).unwrap_or(&[]);
        self.answered = output.len();
        self.client(is_first).hear(rt.alloc(), answer)
    }

    // Posts what `CALL TARGET BODY` says, and gives the reply to the client's mirror.
    fn poll<R: Threads + Wait + Sync + AllocGlobal>(
        &mut self,
        rt: &R,
        is_first: bool,
        row: &str,
        told: &mut String,
    ) -> Result<(), AllocError> {
        let (call, said) = split_word(row);
        let row = format!(in rt.alloc(); "POST {said}")?;
        match self.ask(rt, is_first, row.as_str())? {
            Ok(reply) => {
                let outcome = self.client(is_first).mirror.give(call, reply)?;
                told.push_str(outcome)
            }
            Err(fault) => write!(told, "{fault}"),
        }
    }

    fn tell<R: Threads + Wait + Sync + AllocGlobal>(
        &mut self,
        rt: &R,
        is_first: bool,
        row: &str,
        told: &mut String,
    ) -> Result<(), AllocError> {
        let (word, _) = split_word(row);
        match word {
            "GET" | "PUT" | "POST" => {
                let answer = self.ask(rt, is_first, row)?;
                tell_answer(rt.alloc(), answer, told)
            }
            "add" | "changes" | "refresh" => self.poll(rt, is_first, row, told),
            _ => {
                let asked = Row {
                    text: row,
                    bytes: row.as_bytes(),
                };
                self.client(is_first).mirror.answer(rt.alloc(), asked, told)
            }
        }
    }

    fn tell_row<R: Threads + Wait + Sync + AllocGlobal>(
        &mut self,
        rt: &R,
        row: &str,
        told: &mut String,
    ) -> Result<(), AllocError> {
        let (who, said) = split_word(row);
        match who {
            "open" => {
                self.open(rt.alloc(), said);
                told.push_str("opened")
            }
            "first" => self.tell(rt, true, said, told),
            "second" => self.tell(rt, false, said, told),
            _ => told.push_str("no such row"),
        }
    }
}

// Asks a row, and counts it unless it is a remark.
fn ask_row<R: Threads + Wait + Sync + Print + AllocGlobal>(
    rt: &R,
    polls: &mut Polls,
    row: &str,
    tally: &mut Tally,
) -> io::Result<()> {
    let Some(text) = asked_of(row) else {
        return Ok(());
    };
    let mut told = String::new(rt.alloc());
    polls.tell_row(rt, text, &mut told)?;
    tally.count(rt, row, told.as_str())
}

// Asks all rows, and prints how many there are.
fn ask_rows<R: Threads + Wait + Sync + Print + AllocGlobal>(
    rt: &R,
    file: &str,
    rows: &str,
    texts: &str,
) -> io::Result<()> {
    let mut polls = Polls::new(rt.alloc(), texts);
    let mut tally = Tally::new();
    for row in rows.lines() {
        ask_row(rt, &mut polls, row, &mut tally)?;
    }
    tally.print(rt, file)
}

/// Asks the rows of the file of a name, of two clients of a site, each with a session over a link of its own, and a mirror; prints
/// those that come out otherwise and how many there are.
///
/// `open NAME`: both begin anew, with the site of a text. `first ROW` and `second ROW`: what that client does. ROW is
/// `VERB TARGET` or `VERB TARGET BODY`, which is asked, and told is the reply; or `add`, `changes` or `refresh` with TARGET and
/// BODY: that is posted, and the reply is given to the mirror; or a row of `Mirrors`.
///
/// What answers is `obix stdio` on the site, asked what both sessions have written since it was opened, in the order of the rows.
/// An `io::Error` where the file isn't there, or for want of memory.
pub(crate) fn run_polls<R: Threads + Wait + Sync + Print + Files + AllocGlobal>(
    rt: &R,
    file: &str,
    texts: &str,
) -> io::Result<()> {
    let rows = fs::read_to_string(rt, file)?;
    ask_rows(rt, file, rows.as_str(), texts)
}
