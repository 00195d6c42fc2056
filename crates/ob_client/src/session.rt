//! Calls over a link, one after the other.
ghost use Rattle.std.specs.Prelude.{◌≡◌, ◌≤◌, ◌<◌, ◌⊎◌, [], true, false, length, IfOk, IfErr, OnOk, MatchResult, Err};
ghost use Rattle.std.specs.Option.{option_copied};
ghost use Rattle.ob_io.specs.Faults.{Rose};
ghost use Rattle.ob_io.specs.Links.{inlet};
ghost use Rattle.ob_http.specs.Asking.{request_text};
ghost use Rattle.ob_http.specs.Replies.{AreTaken, reply_response};
ghost use Rattle.ob_client.specs.Sessions as spec;
ghost use Rattle.ob_client.specs.Sessions.{body_text, Comes, Gives, Answers, Reads, Asks, Fails, ReadsPiece, is_last, is_of_asking};
ghost use Rattle.ob_client.specs.declared.call_fault.CallFault.TheVariants as fault;

use crate::call_fault::CallFault;
use ob_documents::read;
use ob_encoding::encode;
use ob_http::{FrameFault, Reply, ReplyFramer, write_request};
use ob_io::{Link, send};
use ob_object::Obj;
use ob_values::{Text, Verb};
use ob_xml::{Doc, Refused, Why};
use std::alloc::{AllocError, Global};

/// Calls over a link: each writes a request and reads its reply.
#[derive(Drop)]
pub struct Session<L> {
    alloc: Global,
    link: L,
    host: Text,
    framer: ReplyFramer,
    is_dead: bool,
}

const PIECE: usize = 4096;

// The body of a request.
fn body_of(alloc: Global, body: Option<&Obj>) -> Result<Vec<u8>, AllocError>
    ensures { IfOk result (λ bytes. bytes.items ≡ body_text (option_copied body.entry)) }
{
    match body {
        Some(object) => encode(alloc, None, object),
        None => Ok(Vec::new(alloc)),
    }
}

// Reads a piece, and gives it to the framer.
fn read_piece<L: Link>(link: &mut L, framer: &mut ReplyFramer) -> Result<(), CallFault>
    ensures piece { ReadsPiece (inlet (L.left link.old) (L.taken link.old)) (inlet (L.left link.new) (L.taken link.new)) framer.old framer.new result }
    ensures apart { (L.held link.new ≡ L.held link.old) × (L.write_faults link.new ≡ L.write_faults link.old) }
    ensures later { L.read_faults link.old ≤ L.read_faults link.new }
    ensures cause { Fails result fault.Link → Rose (L.read_faults link.old) (L.read_faults link.new) }
    ensures grows { OnOk result (length framer.old < length framer.new) }
{
    let mut buffer = [0u8; PIECE];
    let Ok(count) = link.read(&mut buffer) else {
        return Err(CallFault::Link);
    };
    if count == 0 {
        return Err(CallFault::Ended);
    }
    let (piece, _) = buffer.split_at(count);
    match framer.feed(piece) {
        Ok(()) => Ok(()),
        Err(AllocError) => Err(CallFault::Memory),
    }
}

// The next reply of the bytes that the link gives: each piece has some, and a part of a reply has not many.
fn next_reply<L: Link>(link: &mut L, framer: &mut ReplyFramer) -> Result<Reply, CallFault>
    ensures reads { Reads Comes (inlet (L.left link.old) (L.taken link.old)) (inlet (L.left link.new) (L.taken link.new)) framer.old framer.new result }
    ensures apart { (L.held link.new ≡ L.held link.old) × (L.write_faults link.new ≡ L.write_faults link.old) }
    ensures later { L.read_faults link.old ≤ L.read_faults link.new }
    ensures cause { Fails result fault.Link → Rose (L.read_faults link.old) (L.read_faults link.new) }
    ensures alive { Fails result fault.Dead → ⊥ }
{
    'pieces: loop {
        match framer.take() {
            Ok(Some(reply)) => return Ok(reply),
            Ok(None) => match read_piece(link, framer) {
                Ok(()) => {}
                Err(fault) => return Err(fault),
            },
            Err(fault) => return Err(fault_of(fault)),
        }
    }
}

// What a fault of framing is to a call.
fn fault_of(fault: FrameFault) -> CallFault
    ensures { result ≡ spec.fault_of fault }
{
    match fault {
        FrameFault::Memory => CallFault::Memory,
        _ => CallFault::PeerFrame(fault),
    }
}

// What a document holds.
fn root_of(doc: Doc) -> Obj
    ensures { result ≡ doc.root }
{
    let (ns, root) = doc.into_parts();
    drop(ns);
    root
}

// The object that the reply's body spells.
fn object_of(alloc: Global, reply: &Reply) -> Result<Obj, CallFault>
    ensures { Gives (reply_response reply.now) result }
{
    if reply.status != 200 {
        return Err(CallFault::PeerStatus {
            number: reply.status,
        });
    }
    match read(alloc, reply.body.as_slice()) {
        Ok(doc) => Ok(root_of(doc)),
        Err(refused) => Err(refusal_of(refused)),
    }
}

// What the refusal of a body is to a call.
fn refusal_of(refused: Refused) -> CallFault
    ensures { result ≡ spec.refusal_of refused }
{
    match refused.why {
        Why::Memory => CallFault::Memory,
        _ => CallFault::PeerDocument(refused),
    }
}

// Reads a reply, and gives what it tells.
fn answer<L: Link>(alloc: Global, link: &mut L, framer: &mut ReplyFramer) -> Result<Obj, CallFault>
    ensures reads { Reads Answers (inlet (L.left link.old) (L.taken link.old)) (inlet (L.left link.new) (L.taken link.new)) framer.old framer.new result }
    ensures apart { (L.held link.new ≡ L.held link.old) × (L.write_faults link.new ≡ L.write_faults link.old) }
    ensures later { L.read_faults link.old ≤ L.read_faults link.new }
    ensures cause { Fails result fault.Link → Rose (L.read_faults link.old) (L.read_faults link.new) }
    ensures alive { Fails result fault.Dead → ⊥ }
{
    match next_reply(link, framer) {
        Ok(reply) => object_of(alloc, &reply),
        Err(fault) => Err(fault),
    }
}

// Whether no call after this answer has one.
fn is_last(answer: &Result<Obj, CallFault>) -> bool
    ensures { result ≡ is_last answer.now }
{
    match answer {
        Ok(_) => false,
        Err(CallFault::PeerStatus { number: _ }) => false,
        Err(CallFault::PeerDocument(_)) => false,
        Err(_) => true,
    }
}

impl<L: Link> Session<L> {
    /// Calls over a link to this host, as requests name it. The link comes back where there is no memory.
    pub fn new(alloc: Global, link: L, host: Text) -> Result<Session<L>, (L, AllocError)>
        ensures { MatchResult result
            (λ s. (s.link ≡ link) × (s.host ≡ host) × AreTaken [] [] s.framer × (s.is_dead ≡ false))
            (λ back. back.0 ≡ link) }
    {
        match ReplyFramer::new(alloc) {
            Ok(framer) => Ok(Session {
                alloc,
                link,
                host,
                framer,
                is_dead: false,
            }),
            Err(AllocError) => Err((link, AllocError)),
        }
    }

    // Writes a request.
    fn ask(&mut self, verb: Verb, target: &Text, body: Option<&Obj>) -> Result<(), CallFault>
        ensures asks { Asks (L.held self.old.link) (L.held self.new.link) (request_text verb target.now self.old.host (body_text (option_copied body.entry))) result }
        ensures apart { (L.left self.new.link ≡ L.left self.old.link) × (L.taken self.new.link ≡ L.taken self.old.link) × (L.read_faults self.new.link ≡ L.read_faults self.old.link) }
        ensures stands { (self.new.host ≡ self.old.host) × (self.new.framer ≡ self.old.framer) }
        ensures later { L.write_faults self.old.link ≤ L.write_faults self.new.link }
        ensures cause { Fails result fault.Link → Rose (L.write_faults self.old.link) (L.write_faults self.new.link) }
        ensures causes { IfErr result (λ e. is_of_asking e ≡ true) }
    {
        let Ok(bytes) = body_of(self.alloc, body) else {
            return Err(CallFault::Memory);
        };
        let Ok(request) = write_request(self.alloc, verb, target, &self.host, &bytes) else {
            return Err(CallFault::Memory);
        };
        match send(&mut self.link, &request) {
            Ok(()) => Ok(()),
            Err(_) => Err(CallFault::Link),
        }
    }

    // Writes a request and reads its reply.
    fn exchange(&mut self, verb: Verb, target: &Text, body: Option<&Obj>) -> Result<Obj, CallFault>
        ensures asks { Asks (L.held self.old.link) (L.held self.new.link) (request_text verb target.now self.old.host (body_text (option_copied body.entry))) result }
        ensures reads { Reads Answers (inlet (L.left self.old.link) (L.taken self.old.link)) (inlet (L.left self.new.link) (L.taken self.new.link)) self.old.framer self.new.framer result }
        ensures host { self.new.host ≡ self.old.host }
        ensures later { (L.read_faults self.old.link ≤ L.read_faults self.new.link) × (L.write_faults self.old.link ≤ L.write_faults self.new.link) }
        ensures cause { Fails result fault.Link → Rose (L.read_faults self.old.link) (L.read_faults self.new.link) ⊎ Rose (L.write_faults self.old.link) (L.write_faults self.new.link) }
        ensures alive { Fails result fault.Dead → ⊥ }
    {
        match self.ask(verb, target, body) {
            Ok(()) => answer(self.alloc, &mut self.link, &mut self.framer),
            Err(fault) => Err(fault),
        }
    }

    /// Writes a request and gives the object of the next reply. Link where a read or a write failed; PeerStatus where
    /// the reply's status isn't 200; PeerDocument where its body is refused; PeerFrame where no reply comes next; Ended
    /// where the link ended before it was whole; Dead, and nothing is done, where an earlier call answered Link,
    /// PeerFrame, Ended or Memory.
    pub fn call(&mut self, verb: Verb, target: &Text, body: Option<&Obj>) -> Result<Obj, CallFault>
        ensures dead { (self.old.is_dead ≡ true) → (result ≡ Err fault.Dead) × (self.new ≡ self.old) }
        ensures alive { Fails result fault.Dead → self.old.is_dead ≡ true }
        ensures asks { (self.old.is_dead ≡ false) → Asks (L.held self.old.link) (L.held self.new.link) (request_text verb target.now self.old.host (body_text (option_copied body.entry))) result }
        ensures reads { (self.old.is_dead ≡ false) → Reads Answers (inlet (L.left self.old.link) (L.taken self.old.link)) (inlet (L.left self.new.link) (L.taken self.new.link)) self.old.framer self.new.framer result }
        ensures stands { (self.old.is_dead ≡ false) → (self.new.host ≡ self.old.host) × (self.new.is_dead ≡ is_last result) }
        ensures later { (L.read_faults self.old.link ≤ L.read_faults self.new.link) × (L.write_faults self.old.link ≤ L.write_faults self.new.link) }
        ensures cause { Fails result fault.Link → Rose (L.read_faults self.old.link) (L.read_faults self.new.link) ⊎ Rose (L.write_faults self.old.link) (L.write_faults self.new.link) }
    {
        if self.is_dead {
            return Err(CallFault::Dead);
        }
        let answer = self.exchange(verb, target, body);
        self.is_dead = is_last(&answer);
        answer
    }

    /// All reads and writes of the calls from now on, until the next such call, may take so many milliseconds together, as the
    /// link's `within` has it.
    pub fn within(&mut self, ms: u32)
        ensures bytes { (L.left self.new.link ≡ L.left self.old.link) × (L.taken self.new.link ≡ L.taken self.old.link) × (L.held self.new.link ≡ L.held self.old.link) }
        ensures faults { (L.read_faults self.new.link ≡ L.read_faults self.old.link) × (L.write_faults self.new.link ≡ L.write_faults self.old.link) }
        ensures stands { (self.new.host ≡ self.old.host) × (self.new.framer ≡ self.old.framer) × (self.new.is_dead ≡ self.old.is_dead) }
    {
        self.link.within(ms);
    }

    /// The link.
    pub fn end(self) -> L
        ensures { result ≡ self.link }
    {
        let Session {
            alloc: _,
            link,
            host,
            framer,
            is_dead: _,
        } = self;
        drop(host);
        drop(framer);
        link
    }
}
