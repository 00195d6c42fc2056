//! Which requests go to the site, and what answers the others.
ghost use Rattle.std.specs.Prelude.{◌≡◌, IfOk};
ghost use Rattle.ob_server.specs.Sort as spec;
ghost use Rattle.ob_server.specs.Sort.{Sorts, SortsTarget, SortsBody};

use crate::refusal::document_refusal;
use ob_documents::read;
use ob_http::{Media, StatusLine};
use ob_site_rules::Request;
use ob_values::{Bytes, Text, TextFault, Verb};
use ob_xml::{Refused, Why};
use std::alloc::{AllocError, Global};

/// How a request is to be answered.
#[derive(Drop)]
pub enum Sorted {
    /// By the site.
    Step(Request),
    /// By this answer, whatever the site is.
    Fixed { line: StatusLine, body: Bytes },
}

/// How a framed request is to be answered. An error only for want of memory.
///
/// A method other than GET, PUT and POST, a body of another media type than XML's, a target that is no text and a body
/// that is no document are refused, by the first of these that applies. Source: oBIX 1.1, HTTP binding; RFC 9110,
/// section 15.5.
pub fn sort_request(
    alloc: Global,
    method: &str,
    target: &[u8],
    media: Media,
    body: &[u8],
) -> Result<Sorted, AllocError>
    ensures { IfOk result (Sorts method.now target.now media body.now) }
{
    let Some(verb) = verb_of(method) else {
        return Ok(bare(alloc, StatusLine::NotAllowed));
    };
    let carries = carries(verb) && !body.is_empty();
    if carries && is_other(media) {
        return Ok(bare(alloc, StatusLine::BadMedia));
    }
    sort_target(alloc, verb, target, carries, body)
}

/// An answer without a body.
fn bare(alloc: Global, line: StatusLine) -> Sorted
    ensures { result ≡ spec.bare line }
{
    Sorted::Fixed {
        line,
        body: Bytes::new(Vec::new(alloc)),
    }
}

fn verb_of(method: &str) -> Option<Verb>
    ensures { result ≡ spec.verb_of method.now }
{
    if method == "GET" {
        return Some(Verb::Get);
    }
    if method == "PUT" {
        return Some(Verb::Put);
    }
    if method == "POST" {
        return Some(Verb::Post);
    }
    None
}

fn carries(verb: Verb) -> bool
    ensures { result ≡ spec.carries verb }
{
    match verb {
        Verb::Get => false,
        Verb::Put | Verb::Post => true,
    }
}

fn is_other(media: Media) -> bool
    ensures { result ≡ spec.is_other media }
{
    match media {
        Media::Absent | Media::Xml => false,
        Media::Other => true,
    }
}

fn sort_target(
    alloc: Global,
    verb: Verb,
    target: &[u8],
    carries: bool,
    body: &[u8],
) -> Result<Sorted, AllocError>
    ensures { IfOk result (SortsTarget verb target.now carries body.now) }
{
    match Text::from_utf8(alloc, target) {
        Ok(text) => sort_body(alloc, verb, text, carries, body),
        Err(TextFault::Memory) => Err(AllocError),
        Err(_) => {
            let text = b"refused: target\n".to_vec(alloc)?;
            Ok(refusal(text))
        }
    }
}

/// The answer that refuses with this body.
fn refusal(text: Vec<u8>) -> Sorted
    ensures { result ≡ spec.refusal text.items }
{
    Sorted::Fixed {
        line: StatusLine::BadRequest,
        body: Bytes::new(text),
    }
}

fn sort_body(
    alloc: Global,
    verb: Verb,
    target: Text,
    carries: bool,
    body: &[u8],
) -> Result<Sorted, AllocError>
    ensures { IfOk result (SortsBody verb target carries body.now) }
{
    if !carries {
        return Ok(Sorted::Step(Request {
            verb,
            target,
            body: None,
        }));
    }
    match read(alloc, body) {
        Ok(doc) => {
            let (_, root) = doc.into_parts();
            Ok(Sorted::Step(Request {
                verb,
                target,
                body: Some(root),
            }))
        }
        Err(refused) => refuse_body(alloc, target, refused),
    }
}

/// The answer to a body that is no document, after which the target isn't needed.
fn refuse_body(alloc: Global, _target: Text, refused: Refused) -> Result<Sorted, AllocError>
    ensures { IfOk result (spec.RefusesFor refused) }
{
    match refused.why {
        Why::Memory => Err(AllocError),
        _ => {
            let text = document_refusal(alloc, refused)?;
            Ok(refusal(text))
        }
    }
}
