//! Items of a batch.
ghost use Rattle.std.specs.Prelude.{◌≡◌, codes, option_map, IfOk};
ghost use Rattle.ob_contracts.specs.Inherit.{words_in};
ghost use Rattle.ob_site_rules.specs.Build.{nameless, child};
ghost use Rattle.ob_site_rules.specs.Actions.{verb_of, first_verb, item_request};
ghost use Rattle.ob_requests.specs.BatchCalls.{posts_list};

use crate::asked::uri_of;
use ob_object::{Kind, Obj};
use ob_site_rules::{Request, nameless};
use ob_values::{Text, Verb};
use std::alloc::AllocError;

/// The verb that a word names.
fn verb_of(word: &str) -> Option<Verb>
    ensures { result ≡ verb_of word.now }
{
    if "obix:Read" == word {
        Some(Verb::Get)
    } else if "obix:Write" == word {
        Some(Verb::Put)
    } else if "obix:Invoke" == word {
        Some(Verb::Post)
    } else {
        None
    }
}

/// The first verb among words.
fn first_verb(words: &[Text]) -> Option<Verb>
    ensures { result ≡ first_verb words.now }
{
    for word in words {
        let verb = verb_of(word.as_str());
        if verb.is_some() {
            return verb;
        }
    }
    None
}

/// The verb of an item: the first that its words name.
fn item_verb(item: &Obj) -> Option<Verb>
    ensures { result ≡ first_verb (words_in item.now.head.is) }
{
    match item.is() {
        Some(words) => first_verb(words.as_slice()),
        None => None,
    }
}

/// The input of an item: its child `in`, without that name.
fn item_input(item: &Obj) -> Result<Option<Obj>, AllocError>
    ensures { IfOk result (λ input. input ≡ option_map nameless (child (codes "in") item.now)) }
{
    match item.child("in") {
        Some(input) => {
            let copy = input.copy()?;
            Ok(Some(nameless(copy)))
        }
        None => Ok(None),
    }
}

/// An item of a batch as a request, if it is one: a uri with a value and a verb. An error only for want of
/// memory.
///
/// Source: oBIX 1.1, chapter 5 (BatchIn).
pub fn item_request(item: &Obj) -> Result<Option<Request>, AllocError>
    ensures { IfOk result (λ request. request ≡ item_request item.now) }
{
    let Some(verb) = item_verb(item) else {
        return Ok(None);
    };
    let Some(text) = uri_of(item) else {
        return Ok(None);
    };
    let target = text.copy()?;
    let body = item_input(item)?;
    Ok(Some(Request { verb, target, body }))
}

/// Whether a list is posted, as a batch is: the reply to any other request doesn't depend on which watches stand.
pub fn posts_list(request: &Request) -> bool
    ensures { result ≡ posts_list request.now }
{
    match (request.verb, &request.body) {
        (Verb::Post, Some(body)) => body.kind().same(Kind::List),
        _ => false,
    }
}
