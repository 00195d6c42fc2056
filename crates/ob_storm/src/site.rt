//! The site of a storm, as the text of its file.
ghost use Rattle.std.specs.Prelude.{◌≡◌, ◌++◌, string_bytes, IfOk};
ghost use Rattle.ob_storm.specs.Site.{point_text, point_texts, site_of};

use std::alloc::{AllocError, Global};

/// How many points the site has.
const POINTS: u64 = 100;

// The text of a point.
fn point_text(alloc: Global, number: u64) -> Result<String, AllocError>
    ensures { IfOk result (λ text. string_bytes text ≡ point_text number) }
{
    format!(in alloc;
        "<int href=\"p{number}\" is=\"obix:WritablePoint\" val=\"0\" max=\"999\" min=\"0\" writable=\"true\"/>"
    )
}

// The texts of so many points.
#[tactic(auto, using(crate::proofs::SiteLemmas::one_more_point))]
fn point_texts(alloc: Global, count: u64) -> Result<String, AllocError>
    ensures { IfOk result (λ text. string_bytes text ≡ point_texts 0 count) }
{
    let mut text = String::new(alloc);
    for number in 0..count {
        let point = point_text(alloc, number)?;
        text.push_str(point.as_str())?;
    }
    Ok(text)
}

// The text of a site with so many points.
#[tactic(auto, unfolding(crate::specs::Site::site_of))]
fn site_of(alloc: Global, count: u64) -> Result<String, AllocError>
    ensures { IfOk result (λ text. string_bytes text ≡ site_of count) }
{
    let points = point_texts(alloc, count)?;
    format!(in alloc;
        "<obj href=\"http://h/obix/\" is=\"obix:Lobby\">{points}<obj name=\"h\" href=\"h\" is=\"obix:History\"><ref name=\"source\" href=\"p0\"/></obj><obj name=\"alarms\" href=\"alarms\" is=\"obix:AlarmSubject\"><list name=\"rules\"><obj><ref name=\"source\" href=\"p1\"/><int name=\"low\" val=\"100\"/><int name=\"high\" val=\"899\"/><bool name=\"needsAck\" val=\"true\"/></obj></list></obj></obj>"
    )
}

/// The text of the site: a lobby with a hundred writable points, the history of the first and the alarms of the second.
/// An error only for want of memory.
pub fn site_text(alloc: Global) -> Result<String, AllocError>
    ensures { IfOk result (λ text. string_bytes text ≡ site_of 100) }
{
    site_of(alloc, POINTS)
}
