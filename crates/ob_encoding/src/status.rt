//! The words for a status.

ghost use Rattle.std.specs.Prelude.{◌≡◌};
ghost use Rattle.ob_encoding.specs.Statuses.{status_of, status_read};

use crate::kind::is_word;
use ob_object::Status;
use ob_spelling::{ValueFault, trimmed};

fn status_of(word: &[u8]) -> Result<Status, ValueFault>
    ensures { result ≡ status_of word.now }
{
    if is_word(word, "disabled") {
        return Ok(Status::Disabled);
    }
    if is_word(word, "fault") {
        return Ok(Status::Fault);
    }
    if is_word(word, "down") {
        return Ok(Status::Down);
    }
    if is_word(word, "unackedAlarm") {
        return Ok(Status::UnackedAlarm);
    }
    if is_word(word, "alarm") {
        return Ok(Status::Alarm);
    }
    if is_word(word, "unacked") {
        return Ok(Status::Unacked);
    }
    if is_word(word, "overridden") {
        return Ok(Status::Overridden);
    }
    if is_word(word, "ok") {
        return Ok(Status::Ok);
    }
    Err(ValueFault::NotStatus)
}

/// The status that the bytes spell: one of the eight words, with white space round it; NotStatus for any
/// other text.
/// Source: oBIX 1.1, section 4.2.7.8 (status).
pub fn read_status(bytes: &[u8]) -> Result<Status, ValueFault>
    ensures { result ≡ status_read bytes.now }
{
    status_of(trimmed(bytes))
}
