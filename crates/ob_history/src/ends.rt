//! The first and the last of records that stand in two slices, as a log lends them.
ghost use Rattle.std.specs.Prelude.{◌≡◌, ◌++◌, slice_get, option_map};
ghost use Rattle.std.specs.Option.{option_copied};
ghost use Rattle.circular_buffer.specs.Buffer.{last_item};

use crate::records::Record;
use ob_values::Abstime;

/// The time of a record, if there is one.
fn time_of(kept: Option<&Record>) -> Option<Abstime>
    ensures { result ≡ option_map (λ r. r.time) (option_copied kept.entry) }
{
    match kept {
        Some(kept) => Some(kept.time),
        None => None,
    }
}

/// The time of the first of some records, which stand in two slices.
#[tactic(auto, using(crate::proofs::RecordEnds::first_of))]
pub fn first_time(front: &[Record], back: &[Record]) -> Option<Abstime>
    ensures { result ≡ option_map (λ r. r.time) (slice_get (front.now ++ back.now) 0) }
{
    time_of(front.first()).or(time_of(back.first()))
}

/// The time of the last of some records, which stand in two slices.
#[tactic(auto, using(crate::proofs::RecordEnds::last_of))]
pub fn last_time(front: &[Record], back: &[Record]) -> Option<Abstime>
    ensures { result ≡ option_map (λ r. r.time) (last_item (front.now ++ back.now)) }
{
    time_of(back.last()).or(time_of(front.last()))
}
