//! Instants in rows.
use ob_rows::word_at;
use ob_values::{Abstime, read_abstime};

/// The instant at a place, if one is spelled there.
pub(crate) fn time_at(text: &str, place: usize) -> Option<Abstime> {
    read_abstime(word_at(text, place).as_bytes()).ok()
}
