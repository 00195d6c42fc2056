//! What the scanner answers.

use crate::wait::Wait;
use thiserror::Error;

/// Why a construct is refused.
#[derive(Clone, Copy, Debug, PartialEq, Eq, Error)]
pub enum Why {
    /// It is malformed.
    #[error("Markup")]
    Markup,
    /// A run outside tags has something other than white space.
    #[error("Text")]
    Text,
    /// The input ends before the document does.
    #[error("Ended")]
    Ended,
}

/// Where a construct stands.
#[derive(Clone, Copy, PartialEq, Eq)]
pub enum Place {
    /// At the very start of the text, where EF BB BF may stand.
    Start,
    /// Behind EF BB BF, where a declaration may stand.
    Marked,
    /// Between tags, before the end of the one element.
    Between,
    /// Behind the name or an attribute of a start tag.
    InTag,
    /// Behind the one element.
    After,
}

/// One construct.
#[derive(Clone, Copy)]
pub enum Piece<'a> {
    /// The `<` and the name of a start tag.
    Open { name: &'a [u8] },
    /// An attribute, its value as it stands between the quotes, with good references alone.
    Attr { name: &'a [u8], raw: &'a [u8] },
    /// The `>` of a start tag.
    TagEnd,
    /// The `/>` of an empty tag.
    EmptyEnd,
    /// An end tag.
    Close { name: &'a [u8] },
    /// White space, a comment, an instruction or the declaration.
    Skipped,
    /// The end of the input, behind the one element.
    End,
    /// EF BB BF.
    Mark,
}

/// What stands at a place.
#[derive(Clone, Copy)]
pub enum Found<'a> {
    /// A construct, the place of its first byte, and the place behind it.
    Piece {
        piece: Piece<'a>,
        first: usize,
        next: usize,
    },
    /// The bytes end inside a construct, and more may come; what it waits for.
    More {
        wait: Wait,
    },
}

/// A refused construct, or the end inside one.
#[derive(Clone, Copy, Debug, PartialEq, Eq, Error)]
#[error("{why} at {at}")]
pub struct ScanFault {
    pub at: usize,
    pub why: Why,
}
