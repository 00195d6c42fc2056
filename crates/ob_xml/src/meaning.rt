//! What a construct means where it stands.

ghost use Rattle.std.specs.Prelude.{◌≡◌, ℕ, List, IfOk};
ghost use Rattle.ob_scan.specs.Expansion.{Expands};
ghost use Rattle.ob_scan.specs.View.{construct_of};
ghost use Rattle.ob_object.specs.declared.kind.Kind.{Kind};
ghost use Rattle.ob_xml.specs.Meanings.{Means, ReadsAttribute};
ghost use Rattle.ob_xml.specs.Views.{meaning_of, HasMeaning};

use ob_encoding::{Field, Part, PartFault, read_known, read_part};
use ob_object::Kind;
use ob_scan::{Piece, RawFault, expand};
use ob_values::{Text, ValueFault};
use std::alloc::{AllocError, Global};

/// What an attribute says.
#[derive(Drop)]
pub enum Said {
    /// This of the object.
    Part(Part),
    /// Nothing of the object: objects of the kind have no attribute of its name. Its text is kept for the root's xmlns.
    Other(Text),
}

/// What a construct means.
#[derive(Drop)]
pub enum Meaning<'a> {
    Open {
        name: &'a [u8],
    },
    Attr {
        name: &'a [u8],
        said: Result<Said, ValueFault>,
    },
    TagEnd,
    EmptyEnd,
    Close {
        name: &'a [u8],
    },
    Skipped,
    End,
    Mark,
}

/// The text that a value stands for.
fn read_text(alloc: Global, raw: &[u8]) -> Result<Text, AllocError>
    requires { (text : List ℕ) × Expands raw.now text }
    ensures { IfOk result (λ text. Expands raw.now text) }
{
    match expand(alloc, raw) {
        Ok(text) => Ok(text),
        Err(RawFault::Markup { .. }) => unreachable!(),
        Err(RawFault::Memory) => Err(AllocError),
    }
}

/// What an attribute of a tag of the kind says by its text.
fn read_said(
    alloc: Global,
    kind: Kind,
    name: &[u8],
    text: Text,
) -> Result<Result<Said, ValueFault>, AllocError>
    ensures { IfOk result (λ said. ReadsAttribute kind name.now text said) }
{
    match read_known(kind, name) {
        None => Ok(Ok(Said::Other(text))),
        Some(field) => match read_part(alloc, kind, field, text) {
            Ok(part) => Ok(Ok(Said::Part(part))),
            Err(PartFault::Value(fault)) => Ok(Err(fault)),
            Err(PartFault::Memory) => Err(AllocError),
        },
    }
}

/// What a construct means in a tag of the kind; outside tags the kind is of no account.
pub fn mean<'a>(alloc: Global, kind: Kind, piece: Piece<'a>) -> Result<Meaning<'a>, AllocError>
    requires { HasMeaning piece }
    ensures { IfOk result (λ meaning. Means kind (construct_of piece.entry) (meaning_of meaning)) }
{
    match piece {
        Piece::Open { name } => Ok(Meaning::Open { name }),
        Piece::Attr { name, raw } => {
            let text = read_text(alloc, raw)?;
            let said = read_said(alloc, kind, name, text)?;
            Ok(Meaning::Attr { name, said })
        }
        Piece::TagEnd => Ok(Meaning::TagEnd),
        Piece::EmptyEnd => Ok(Meaning::EmptyEnd),
        Piece::Close { name } => Ok(Meaning::Close { name }),
        Piece::Skipped => Ok(Meaning::Skipped),
        Piece::End => Ok(Meaning::End),
        Piece::Mark => Ok(Meaning::Mark),
    }
}
