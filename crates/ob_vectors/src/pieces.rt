//! Documents in pieces, and large ones: wherever a text is cut, the same is told of it.
use crate::documents::{read, read_by, tell};
use ob_rows::{Row, Table, split_word};
use ob_xml::{Decoder, Refused, Why};
use std::alloc::{AllocError, Global};

/// Rows of ways to read, each before what is read:
///
/// `cut TEXT`: in three pieces, cut anywhere; `fronts TEXT`: whole, and each front of it, which has to end too early;
/// `kept FRONT`: how many bytes a decoder keeps of it; `large TEXT`: in pieces of 4,096 bytes; `children TEXT`: so too, how many
/// children its object has.
#[derive(Drop)]
pub(crate) struct Pieces;

// Whether a text in these three pieces is told as the whole one is.
fn is_told_so(alloc: Global, pieces: &[&[u8]], whole: &str) -> Result<bool, AllocError> {
    let mut told = String::new(alloc);
    tell(alloc, read(alloc, pieces), &mut told)?;
    Ok(told.as_str() == whole)
}

// Whether a text is told as the whole one is wherever this front of it is cut.
fn is_front_told_so(
    alloc: Global,
    front: &[u8],
    back: &[u8],
    whole: &str,
) -> Result<bool, AllocError> {
    for first in 0..front.len() + 1 {
        let (front, middle) = front.split_at(first);
        if !is_told_so(alloc, &[front, middle, back], whole)? {
            return Ok(false);
        }
    }
    Ok(true)
}

// A second place at which a text is told otherwise than the whole one, if it is cut there and once before it.
fn odd_cut(alloc: Global, text: &[u8], whole: &str) -> Result<Option<usize>, AllocError> {
    for second in 0..text.len() + 1 {
        let (front, back) = text.split_at(second);
        if !is_front_told_so(alloc, front, back, whole)? {
            return Ok(Some(second));
        }
    }
    Ok(None)
}

// Tells of a text, and of a second place where it is told otherwise if it is cut there and before it.
fn tell_cut(alloc: Global, text: &[u8], told: &mut String) -> Result<(), AllocError> {
    tell(alloc, read(alloc, &[text]), told)?;
    match odd_cut(alloc, text, told.as_str())? {
        Some(second) => write!(told, " but not if cut at {second}"),
        None => Ok(()),
    }
}

// Whether a front ends too early, at its own end.
fn ends_early(alloc: Global, front: &[u8]) -> bool {
    let ended = Refused {
        at: front.len() as u64,
        why: Why::Ended,
    };
    match read(alloc, &[front]) {
        Ok(doc) => {
            drop(doc);
            false
        }
        Err(refused) => refused == ended,
    }
}

// Tells of a text, and of the first front that doesn't end too early.
fn tell_fronts(alloc: Global, text: &[u8], told: &mut String) -> Result<(), AllocError> {
    tell(alloc, read(alloc, &[text]), told)?;
    for len in 0..text.len() {
        let (front, _) = text.split_at(len);
        if !ends_early(alloc, front) {
            return write!(told, " but not the front of {len}");
        }
    }
    Ok(())
}

// Tells how many bytes a decoder keeps of a front.
fn tell_kept(alloc: Global, front: &[u8], told: &mut String) -> Result<(), AllocError> {
    let mut decoder = Decoder::new(alloc);
    let fed = decoder.feed(front);
    let kept = decoder.kept();
    drop(decoder);
    match fed {
        Ok(()) => write!(told, "{kept}"),
        Err(refused) => write!(told, "{refused}"),
    }
}

// The size of the pieces in which a large text comes, in bytes.
const SIZE: usize = 4096;

fn tell_large(alloc: Global, text: &[u8], told: &mut String) -> Result<(), AllocError> {
    tell(alloc, read_by(alloc, text, SIZE), told)
}

// Tells how many children the object of a large text has.
fn tell_children(alloc: Global, text: &[u8], told: &mut String) -> Result<(), AllocError> {
    match read_by(alloc, text, SIZE) {
        Ok(doc) => {
            let children = doc.root.children().len();
            write!(told, "{children}")
        }
        Err(refused) => write!(told, "{refused}"),
    }
}

// What a row says behind its first word, as bytes.
fn behind<'a>(asked: &Row<'a>, word: &str) -> &'a [u8] {
    let (_, said) = asked.bytes.split_at(asked.bytes.len().min(word.len() + 1));
    said
}

impl Table for Pieces {
    fn answer(&mut self, alloc: Global, asked: Row, told: &mut String) -> Result<(), AllocError> {
        let (word, _) = split_word(asked.text);
        let bytes = behind(&asked, word);
        match word {
            "cut" => tell_cut(alloc, bytes, told),
            "fronts" => tell_fronts(alloc, bytes, told),
            "kept" => tell_kept(alloc, bytes, told),
            "large" => tell_large(alloc, bytes, told),
            "children" => tell_children(alloc, bytes, told),
            _ => told.push_str("no such row"),
        }
    }
}
