//! Calls that may answer want of memory, each with ample memory.
use crate::contracts::standard;
use ob_contracts::Library;
use ob_documents::read;
use ob_encoding::{Part, PartFault, encode, read_known, read_part, read_words, write};
use ob_object::{Kind, Words};
use ob_rows::{Row, Table, push_number, push_words, text_of};
use ob_scan::{RawFault, expand, plain};
use ob_values::{Text, Value};
use ob_xml::Doc;
use std::alloc::{AllocError, Global};

/// `expand VALUE`, `string TEXT`, `words TEXT`, `precision TEXT` and `document TEXT` read what they say, `behind TEXT` is a
/// document that is written behind `ab`, and other rows are questions.
#[derive(Drop)]
pub(crate) struct Calls;

fn tell_expanded(told: &mut String, expanded: &Result<Text, RawFault>) -> Result<(), AllocError> {
    match expanded {
        Ok(text) => told.push_str(text.as_str()),
        Err(RawFault::Markup { at }) => {
            told.push_str("Markup at ")?;
            push_number(told, *at as u64)
        }
        Err(RawFault::Memory) => Err(AllocError),
    }
}

fn tell_string(alloc: Global, raw: &[u8], told: &mut String) -> Result<(), AllocError> {
    let Some(plain) = plain(raw) else {
        return told.push_str("not plain");
    };
    let text = Text::from_string(String::from_str(alloc, plain)?)?;
    told.push_str(text.as_str())
}

fn tell_words(words: &Words, told: &mut String) -> Result<(), AllocError> {
    for word in words.as_slice() {
        push_words(told, &[word.as_str(), ";"])?;
    }
    Ok(())
}

fn tell_read_words(alloc: Global, text: &[u8], told: &mut String) -> Result<(), AllocError> {
    let Ok(text) = Text::from_utf8(alloc, text) else {
        return told.push_str("no text");
    };
    let words = read_words(alloc, &text)?;
    tell_words(&words, told)
}

fn tell_part(part: &Result<Part, PartFault>, told: &mut String) -> Result<(), AllocError> {
    match part {
        Ok(Part::Precision(2)) => told.push_str("2"),
        Ok(_) => told.push_str("another part"),
        Err(PartFault::Value(_)) => told.push_str("Value"),
        Err(PartFault::Memory) => Err(AllocError),
    }
}

// What the text says as the precision of an int.
fn tell_precision(alloc: Global, text: &[u8], told: &mut String) -> Result<(), AllocError> {
    let Ok(text) = Text::from_utf8(alloc, text) else {
        return told.push_str("no text");
    };
    match read_known(Kind::Int, b"precision") {
        Some(field) => tell_part(&read_part(alloc, Kind::Int, field, text), told),
        None => told.push_str("no such attribute"),
    }
}

fn tell_encoded(alloc: Global, doc: &Doc, told: &mut String) -> Result<(), AllocError> {
    let bytes = encode(alloc, doc.ns.as_ref(), &doc.root)?;
    told.push_str(text_of(bytes.as_slice()))
}

fn tell_behind(alloc: Global, doc: &Doc, told: &mut String) -> Result<(), AllocError> {
    let mut bytes = Vec::from_slice(alloc, b"ab")?;
    write(doc.ns.as_ref(), &doc.root, &mut bytes)?;
    told.push_str(text_of(bytes.as_slice()))
}

// Tells of a document, as it is encoded, or as it is written behind other bytes.
fn tell_document(
    alloc: Global,
    text: &[u8],
    is_behind: bool,
    told: &mut String,
) -> Result<(), AllocError> {
    match &read(alloc, text) {
        Ok(doc) if is_behind => tell_behind(alloc, doc, told),
        Ok(doc) => tell_encoded(alloc, doc, told),
        Err(_) => told.push_str("refused"),
    }
}

// Whether the copy has the words of the library, and no other.
fn has_words(copy: &Library, library: &Library) -> bool {
    copy.contracts().len() == library.contracts().len()
        && library
            .contracts()
            .iter()
            .all(|(word, _)| copy.get(word.as_str()).is_some())
}

// Whether the library of the specification's contracts is copied.
fn copies_library(alloc: Global) -> bool {
    let Ok(library) = standard(alloc) else {
        return false;
    };
    match &library.copy() {
        Ok(copy) => has_words(copy, &library),
        Err(_) => false,
    }
}

// Whether a text is copied, and followed by another.
fn keeps(alloc: Global, text: &Text) -> bool {
    match (&text.copy(), &text.followed_by(alloc, "/1")) {
        (Ok(copy), Ok(more)) => copy.is("a\tü€") && more.is("a\tü€/1"),
        _ => false,
    }
}

fn copies_value(value: &Value) -> bool {
    match &value.copy() {
        Ok(copy) => copy.same(value),
        Err(_) => false,
    }
}

// Whether a str and an enum of that text are told apart, and neither from its copy.
fn tells_apart(string: &Value, word: &Value) -> bool {
    copies_value(string) && copies_value(word) && !string.same(word)
}

fn text(alloc: Global) -> Text {
    Text::from_utf8(alloc, "a\tü€".as_bytes()).unwrap_or(Text::empty())
}

fn is_so(alloc: Global, question: &str) -> bool {
    match question {
        "is a library copied" => copies_library(alloc),
        "is a text copied, and followed by another" => keeps(alloc, &text(alloc)),
        "are a str and an enum told apart" => {
            tells_apart(&Value::Str(text(alloc)), &Value::Enum(text(alloc)))
        }
        "are an enum and a uri told apart" => {
            tells_apart(&Value::Enum(text(alloc)), &Value::Uri(text(alloc)))
        }
        _ => false,
    }
}

impl Table for Calls {
    fn answer(&mut self, alloc: Global, asked: Row, told: &mut String) -> Result<(), AllocError> {
        let (what, _) = asked.text.split_once(' ').unwrap_or((asked.text, ""));
        let place = what.len().saturating_add(1);
        let (_, bytes) = asked.bytes.split_at_checked(place).unwrap_or((b"", b""));
        match what {
            "expand" => tell_expanded(told, &expand(alloc, bytes)),
            "string" => tell_string(alloc, bytes, told),
            "words" => tell_read_words(alloc, bytes, told),
            "precision" => tell_precision(alloc, bytes, told),
            "document" => tell_document(alloc, bytes, false, told),
            "behind" => tell_document(alloc, bytes, true, told),
            _ if is_so(alloc, asked.text) => told.push_str("yes"),
            _ => told.push_str("no"),
        }
    }
}
