//! The attributes of objects, by their names.

ghost use Rattle.std.specs.Prelude.{◌≡◌, IfSome, true};
ghost use Rattle.ob_encoding.specs.Fields.{text_field, words_field, value_field, field_of, applies, known};

use crate::kind::is_word;
use ob_object::Kind;

/// An attribute that is kept as a text.
#[derive(Clone, Copy, PartialEq, Eq)]
pub enum TextField {
    Name,
    Href,
    Display,
    DisplayName,
    Icon,
    Range,
    Tz,
    Unit,
}

/// An attribute that is a list of words.
#[derive(Clone, Copy, PartialEq, Eq)]
pub enum WordsField {
    Is,
    Of,
    In,
    Out,
}

/// An attribute that is read as a value.
#[derive(Clone, Copy, PartialEq, Eq)]
pub enum ValueField {
    Null,
    Val,
    Max,
    Min,
    Precision,
    Status,
    Writable,
}

/// An attribute that is kept.
#[derive(Clone, Copy, PartialEq, Eq)]
pub enum Field {
    Text(TextField),
    Words(WordsField),
    Value(ValueField),
}

fn read_text_field(name: &[u8]) -> Option<TextField>
    ensures { result ≡ text_field name.now }
{
    if is_word(name, "name") {
        return Some(TextField::Name);
    }
    if is_word(name, "href") {
        return Some(TextField::Href);
    }
    if is_word(name, "display") {
        return Some(TextField::Display);
    }
    if is_word(name, "displayName") {
        return Some(TextField::DisplayName);
    }
    if is_word(name, "icon") {
        return Some(TextField::Icon);
    }
    if is_word(name, "range") {
        return Some(TextField::Range);
    }
    if is_word(name, "tz") {
        return Some(TextField::Tz);
    }
    if is_word(name, "unit") {
        return Some(TextField::Unit);
    }
    None
}

fn read_words_field(name: &[u8]) -> Option<WordsField>
    ensures { result ≡ words_field name.now }
{
    if is_word(name, "is") {
        return Some(WordsField::Is);
    }
    if is_word(name, "of") {
        return Some(WordsField::Of);
    }
    if is_word(name, "in") {
        return Some(WordsField::In);
    }
    if is_word(name, "out") {
        return Some(WordsField::Out);
    }
    None
}

fn read_value_field(name: &[u8]) -> Option<ValueField>
    ensures { result ≡ value_field name.now }
{
    if is_word(name, "null") {
        return Some(ValueField::Null);
    }
    if is_word(name, "val") {
        return Some(ValueField::Val);
    }
    if is_word(name, "max") {
        return Some(ValueField::Max);
    }
    if is_word(name, "min") {
        return Some(ValueField::Min);
    }
    if is_word(name, "precision") {
        return Some(ValueField::Precision);
    }
    if is_word(name, "status") {
        return Some(ValueField::Status);
    }
    if is_word(name, "writable") {
        return Some(ValueField::Writable);
    }
    None
}

#[tactic(auto, unfolding(crate::specs::Fields::field_of))]
fn read_field(name: &[u8]) -> Option<Field>
    ensures { result ≡ field_of name.now }
{
    if let Some(field) = read_text_field(name) {
        return Some(Field::Text(field));
    }
    if let Some(field) = read_words_field(name) {
        return Some(Field::Words(field));
    }
    if let Some(field) = read_value_field(name) {
        return Some(Field::Value(field));
    }
    None
}

/// Whether the values of the kind, or their lengths, are bounded by a least and a greatest.
fn has_limit(kind: Kind) -> bool
    ensures { result ≡ Rattle.ob_encoding.specs.Fields.has_limit kind }
{
    matches!(
        kind,
        Kind::Int
            | Kind::Real
            | Kind::Str
            | Kind::Abstime
            | Kind::Reltime
            | Kind::Date
            | Kind::Time
            | Kind::List
    )
}

/// Whether objects of the kind have the attribute.
fn kind_has(kind: Kind, field: Field) -> bool
    ensures { result ≡ applies kind field }
{
    match field {
        Field::Text(_) => true,
        Field::Words(WordsField::Is) => true,
        Field::Words(WordsField::Of) => kind.has_of(),
        Field::Words(WordsField::In) => kind.has_input(),
        Field::Words(WordsField::Out) => kind.has_output(),
        Field::Value(ValueField::Val) => kind.has_values(),
        Field::Value(ValueField::Max) => has_limit(kind),
        Field::Value(ValueField::Min) => has_limit(kind),
        Field::Value(_) => true,
    }
}

/// The attribute of this name, if objects of the kind have it.
/// Source: oBIX 1.1, chapter 4.
pub fn read_known(kind: Kind, name: &[u8]) -> Option<Field>
    ensures { result ≡ known kind name.now }
{
    match read_field(name) {
        None => None,
        Some(field) => {
            if kind_has(kind, field) {
                Some(field)
            } else {
                None
            }
        }
    }
}
