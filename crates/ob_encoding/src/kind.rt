//! The kinds of objects by their names.

ghost use Rattle.std.specs.Prelude.{◌≡◌};
ghost use Rattle.ob_encoding.specs.Kinds.{same, plain_kind, timed_kind, kind_of};

use ob_object::Kind;

/// Whether these bytes are the word.
pub fn is_word(name: &[u8], word: &str) -> bool
    ensures { result ≡ same name.now word.now }
{
    name == word.as_bytes()
}

fn read_plain_kind(name: &[u8]) -> Option<Kind>
    ensures { result ≡ plain_kind name.now }
{
    if is_word(name, "obj") {
        return Some(Kind::Obj);
    }
    if is_word(name, "bool") {
        return Some(Kind::Bool);
    }
    if is_word(name, "int") {
        return Some(Kind::Int);
    }
    if is_word(name, "real") {
        return Some(Kind::Real);
    }
    if is_word(name, "str") {
        return Some(Kind::Str);
    }
    if is_word(name, "enum") {
        return Some(Kind::Enum);
    }
    if is_word(name, "uri") {
        return Some(Kind::Uri);
    }
    None
}

fn read_timed_kind(name: &[u8]) -> Option<Kind>
    ensures { result ≡ timed_kind name.now }
{
    if is_word(name, "abstime") {
        return Some(Kind::Abstime);
    }
    if is_word(name, "reltime") {
        return Some(Kind::Reltime);
    }
    if is_word(name, "date") {
        return Some(Kind::Date);
    }
    if is_word(name, "time") {
        return Some(Kind::Time);
    }
    if is_word(name, "list") {
        return Some(Kind::List);
    }
    if is_word(name, "op") {
        return Some(Kind::Op);
    }
    if is_word(name, "feed") {
        return Some(Kind::Feed);
    }
    if is_word(name, "ref") {
        return Some(Kind::Ref);
    }
    if is_word(name, "err") {
        return Some(Kind::Err);
    }
    None
}

/// The kind whose elements have this name, one of the sixteen in lower case.
/// Source: oBIX 1.1, chapter 4.
#[tactic(auto, unfolding(crate::specs::Kinds::kind_of))]
pub fn read_kind(name: &[u8]) -> Option<Kind>
    ensures { result ≡ kind_of name.now }
{
    match read_plain_kind(name) {
        Some(kind) => Some(kind),
        None => read_timed_kind(name),
    }
}
