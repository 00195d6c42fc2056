//! Objects: what the calls that make and change them answer, and trees as large as a document may make them.
use ob_encoding::encode;
use ob_object::{Attributes, Facets, Kind, Obj, PushFault, Slot, Words, WriteFault, check_write};
use ob_rows::{Row, Table, push_number};
use ob_values::{Text, Value};
use std::alloc::{AllocError, Global};

/// `word WORD` is put among words, `write KIND MIN MAX RANGE VALUE` is a write that is checked, `deep LEVELS` and
/// `wide CHILDREN` tell the number of bytes of a tree's text, `tree` that of a large tree's parts, and other rows are questions.
#[derive(Drop)]
pub(crate) struct Objects;

fn named(alloc: Global, kind: Kind, name: &str) -> Obj {
    let mut object = Obj::new(alloc, kind);
    let _ = object.put_name(Text::from_utf8(alloc, name.as_bytes()).ok());
    object
}

// Whether an object refuses a child for its name.
fn is_refused(object: &mut Obj, child: Obj) -> bool {
    matches!(&object.push(child), Err(PushFault::SameName { child: _ }))
}

// An object with a child `x` and two that have no name, where it refuses another child `x`.
fn with_three(alloc: Global) -> Obj {
    let mut object = Obj::new(alloc, Kind::Obj);
    let _ = object.push(named(alloc, Kind::Int, "x"));
    if is_refused(&mut object, named(alloc, Kind::Str, "x")) {
        let _ = object.push(Obj::new(alloc, Kind::Obj));
        let _ = object.push(Obj::new(alloc, Kind::Obj));
    }
    object
}

// Whether it has the children that were taken, and what is asked of them is so.
fn has_three(object: &Obj) -> bool {
    object.parts() == 4
        && object.child("x").is_some()
        && object.child("y").is_none()
        && object.at(3).is_none()
}

fn is_copied(object: &Obj) -> bool {
    match &object.copy() {
        Ok(copy) => copy.same(object),
        Err(_) => false,
    }
}

// Whether an object without its children is no more the same as it was.
fn loses_three(object: &mut Obj) -> bool {
    let Ok(copy) = object.copy() else {
        return false;
    };
    let children = object.take_children();
    children.len() == 3 && !copy.same(object)
}

// An object with a copy of another one's head as its child, made in the object's place.
fn with_leaf(alloc: Global, of: &Obj) -> Obj {
    let mut object = Obj::new(alloc, Kind::Obj);
    let head = of.head();
    if object.reserve(1).is_ok() {
        let _ = object.push_leaf(head, head.slot());
    }
    object
}

// Whether it is an int `count` of 5 with that href, or with none.
fn is_five(count: &Attributes, has_href: bool) -> bool {
    let is_named = match count.name() {
        Some(name) => name.as_str() == "count",
        None => false,
    };
    is_named
        && count.href().is_some() == has_href
        && matches!(count.slot(), Slot::Is(Value::Int(5)))
        && matches!(count.precision(), Some(2))
}

fn five(alloc: Global) -> Obj {
    let mut count = named(alloc, Kind::Int, "count");
    count.put_href(Text::from_ascii(alloc, "/count").ok());
    let _ = count.put_slot(Slot::Is(Value::Int(5)));
    let mut facets = Facets::none();
    facets.precision = Some(2);
    let _ = count.put_facets(facets);
    count
}

// Whether the leaf that a head makes has no href.
fn is_leaf(object: &Obj) -> bool {
    match object.at(0) {
        Some(leaf) => is_five(leaf.head(), false),
        None => false,
    }
}

fn copies_head(head: &Attributes) -> bool {
    match &head.copy() {
        Ok(copy) => is_five(copy, true),
        Err(_) => false,
    }
}

fn copies_head_with(head: &Attributes) -> bool {
    match &head.copy_with(head.slot()) {
        Ok(copy) => is_five(copy, false),
        Err(_) => false,
    }
}

fn copies_slot(slot: &Slot) -> bool {
    match &slot.copy() {
        Ok(copy) => matches!(copy, Slot::Is(Value::Int(5))),
        Err(_) => false,
    }
}

// An object with so many nameless children.
fn wide(alloc: Global, children: u64) -> Obj {
    let mut object = Obj::new(alloc, Kind::List);
    for _ in 0..children {
        let _ = object.push(Obj::new(alloc, Kind::Int));
    }
    object
}

// A tree of 31 levels.
fn deep_and_wide(alloc: Global) -> Obj {
    let mut tree = wide(alloc, 6_451);
    for _ in 0..30 {
        let mut above = wide(alloc, 6_450);
        let _ = above.push(tree);
        tree = above;
    }
    tree
}

// What a write comes to at those limits.
fn outcome(limits: &str, value: &Value) -> Result<(), WriteFault> {
    let (five, seven) = (Value::Int(5), Value::Int(7));
    match limits {
        "write int 5 7 in" => check_write(Kind::Int, Some(&five), Some(&seven), value, true),
        "write str 5 5 in" => check_write(Kind::Str, Some(&five), Some(&five), value, true),
        "write str 7 - out" => check_write(Kind::Str, Some(&seven), None, value, false),
        _ => check_write(Kind::Str, None, None, value, false),
    }
}

fn tell_write(alloc: Global, row: &str, told: &mut String) -> Result<(), AllocError> {
    let (limits, written) = row.rsplit_once(' ').unwrap_or((row, ""));
    let value = match written.parse::<i64>() {
        Ok(number) => Value::Int(number),
        Err(_) => Value::Str(Text::from_utf8(alloc, written.as_bytes()).unwrap_or(Text::empty())),
    };
    told.push_str(match outcome(limits, &value) {
        Ok(()) => "done",
        Err(WriteFault::WrongKind) => "WrongKind",
        Err(WriteFault::Long) => "Long",
        Err(WriteFault::Below) => "Below",
        Err(WriteFault::Above) => "Above",
        Err(WriteFault::NotInRange) => "NotInRange",
    })
}

// Whether words take a word, and are copied with it.
fn takes_word(alloc: Global, word: &str) -> bool {
    let mut words = Words::new(alloc);
    let Ok(word) = Text::from_utf8(alloc, word.as_bytes()) else {
        return false;
    };
    let is_taken = words.push(word).is_ok();
    is_taken && copies_words(&words)
}

// Whether words are copied.
fn copies_words(words: &Words) -> bool {
    match &words.copy() {
        Ok(copy) => copy.as_slice().len() == 1,
        Err(_) => false,
    }
}

fn deep(alloc: Global, levels: u64) -> Obj {
    let mut object = Obj::new(alloc, Kind::Obj);
    for _ in 0..levels {
        let mut above = Obj::new(alloc, Kind::Obj);
        let _ = above.push(object);
        object = above;
    }
    object
}

fn tell_length(alloc: Global, object: &Obj, told: &mut String) -> Result<(), AllocError> {
    let bytes = encode(alloc, None, object)?;
    push_number(told, bytes.len() as u64)
}

// What is so of an object with three children.
fn is_so_of_three(object: &mut Obj, question: &str) -> bool {
    match question {
        "do siblings have different names" => has_three(object),
        "is an object the same as its copy" => is_copied(object),
        "is an object another one without its children" => loses_three(object),
        _ => false,
    }
}

// What is so of an int of 5.
fn is_so_of_five(alloc: Global, count: &Obj, question: &str) -> bool {
    match question {
        "has a leaf no href" => is_leaf(&with_leaf(alloc, count)),
        "has the copy of a head its href" => copies_head(count.head()),
        "has the copy of a head with a slot no href" => copies_head_with(count.head()),
        "is a slot copied" => copies_slot(count.slot()),
        _ => false,
    }
}

fn tell_parts(object: &Obj, told: &mut String) -> Result<(), AllocError> {
    if !is_copied(object) {
        told.push_str("not copied: ")?;
    }
    push_number(told, object.parts())
}

impl Table for Objects {
    fn answer(&mut self, alloc: Global, asked: Row, told: &mut String) -> Result<(), AllocError> {
        let (what, rest) = asked.text.split_once(' ').unwrap_or((asked.text, ""));
        let count = rest.parse().unwrap_or(0);
        match what {
            "word" if takes_word(alloc, rest) => told.push_str("taken"),
            "word" => told.push_str("refused"),
            "write" => tell_write(alloc, asked.text, told),
            "deep" => tell_length(alloc, &deep(alloc, count), told),
            "wide" => tell_length(alloc, &wide(alloc, count), told),
            "tree" => tell_parts(&deep_and_wide(alloc), told),
            _ if is_so_of_five(alloc, &five(alloc), asked.text) => told.push_str("yes"),
            _ if is_so_of_three(&mut with_three(alloc), asked.text) => told.push_str("yes"),
            _ => told.push_str("no"),
        }
    }
}
