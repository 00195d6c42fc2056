//! Contracts: what an object shows of its contracts, what a library refuses, and what an object is.
ghost use Rattle.std.specs.Prelude.{◌≡◌, ◌<◌};

use crate::spelled::{object, push_object};
use crate::views::shows;
use ob_contracts::{LibFault, Library, Steps, effective, view};
use ob_object::{Kind, Obj, Words};
use ob_rows::{Row, Table, split_bar, split_word};
use ob_values::Text;
use std::alloc::{AllocError, Global};
use std::marker::Brand;
use std::sync::ledger::{Blank, Ledger};

/// Rows that a library answers, which begins as the standard one:
///
/// `standard PLACE`: the contract at a place, effective; `add WORD OBJECT`: what it comes to that a contract is added;
/// `wide WORD COUNT`: the same of an obj with so many ints; `parts WORD`: how many objects a contract has;
/// `object OBJECT`: the object, effective; `item WORDS|OVERRIDDEN|OBJECT`: the same of an item of a list of these
/// words, which overrides a child; `is WORD WORDS`: whether what has the words is one; `empty`: no contracts from
/// here on; `copy`: a copy of the library from here on; both tell how many contracts there are.
#[derive(Drop)]
pub(crate) struct Contracts {
    library: Library,
}

// The words of a text.
fn words(alloc: Global, said: &str) -> Result<Words, AllocError> {
    let mut words = Words::new(alloc);
    for word in said.split_whitespace() {
        if let Ok(word) = Text::from_utf8(alloc, word.as_bytes()) {
            let _ = words.push(word);
        }
    }
    Ok(words)
}

// Tells the effective object of an object, and whether its view shows something else.
fn tell_counted<L: Ledger>(
    alloc: Global,
    library: &Library,
    of: (&Obj, Option<&Words>, Option<&Obj>),
    told: &mut String,
    blank: Blank,
) -> Result<(), AllocError>
    requires name { blank.name ≡ L.name }
    requires parts { blank.parts ≡ L.parts }
    requires cut { 0 < blank.parts }
{
    let (object, implied, over) = of;
    let mut steps = Steps::<L>::begin(blank);
    let made = effective(alloc, library, object.copy()?, implied, over, &mut steps)?;
    push_object(alloc, None, &made, told)?;
    if !shows(&view(library, object, implied, over, &mut steps), &made) {
        told.push_str(" and its view shows something else")?;
    }
    Ok(())
}

// The same, by a counter of its own.
fn tell_effective(
    alloc: Global,
    library: &Library,
    of: (&Obj, Option<&Words>, Option<&Obj>),
    told: &mut String,
) -> Result<(), AllocError> {
    tell_counted::<Brand>(alloc, library, of, told, Blank::new(1))
}

// Tells the word and the effective object of a contract.
fn tell_contract(
    alloc: Global,
    library: &Library,
    place: &str,
    told: &mut String,
) -> Result<(), AllocError> {
    let place = place.parse::<usize>().unwrap_or(usize::MAX);
    match library.contracts().get(place) {
        Some((word, contract)) => {
            told.push_str(word.as_str())?;
            told.push_str(" ")?;
            tell_effective(alloc, library, (contract, None, None), told)
        }
        None => told.push_str("none"),
    }
}

// Tells the effective object of a text.
fn tell_object(
    alloc: Global,
    library: &Library,
    said: &str,
    told: &mut String,
) -> Result<(), AllocError> {
    match object(alloc, said) {
        Some(object) => tell_effective(alloc, library, (&object, None, None), told),
        None => told.push_str("no object"),
    }
}

// Tells the effective object of an item.
fn tell_item(
    alloc: Global,
    library: &Library,
    said: &str,
    told: &mut String,
) -> Result<(), AllocError> {
    let (implied, said) = split_bar(said);
    let (over, said) = split_bar(said);
    let implied = words(alloc, implied)?;
    let over = object(alloc, over);
    match object(alloc, said) {
        Some(item) => {
            let of = (&item, Some(&implied), over.as_ref());
            tell_effective(alloc, library, of, told)
        }
        None => told.push_str("no object"),
    }
}

// Adds a contract by a counter of its own.
fn add_counted<L: Ledger>(
    library: &mut Library,
    word: Text,
    contract: Obj,
    blank: Blank,
) -> Result<(), LibFault>
    requires name { blank.name ≡ L.name }
    requires parts { blank.parts ≡ L.parts }
    requires cut { 0 < blank.parts }
{
    let mut steps = Steps::<L>::begin(blank);
    library.add(word, contract, &mut steps)
}

// What it comes to that a contract is added.
fn add(alloc: Global, library: &mut Library, word: &str, contract: Obj) -> &'static str {
    let Ok(word) = Text::from_utf8(alloc, word.as_bytes()) else {
        return "no word";
    };
    match add_counted::<Brand>(library, word, contract, Blank::new(1)) {
        Ok(()) => "added",
        Err(LibFault::Twice { uri: _ }) => "Twice",
        Err(LibFault::Later { uri: _ }) => "Later",
        Err(LibFault::Large { uri: _ }) => "Large",
        Err(LibFault::Memory) => "Memory",
    }
}

// What it comes to that the contract of a text is added.
fn add_said(alloc: Global, library: &mut Library, said: &str) -> &'static str {
    let (word, said) = split_word(said);
    match object(alloc, said) {
        Some(contract) => add(alloc, library, word, contract),
        None => "no object",
    }
}

// An int of a name.
fn named(alloc: Global, name: &str) -> Obj {
    let mut child = Obj::new(alloc, Kind::Int);
    let _ = child.put_name(Text::from_utf8(alloc, name.as_bytes()).ok());
    child
}

// An obj with so many named children.
fn wide(alloc: Global, children: u32) -> Result<Obj, AllocError> {
    let mut object = Obj::new(alloc, Kind::Obj);
    for number in 0..children {
        let name = format!(in alloc; "c{number}")?;
        let _ = object.push(named(alloc, name.as_str()));
    }
    Ok(object)
}

// Tells what it comes to that a contract with so many children is added.
fn tell_wide(
    alloc: Global,
    library: &mut Library,
    said: &str,
    told: &mut String,
) -> Result<(), AllocError> {
    let (word, count) = split_word(said);
    let contract = wide(alloc, count.parse::<u32>().unwrap_or(0))?;
    told.push_str(add(alloc, library, word, contract))
}

// Tells whether what has words is one of a word.
fn tell_is(
    alloc: Global,
    library: &Library,
    said: &str,
    told: &mut String,
) -> Result<(), AllocError> {
    let (word, has) = split_word(said);
    let has = words(alloc, has)?;
    let is = library.is_a(&has, word)?;
    told.push_str(if is { "yes" } else { "no" })
}

// Tells how many objects a contract has.
fn tell_parts(library: &Library, word: &str, told: &mut String) -> Result<(), AllocError> {
    match library.get(word) {
        Some(contract) => {
            let parts = contract.parts();
            write!(told, "{parts}")
        }
        None => told.push_str("none"),
    }
}

fn standard_counted<L: Ledger>(alloc: Global, blank: Blank) -> Result<Library, AllocError>
    requires name { blank.name ≡ L.name }
    requires parts { blank.parts ≡ L.parts }
    requires cut { 0 < blank.parts }
{
    let mut steps = Steps::<L>::begin(blank);
    Library::standard(alloc, &mut steps)
}

/// The library of the specification's contracts, by a counter of its own.
///
/// `AllocError` for want of memory.
pub(crate) fn standard(alloc: Global) -> Result<Library, AllocError> {
    standard_counted::<Brand>(alloc, Blank::new(1))
}

impl Contracts {
    /// The standard contracts.
    ///
    /// `AllocError` for want of memory.
    pub(crate) fn new(alloc: Global) -> Result<Contracts, AllocError> {
        let library = standard(alloc)?;
        Ok(Contracts { library })
    }

    // Goes on with another library, and tells how many contracts it has.
    fn go_on(&mut self, library: Library, told: &mut String) -> Result<(), AllocError> {
        self.library = library;
        let count = self.library.contracts().len();
        write!(told, "{count}")
    }

    // Goes on with a copy.
    fn go_on_copied(&mut self, told: &mut String) -> Result<(), AllocError> {
        let copy = self.library.copy()?;
        self.go_on(copy, told)
    }
}

impl Table for Contracts {
    fn answer(&mut self, alloc: Global, asked: Row, told: &mut String) -> Result<(), AllocError> {
        let (word, said) = split_word(asked.text);
        match word {
            "standard" => tell_contract(alloc, &self.library, said, told),
            "object" => tell_object(alloc, &self.library, said, told),
            "item" => tell_item(alloc, &self.library, said, told),
            "parts" => tell_parts(&self.library, said, told),
            "is" => tell_is(alloc, &self.library, said, told),
            "add" => told.push_str(add_said(alloc, &mut self.library, said)),
            "wide" => tell_wide(alloc, &mut self.library, said, told),
            "empty" => self.go_on(Library::new(alloc), told),
            "copy" => self.go_on_copied(told),
            _ => told.push_str("no such row"),
        }
    }
}
