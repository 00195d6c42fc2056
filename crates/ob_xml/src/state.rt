//! The open elements, and what each construct makes of them.

ghost use Rattle.std.specs.Prelude.{◌≡◌, [], ◌∷◌, false, Result, Ok, None, IfOk, IsTrue, reverse};
ghost use Rattle.std.specs.FinSet as set;
ghost use Rattle.ob_object.specs.Fits.{fits_head};
ghost use Rattle.ob_object.specs.Object.{empty_head};
ghost use Rattle.ob_object.specs.WellFormed.{is_taken};
ghost use Rattle.ob_encoding.specs.Kinds.{kind_of};
ghost use Rattle.ob_xml.specs.Outcomes.{Fails, Gives};
ghost use Rattle.ob_xml.specs.Structure.{State as Next};
ghost use Rattle.ob_xml.specs.declared.refused.Why.{Why};
ghost use Rattle.ob_xml.specs.Structure.{bare, closed, end_tag, opened_as, siblings, with_ns, is_twice, kept, told, step_between, step_attribute, step_in_tag, step_behind, step_start, step, beginning, place_of, kind_in, AreFree, IsSound};
ghost use Rattle.ob_xml.specs.Views.{meaning_of, state_of};

use crate::doc::Doc;
use crate::meaning::{Meaning, Said};
use crate::names::Names;
use crate::open::Open;
use crate::refused::Why;
use ob_encoding::{Part, TextField, is_word, read_kind};
use ob_object::{Attributes, Kind, Obj};
use ob_scan::Place;
use ob_values::{Text, ValueFault};
use std::alloc::Global;

/// Levels of elements.
const MAX_DEPTH: usize = 32;

/// The xmlns of the root, and the open elements, the innermost last.
pub struct Outer {
    pub ns: Option<Text>,
    pub elements: Vec<Open>,
}

impl Drop for Outer {
    // By one call for each part, so that to drop it is one call to whoever may have to.
    fn drop(self) {
        let Outer { ns, elements } = self;
        drop(ns);
        drop(elements);
    }
}

impl Outer {
    /// The xmlns of the root alone.
    fn into_ns(self) -> Option<Text>
        ensures { result ≡ self.ns }
    {
        let Outer { ns, elements } = self;
        drop(elements);
        ns
    }
}

/// A start tag: the names of its attributes, and what they say.
pub struct Tag {
    pub names: Names,
    pub head: Attributes,
}

impl Drop for Tag {
    // By one call for each part, so that to drop a tag is one call to whoever may have to.
    fn drop(self) {
        let Tag { names, head } = self;
        drop(names);
        drop(head);
    }
}

impl Tag {
    /// What its attributes say, without their names.
    fn into_head(self) -> Attributes
        ensures { result ≡ self.head }
    {
        let Tag { names, head } = self;
        drop(names);
        head
    }
}

/// What has been read so far. What it holds stands in boxes, so that a state is moved at little cost.
#[derive(Drop)]
pub enum State {
    Start,
    /// Behind EF BB BF.
    Marked,
    /// Between tags.
    Between { outer: Box<Outer> },
    /// In a start tag.
    InTag { tag: Box<Tag>, outer: Box<Outer> },
    Behind { doc: Box<Doc> },
    Whole { doc: Box<Doc> },
}

/// The refusal, after which what was read so far isn't needed.
fn refused<T: Drop>(_read: T, why: Why) -> Result<State, Why>
    ensures exact { (r : Result Next Why) → Fails why r → Gives state_of result r }
    ensures sound { IfOk result (λ s. IsSound (state_of s)) }
{
    Err(why)
}

/// The end of the root element.
fn end_root(alloc: Global, outer: Box<Outer>, root: Obj) -> Result<State, Why>
    ensures exact { Gives state_of result (Ok (Rattle.ob_xml.specs.Structure.behind (record { ns = outer.value.ns; root = root }))) }
    ensures sound { IfOk result (λ s. IsSound (state_of s)) }
{
    let ns = Box::into_inner(outer).into_ns();
    match Box::new(alloc, Doc { ns, root }) {
        Ok(doc) => Ok(State::Behind { doc }),
        Err(failed) => refused(failed, Why::Memory),
    }
}

fn close(alloc: Global, mut outer: Box<Outer>, obj: Obj) -> Result<State, Why>
    requires named { is_taken obj.head.name (siblings (reverse outer.value.elements.items)) ≡ false }
    requires free { AreFree (reverse outer.value.elements.items) }
    ensures exact { Gives state_of result (Ok (closed outer.value.ns obj (reverse outer.value.elements.items))) }
    ensures sound { IfOk result (λ s. IsSound (state_of s)) }
{
    match outer.elements.pop() {
        None => end_root(alloc, outer, obj),
        Some(parent) => match parent.with_child(alloc, obj) {
            Ok(parent) => match outer.elements.push(parent) {
                Ok(()) => Ok(State::Between { outer }),
                Err(failed) => refused((outer, failed), Why::Memory),
            },
            Err(_) => refused(outer, Why::Memory),
        },
    }
}

#[inline(never)]
fn close_named(alloc: Global, mut outer: Box<Outer>, name: &[u8]) -> Result<State, Why>
    requires { AreFree (reverse outer.value.elements.items) }
    ensures exact { Gives state_of result (end_tag outer.value.ns (reverse outer.value.elements.items) name.now) }
    ensures sound { IfOk result (λ s. IsSound (state_of s)) }
{
    match outer.elements.pop() {
        None => refused(outer, Why::Markup),
        Some(open) => match read_kind(name) {
            None => refused((outer, open), Why::Element),
            Some(kind) => {
                if kind.same(open.kind()) {
                    close(alloc, outer, open.into_obj())
                } else {
                    refused((outer, open), Why::Mismatch)
                }
            }
        },
    }
}

/// What an object says whose tag has no attributes yet.
fn new_head(alloc: Global, kind: Kind) -> Attributes
    ensures value { result ≡ empty_head kind }
    ensures fits { IsTrue (fits_head result) }
{
    Attributes::empty(alloc, kind)
}

/// The start of a tag of the kind.
#[inline(never)]
fn begin(alloc: Global, outer: Box<Outer>, kind: Kind) -> Result<State, Why>
    requires { AreFree (reverse outer.value.elements.items) }
    ensures exact { Gives state_of result (Ok (Rattle.ob_xml.specs.Structure.in_tag outer.value.ns set.empty (empty_head kind) (reverse outer.value.elements.items))) }
    ensures sound { IfOk result (λ s. IsSound (state_of s)) }
{
    let tag = Tag {
        names: Names::new(alloc),
        head: new_head(alloc, kind),
    };
    match Box::new(alloc, tag) {
        Ok(tag) => Ok(State::InTag { tag, outer }),
        Err(failed) => refused((outer, failed), Why::Memory),
    }
}

fn open(alloc: Global, outer: Box<Outer>, name: &[u8]) -> Result<State, Why>
    requires { AreFree (reverse outer.value.elements.items) }
    ensures exact { Gives state_of result (opened_as (kind_of name.now) outer.value.ns (reverse outer.value.elements.items)) }
    ensures sound { IfOk result (λ s. IsSound (state_of s)) }
{
    match read_kind(name) {
        None => refused(outer, Why::Element),
        Some(kind) => {
            if outer.elements.len() >= MAX_DEPTH {
                refused(outer, Why::Deep)
            } else {
                begin(alloc, outer, kind)
            }
        }
    }
}

fn between(alloc: Global, outer: Box<Outer>, meaning: Meaning<'_>) -> Result<State, Why>
    requires { AreFree (reverse outer.value.elements.items) }
    ensures exact { Gives state_of result (step_between outer.value.ns (reverse outer.value.elements.items) (meaning_of meaning.entry)) }
    ensures sound { IfOk result (λ s. IsSound (state_of s)) }
{
    match meaning {
        Meaning::Open { name } => open(alloc, outer, name),
        Meaning::Close { name } => close_named(alloc, outer, name),
        Meaning::Skipped => Ok(State::Between { outer }),
        other => refused((outer, other), Why::Markup),
    }
}

/// What a construct makes of a document of which nothing but a mark was read.
fn first(alloc: Global, meaning: Meaning<'_>) -> Result<State, Why>
    ensures exact { Gives state_of result (step_between None [] (meaning_of meaning.entry)) }
    ensures sound { IfOk result (λ s. IsSound (state_of s)) }
{
    let outer = Outer {
        ns: None,
        elements: Vec::new(alloc),
    };
    match Box::new(alloc, outer) {
        Ok(outer) => between(alloc, outer, meaning),
        Err(failed) => refused((failed, meaning), Why::Memory),
    }
}

/// Whether the part is a name that a child of the innermost open element has.
fn is_named_twice(outer: &[Open], part: &Part) -> bool
    ensures { result ≡ is_twice part.now (siblings (reverse outer.now)) }
{
    match (outer.last(), part) {
        (Some(parent), Part::Text(TextField::Name, name)) => parent.has(name.as_str().as_bytes()),
        _ => false,
    }
}

/// Keeps the xmlns of the root, where an attribute that says nothing of an object is one.
fn put_ns(outer: &mut Outer, name: &[u8], text: Text)
    ensures ns { outer.new.ns ≡ with_ns outer.old.ns (reverse outer.old.elements.items) name.now text }
    ensures same { outer.new.elements ≡ outer.old.elements }
{
    if outer.elements.is_empty() && is_word(name, "xmlns") {
        outer.ns = Some(text);
    }
}

/// The state with one attribute more, whose part the head has taken.
fn keep_head(
    alloc: Global,
    mut tag: Box<Tag>,
    outer: Box<Outer>,
    name: &[u8],
    twice: bool,
) -> Result<State, Why>
    requires free { AreFree (reverse outer.value.elements.items) }
    requires named { twice ≡ false → is_taken tag.value.head.name (siblings (reverse outer.value.elements.items)) ≡ false }
    ensures exact { Gives state_of result (kept outer.value.ns (set.insert tag.value.names name.now) tag.value.head (reverse outer.value.elements.items) twice) }
    ensures sound { IfOk result (λ s. IsSound (state_of s)) }
{
    if !tag.head.fits() {
        return refused((tag, outer), Why::Value(ValueFault::NotName));
    }
    if twice {
        return refused((tag, outer), Why::SameName);
    }
    match tag.names.add(alloc, name) {
        Ok(()) => Ok(State::InTag { tag, outer }),
        Err(failed) => refused((tag, outer, failed), Why::Memory),
    }
}

fn keep_part(
    alloc: Global,
    mut tag: Box<Tag>,
    outer: Box<Outer>,
    name: &[u8],
    part: Part,
) -> Result<State, Why>
    requires { IsSound (Rattle.ob_xml.specs.Structure.in_tag outer.value.ns tag.value.names tag.value.head (reverse outer.value.elements.items)) }
    ensures exact { Gives state_of result (told outer.value.ns tag.value.names tag.value.head (reverse outer.value.elements.items) name.now (Ok (Said.Part part))) }
    ensures sound { IfOk result (λ s. IsSound (state_of s)) }
{
    let twice = is_named_twice(&outer.elements, &part);
    match part.put(&mut tag.head) {
        Ok(()) => keep_head(alloc, tag, outer, name, twice),
        Err(_) => refused((tag, outer), Why::Memory),
    }
}

fn keep_other(
    alloc: Global,
    mut tag: Box<Tag>,
    mut outer: Box<Outer>,
    name: &[u8],
    text: Text,
) -> Result<State, Why>
    requires { IsSound (Rattle.ob_xml.specs.Structure.in_tag outer.value.ns tag.value.names tag.value.head (reverse outer.value.elements.items)) }
    ensures exact { Gives state_of result (told outer.value.ns tag.value.names tag.value.head (reverse outer.value.elements.items) name.now (Ok (Said.Other text))) }
    ensures sound { IfOk result (λ s. IsSound (state_of s)) }
{
    put_ns(&mut *outer, name, text);
    match tag.names.add(alloc, name) {
        Ok(()) => Ok(State::InTag { tag, outer }),
        Err(failed) => refused((tag, outer, failed), Why::Memory),
    }
}

fn attribute(
    alloc: Global,
    tag: Box<Tag>,
    outer: Box<Outer>,
    name: &[u8],
    said: Result<Said, ValueFault>,
) -> Result<State, Why>
    requires { IsSound (Rattle.ob_xml.specs.Structure.in_tag outer.value.ns tag.value.names tag.value.head (reverse outer.value.elements.items)) }
    ensures exact { Gives state_of result (step_attribute outer.value.ns tag.value.names tag.value.head (reverse outer.value.elements.items) name.now said) }
    ensures sound { IfOk result (λ s. IsSound (state_of s)) }
{
    if tag.names.has(name) {
        return refused((tag, outer, said), Why::Twice);
    }
    match said {
        Err(fault) => refused((tag, outer), Why::Value(fault)),
        Ok(Said::Other(text)) => keep_other(alloc, tag, outer, name, text),
        Ok(Said::Part(part)) => keep_part(alloc, tag, outer, name, part),
    }
}

/// The end of a start tag: the element is open. Apart, so that a step that ends no tag makes no room for an object.
#[inline(never)]
fn end_start(alloc: Global, tag: Box<Tag>, mut outer: Box<Outer>) -> Result<State, Why>
    requires fits { IsTrue (fits_head tag.value.head) }
    requires named { is_taken tag.value.head.name (siblings (reverse outer.value.elements.items)) ≡ false }
    requires free { AreFree (reverse outer.value.elements.items) }
    ensures exact { Gives state_of result (Ok (Rattle.ob_xml.specs.Structure.between outer.value.ns (bare tag.value.head ∷ reverse outer.value.elements.items))) }
    ensures sound { IfOk result (λ s. IsSound (state_of s)) }
{
    match Open::new(alloc, Box::into_inner(tag).into_head()) {
        Ok(open) => match outer.elements.push(open) {
            Ok(()) => Ok(State::Between { outer }),
            Err(failed) => refused((outer, failed), Why::Memory),
        },
        Err(_) => refused(outer, Why::Memory),
    }
}

/// The end of a tag that is an element by itself.
#[inline(never)]
fn end_empty(alloc: Global, tag: Box<Tag>, outer: Box<Outer>) -> Result<State, Why>
    requires named { is_taken tag.value.head.name (siblings (reverse outer.value.elements.items)) ≡ false }
    requires free { AreFree (reverse outer.value.elements.items) }
    requires fits { IsTrue (fits_head tag.value.head) }
    ensures exact { Gives state_of result (Ok (closed outer.value.ns (bare tag.value.head) (reverse outer.value.elements.items))) }
    ensures sound { IfOk result (λ s. IsSound (state_of s)) }
{
    let head = Box::into_inner(tag).into_head();
    close(alloc, outer, Obj::from_attributes(alloc, head))
}

fn in_tag(
    alloc: Global,
    tag: Box<Tag>,
    outer: Box<Outer>,
    meaning: Meaning<'_>,
) -> Result<State, Why>
    requires { IsSound (Rattle.ob_xml.specs.Structure.in_tag outer.value.ns tag.value.names tag.value.head (reverse outer.value.elements.items)) }
    ensures exact { Gives state_of result (step_in_tag outer.value.ns tag.value.names tag.value.head (reverse outer.value.elements.items) (meaning_of meaning.entry)) }
    ensures sound { IfOk result (λ s. IsSound (state_of s)) }
{
    match meaning {
        Meaning::Attr { name, said } => attribute(alloc, tag, outer, name, said),
        Meaning::TagEnd => end_start(alloc, tag, outer),
        Meaning::EmptyEnd => end_empty(alloc, tag, outer),
        other => refused((tag, outer, other), Why::Markup),
    }
}

fn behind(doc: Box<Doc>, meaning: Meaning<'_>) -> Result<State, Why>
    ensures exact { Gives state_of result (step_behind doc.value (meaning_of meaning.entry)) }
    ensures sound { IfOk result (λ s. IsSound (state_of s)) }
{
    match meaning {
        Meaning::Skipped => Ok(State::Behind { doc }),
        Meaning::End => Ok(State::Whole { doc }),
        other => refused((doc, other), Why::Markup),
    }
}

fn start(alloc: Global, meaning: Meaning<'_>) -> Result<State, Why>
    ensures exact { Gives state_of result (step_start (meaning_of meaning.entry)) }
    ensures sound { IfOk result (λ s. IsSound (state_of s)) }
{
    match meaning {
        Meaning::Mark => Ok(State::Marked),
        _ => first(alloc, meaning),
    }
}

impl State {
    pub fn new() -> State
        ensures { state_of result ≡ beginning }
    {
        State::Start
    }

    /// Where the next construct stands.
    pub fn place(&self) -> Place
        ensures { result ≡ place_of (state_of self.now) }
    {
        match self {
            State::Start => Place::Start,
            State::Marked => Place::Marked,
            State::Between { .. } => Place::Between,
            State::InTag { .. } => Place::InTag,
            State::Behind { .. } | State::Whole { .. } => Place::After,
        }
    }

    /// The kind of the tag; outside tags it is of no account.
    pub fn kind(&self) -> Kind
        ensures { result ≡ kind_in (state_of self.now) }
    {
        match self {
            State::InTag { tag, .. } => tag.head.kind(),
            _ => Kind::Obj,
        }
    }

    /// What a construct makes of it.
    pub fn step(self, alloc: Global, meaning: Meaning<'_>) -> Result<State, Why>
        requires { IsSound (state_of self) }
        ensures exact { Gives state_of result (step (state_of self) (meaning_of meaning.entry)) }
        ensures sound { IfOk result (λ s. IsSound (state_of s)) }
    {
        match self {
            State::Start => start(alloc, meaning),
            State::Marked => first(alloc, meaning),
            State::Between { outer } => between(alloc, outer, meaning),
            State::InTag { tag, outer } => in_tag(alloc, tag, outer, meaning),
            State::Behind { doc } => behind(doc, meaning),
            State::Whole { doc } => refused((doc, meaning), Why::Markup),
        }
    }
}
