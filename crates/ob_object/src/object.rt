//! Objects as trees.
ghost use Rattle.std.specs.Prelude.{◌≡◌, ◌↔◌, ◌<◌, ◌^◌, ◌-◌, min, None, true, false, length, IsTrue, IfOk, OnOk, OnErr, MatchResult, option_map, slice_get};
ghost use Rattle.std.specs.Option.{option_copied};
ghost use Rattle.ob_object.specs.Completed.{completed};
ghost use Rattle.ob_object.specs.Fits.{fits_name, fits_slot, fits_facets, fits_head};
ghost use Rattle.ob_object.specs.Kinds.{has_of, has_input, has_output};
ghost use Rattle.ob_object.specs.Object.{Object, none, children, parts, in_row, empty_head};
ghost use Rattle.ob_object.specs.Pushed.{IsPushed, IsUnput};
ghost use Rattle.ob_object.specs.Kept.{facets_lent};
ghost use Rattle.ob_object.specs.WellFormed.{IsWellFormed, RowIsWellFormed, named, is_taken, has_name, NamesDiffer, with_child};

use crate::attributes::Attributes;
use crate::facet::Facets;
use crate::head::{Head, Slot, fits_limits, fits_name, fits_slot, know_words};
use crate::kind::Kind;
use crate::lent::LentFacets;
use crate::same::same_head;
use crate::status::Status;
use crate::words::Words;
use ob_values::Text;
use std::alloc::{AllocError, Global};
use std::fmt::{self, Debug, Formatter, Write};
use std::marker::Model;
use thiserror::Error;

/// An object: its head and its children, in order.
/// Source: oBIX 1.1, chapter 4.
pub struct Obj {
    head: Attributes,
    children: Vec<Obj>,
}

impl Drop for Obj {
    // By one call for each part, as a head.
    fn drop(self) {
        let Obj { head, children } = self;
        drop(head);
        drop(children);
    }
}

impl Model for Obj {
    ghost use Rattle.ob_object.specs.Object.{Object, object_code, in_row, parts, most-parts};
    ghost use Rattle.ob_object.specs.WellFormed.{IsWellFormed};
    ghost use Rattle.ob_object.specs.contracts.head.Head.{the_row};
    ghost use Rattle.std.proofs.Common.{arith};

    ghost Value = { Object };

    ghost coded = { object_code the_row.coded };

    ghost view = { λ a. record { head = a.head; inner = in_row a.children.items } };

    ghost invariant = { λ a. IsWellFormed (record { head = a.head; inner = in_row a.children.items }) };

    ghost size = { parts };

    ghost size_decreases = { λ a h. Prim.omega (arith, most-parts a.children.items) };
}

/// Why a child was not taken.
#[derive(Drop, Error)]
pub enum PushFault {
    /// A child has its name.
    #[error("SameName")]
    SameName { child: Obj },
    /// There was no memory for one child more.
    #[error("Memory")]
    Memory { child: Obj },
}

/// The cause alone, since an object has no words of its own.
impl Debug for PushFault {
    fn fmt<W: Write>(&self, f: &mut Formatter<W>) -> fmt::Result {
        match self {
            PushFault::SameName { .. } => f.write_str("SameName"),
            PushFault::Memory { .. } => f.write_str("Memory"),
        }
    }
}

/// The object at a place, the first being 0.
#[tactic(auto, using(std::proofs::lemmas::Option::gets))]
pub fn object_at(objects: &[Obj], place: usize) -> Option<&Obj>
    ensures { option_copied result ≡ slice_get objects.now place }
{
    if place < objects.len() {
        Some(&objects[place])
    } else {
        None
    }
}

/// The first object of a name.
pub fn find_named<'a>(objects: &'a [Obj], name: &str) -> Option<&'a Obj>
    ensures { option_copied result ≡ named name.now objects.now }
{
    objects.iter().find(|object| object.is_named(name))
}

// Whether an object has that name, if it is one.
fn is_taken(objects: &[Obj], name: Option<&Text>) -> bool
    ensures { result ≡ is_taken (option_copied name.entry) objects.now }
{
    match name {
        Some(name) => find_named(objects, name.as_str()).is_some(),
        None => false,
    }
}

// Says of objects that they are well formed.
fn know_row(objects: &[Obj])
    ensures { RowIsWellFormed (in_row objects.now) }
{
    for object in objects {
        let _head = object.head();
    }
}

/// Why a part was not taken.
#[derive(Drop)]
pub enum PutFault<T: Drop> {
    /// It doesn't fit the kind.
    Unfit { part: T },
    /// There was no memory for it.
    Memory { part: T },
}

#[tactic(auto, using(crate::proofs::Rows::rows))]
impl Obj {
    /// An object of attributes that fit its kind, and no children.
    pub fn from_attributes(alloc: Global, head: Attributes) -> Obj
        requires { IsTrue (fits_head head) }
        ensures { result ≡ record { head = head; inner = none } }
    {
        Obj {
            head,
            children: Vec::new(alloc),
        }
    }

    /// An object of a head that fits its kind, and no children. It takes memory only for what few objects have.
    pub fn from_head(alloc: Global, head: Head) -> Result<Obj, AllocError>
        requires { IsTrue (fits_head head) }
        ensures { IfOk result (λ made. made ≡ record { head = head; inner = none }) }
    {
        let head = Attributes::from_head(alloc, head)?;
        Ok(Obj::from_attributes(alloc, head))
    }

    /// An object of attributes that fit its kind, and of these children, whose names differ, in their order. It takes no
    /// memory, and looks at no child.
    pub fn with_children(head: Attributes, children: Vec<Obj>) -> Obj
        requires fits { IsTrue (fits_head head) }
        requires differ { NamesDiffer children.items }
        ensures { result ≡ record { head = head; inner = in_row children.items } }
    {
        know_row(&children);
        Obj { head, children }
    }

    /// An object of a kind, with nothing else.
    pub fn new(alloc: Global, kind: Kind) -> Obj
        ensures { result ≡ record { head = empty_head kind; inner = none } }
    {
        Obj {
            head: Attributes::empty(alloc, kind),
            children: Vec::new(alloc),
        }
    }

    /// The kind, the attributes, the slot and the facets, which fit the kind.
    pub fn head(&self) -> &Attributes
        ensures value { result.now ≡ self.now.head }
        ensures fits { IsTrue (fits_head self.now.head) }
        ensures well_formed { IsWellFormed self.now }
    {
        &self.head
    }

    /// The kind.
    pub fn kind(&self) -> Kind
        ensures { result ≡ self.now.head.kind }
    {
        self.head.kind()
    }

    /// The name.
    pub fn name(&self) -> Option<&Text>
        ensures { option_copied result ≡ self.now.head.name }
    {
        self.head.name()
    }

    /// The href, as it was written.
    pub fn href(&self) -> Option<&Text>
        ensures { option_copied result ≡ self.now.head.href }
    {
        self.head.href()
    }

    /// The words of its contracts.
    pub fn is(&self) -> Option<&Words>
        ensures { option_copied result ≡ self.now.head.is }
    {
        self.head.is()
    }

    /// The words of its children's contracts, of a list or a feed.
    pub fn of(&self) -> Option<&Words>
        ensures { option_copied result ≡ self.now.head.of }
    {
        self.head.of()
    }

    /// The words of the contracts of what it is called with, of an op or a feed.
    pub fn input(&self) -> Option<&Words>
        ensures { option_copied result ≡ self.now.head.input }
    {
        self.head.input()
    }

    /// The words of the contracts of what it answers, of an op.
    pub fn output(&self) -> Option<&Words>
        ensures { option_copied result ≡ self.now.head.output }
    {
        self.head.output()
    }

    /// The slot.
    pub fn slot(&self) -> &Slot
        ensures { result.now ≡ self.now.head.slot }
    {
        self.head.slot()
    }

    /// The facets.
    pub fn facets(&self) -> LentFacets<'_>
        ensures { facets_lent result ≡ self.now.head.facets }
    {
        self.head.facets()
    }

    /// Whether it has that name.
    pub fn is_named(&self, name: &str) -> bool
        ensures { result ≡ has_name name.now self.now.head.name }
    {
        match self.head.name() {
            Some(text) => text.as_str() == name,
            None => false,
        }
    }

    /// Sets the name, or gives it back where it has 0 or more than 255 bytes.
    pub fn put_name(&mut self, name: Option<Text>) -> Result<(), Option<Text>>
        ensures { MatchResult result
            (λ _. IsTrue (fits_name name) × (self.new ≡ record self.old { head = record self.old.head { name = name } }))
            (λ back. (fits_name name ≡ false) × (back ≡ name) × (self.new ≡ self.old)) }
    {
        if fits_name(name.as_ref()) {
            self.head.put_name(name);
            Ok(())
        } else {
            Err(name)
        }
    }

    /// Sets the href.
    pub fn put_href(&mut self, href: Option<Text>)
        ensures { self.new ≡ record self.old { head = record self.old.head { href = href } } }
    {
        self.head.put_href(href);
    }

    /// Sets the words of its contracts, which every kind may have.
    pub fn put_is(&mut self, words: Option<Words>) -> Result<(), Option<Words>>
        ensures { MatchResult result
            (λ _. self.new ≡ record self.old { head = record self.old.head { is = words } })
            (λ _. ⊥) }
    {
        know_words(words.as_ref());
        self.head.put_is(words);
        Ok(())
    }

    /// Sets the words of its children's contracts, or gives them back where it is no list or feed.
    pub fn put_of(&mut self, words: Option<Words>) -> Result<(), PutFault<Option<Words>>>
        ensures { MatchResult result
            (λ _. IsTrue (has_of self.old.head.kind) × (self.new ≡ record self.old { head = record self.old.head { of = words } }))
            (λ fault. IsUnput (has_of self.old.head.kind) words fault × (self.new ≡ self.old)) }
    {
        if self.head.kind().has_of() {
            know_words(words.as_ref());
            match self.head.put_of(words) {
                Ok(()) => Ok(()),
                Err(part) => Err(PutFault::Memory { part }),
            }
        } else {
            Err(PutFault::Unfit { part: words })
        }
    }

    /// Sets the words of what it is called with, or gives them back where it is no op or feed.
    pub fn put_input(&mut self, words: Option<Words>) -> Result<(), PutFault<Option<Words>>>
        ensures { MatchResult result
            (λ _. IsTrue (has_input self.old.head.kind) × (self.new ≡ record self.old { head = record self.old.head { input = words } }))
            (λ fault. IsUnput (has_input self.old.head.kind) words fault × (self.new ≡ self.old)) }
    {
        if self.head.kind().has_input() {
            know_words(words.as_ref());
            match self.head.put_input(words) {
                Ok(()) => Ok(()),
                Err(part) => Err(PutFault::Memory { part }),
            }
        } else {
            Err(PutFault::Unfit { part: words })
        }
    }

    /// Sets the words of what it answers, or gives them back where it is no op.
    pub fn put_output(&mut self, words: Option<Words>) -> Result<(), PutFault<Option<Words>>>
        ensures { MatchResult result
            (λ _. IsTrue (has_output self.old.head.kind) × (self.new ≡ record self.old { head = record self.old.head { output = words } }))
            (λ fault. IsUnput (has_output self.old.head.kind) words fault × (self.new ≡ self.old)) }
    {
        if self.head.kind().has_output() {
            know_words(words.as_ref());
            match self.head.put_output(words) {
                Ok(()) => Ok(()),
                Err(part) => Err(PutFault::Memory { part }),
            }
        } else {
            Err(PutFault::Unfit { part: words })
        }
    }

    /// Sets the slot, or gives it back where its value isn't of the kind.
    pub fn put_slot(&mut self, slot: Slot) -> Result<(), Slot>
        ensures { MatchResult result
            (λ _. IsTrue (fits_slot self.old.head.kind slot) × (self.new ≡ record self.old { head = record self.old.head { slot = slot } }))
            (λ back. (fits_slot self.old.head.kind slot ≡ false) × (back ≡ slot) × (self.new ≡ self.old)) }
    {
        if fits_slot(self.head.kind(), &slot) {
            self.head.put_slot(slot);
            Ok(())
        } else {
            Err(slot)
        }
    }

    /// Sets the slot, whose value is of the kind, and gives the old one.
    pub fn replace_slot(&mut self, slot: Slot) -> Slot
        requires fits { IsTrue (fits_slot self.old.head.kind slot) }
        ensures old { result ≡ self.old.head.slot }
        ensures new { self.new ≡ record self.old { head = record self.old.head { slot = slot } } }
    {
        self.head.replace_slot(slot)
    }

    /// Sets the status, or takes it away, and gives the old one.
    pub fn replace_status(&mut self, status: Option<Status>) -> Option<Status>
        ensures old { result ≡ self.old.head.facets.status }
        ensures new { self.new ≡ record self.old { head = record self.old.head { facets = record self.old.head.facets { status = status } } } }
    {
        let old = self.head.status();
        self.head.put_status(status);
        old
    }

    /// Sets the facets, or gives them back where min or max doesn't fit the kind, or where they find no memory.
    pub fn put_facets(&mut self, facets: Facets) -> Result<(), PutFault<Facets>>
        ensures { MatchResult result
            (λ _. IsTrue (fits_facets self.old.head.kind facets) × (self.new ≡ record self.old { head = record self.old.head { facets = facets } }))
            (λ fault. IsUnput (fits_facets self.old.head.kind facets) facets fault × (self.new ≡ self.old)) }
    {
        if fits_limits(self.head.kind(), facets.min.as_ref(), facets.max.as_ref()) {
            match self.head.put_facets(facets) {
                Ok(()) => Ok(()),
                Err(part) => Err(PutFault::Memory { part }),
            }
        } else {
            Err(PutFault::Unfit { part: facets })
        }
    }

    /// The children, in order.
    pub fn children(&self) -> &[Obj]
        ensures value { result.now ≡ children self.now }
        ensures names_differ { NamesDiffer result.now }
        ensures few { length result.now < 2 ^ 63 }
    {
        self.children.as_slice()
    }

    /// The number of children.
    pub fn len(&self) -> usize
        ensures { result ≡ length (children self.now) }
    {
        self.children.len()
    }

    /// Whether it has no children.
    pub fn is_empty(&self) -> bool
        ensures { IsTrue result ↔ (length (children self.now) ≡ 0) }
    {
        self.children.is_empty()
    }

    /// The child at a place, the first being 0.
    pub fn at(&self, place: u64) -> Option<&Obj>
        ensures { option_copied result ≡ slice_get (children self.now) place }
    {
        object_at(&self.children, place as usize)
    }

    /// The child of a name, looked for among the children one by one.
    pub fn child(&self, name: &str) -> Option<&Obj>
        ensures { option_copied result ≡ named name.now (children self.now) }
    {
        find_named(&self.children, name)
    }

    /// Puts a child last. SameName gives it back where a child has its name, and Memory where it finds
    /// no memory; the object is then as it was.
    ///
    /// It looks at the name of each child, so n children take time in proportion to n * n: where the
    /// name is known to be free, call `push_new`.
    pub fn push(&mut self, child: Obj) -> Result<(), PushFault>
        ensures { IsPushed self.old self.new child result }
    {
        let taken = is_taken(&self.children, child.head.name());
        if taken {
            return Err(PushFault::SameName { child });
        }
        match self.children.push(child) {
            Ok(()) => Ok(()),
            Err(refused) => Err(PushFault::Memory {
                child: refused.value,
            }),
        }
    }

    /// Puts a child last that has no name, or one that no child has. It comes back where it finds no
    /// memory; the object is then as it was.
    ///
    /// It looks at no other child, so n children take time in proportion to n.
    pub fn push_new(&mut self, child: Obj) -> Result<(), Obj>
        requires { is_taken child.head.name (children self.old) ≡ false }
        ensures { MatchResult result
            (λ _. self.new ≡ with_child self.old child)
            (λ back. (back ≡ child) × (self.new ≡ self.old)) }
    {
        let _kind = child.head.kind();
        match self.children.push(child) {
            Ok(()) => Ok(()),
            Err(refused) => Err(refused.value),
        }
    }

    /// Puts a child last that has no name, or one that no child has. Where it finds no memory the child is dropped, and
    /// the object is as it was.
    ///
    /// It looks at no other child, so n children take time in proportion to n.
    pub fn push_last(&mut self, child: Obj) -> Result<(), AllocError>
        requires { is_taken child.head.name (children self.old) ≡ false }
        ensures { MatchResult result (λ _. self.new ≡ with_child self.old child) (λ _. self.new ≡ self.old) }
    {
        match self.push_new(child) {
            Ok(()) => Ok(()),
            Err(_child) => Err(AllocError),
        }
    }

    /// Puts last an object without children, whose name no child has: a copy of a head without its href, and
    /// of a slot in place of the head's, which must fit the kind. Where it finds no memory the object is as it was.
    ///
    /// It looks at no other child, and takes less time than to make the child and to push it.
    pub fn push_leaf(&mut self, head: &Attributes, slot: &Slot) -> Result<(), AllocError>
        requires free { is_taken head.now.name (children self.old) ≡ false }
        requires fits { IsTrue (fits_head (record head.now { href = None; slot = slot.now })) }
        ensures ok { OnOk result (self.new ≡ with_child self.old (record { head = record head.now { href = None; slot = slot.now }; inner = none })) }
        ensures err { OnErr result (self.new ≡ self.old) }
    {
        let own = head.copy_with(slot)?;
        let child = Obj::from_attributes(*self.children.allocator(), own);
        match self.push_new(child) {
            Ok(()) => Ok(()),
            Err(_) => Err(AllocError),
        }
    }

    /// Makes room for so many children more. The object stays as it is.
    pub fn reserve(&mut self, more: usize) -> Result<(), AllocError>
        ensures { self.new ≡ self.old }
    {
        self.children.reserve(more)
    }

    /// Sets the children, whose names differ, in their order. It takes no memory, and looks at no child.
    pub fn put_children(&mut self, children: Vec<Obj>)
        requires { NamesDiffer children.items }
        ensures { self.new ≡ record self.old { inner = in_row children.items } }
    {
        know_row(&children);
        self.children = children;
    }

    /// Takes each part that its head lacks from what is given (`Attributes::complete`), which together fit its kind. It
    /// takes no memory.
    pub fn complete(&mut self, given: Attributes)
        requires { IsTrue (fits_head (completed self.old.head given)) }
        ensures { self.new ≡ record self.old { head = completed self.old.head given } }
    {
        self.head.complete(given);
    }

    /// Takes the children out, in their order.
    pub fn take_children(&mut self) -> Vec<Obj>
        ensures children { result.items ≡ children self.old }
        ensures rest { self.new ≡ record self.old { inner = none } }
    {
        let alloc = *self.children.allocator();
        std::mem::replace(&mut self.children, Vec::new(alloc))
    }

    /// The number of objects, itself and all that is in it, or 2^64 - 1 where there are more.
    pub fn parts(&self) -> u64
        ensures { result ≡ min (parts self.now) (2 ^ 64 - 1) }
    {
        let mut total: u64 = 1;
        for child in &self.children {
            total = total.saturating_add(child.parts());
        }
        total
    }

    /// A copy of the whole tree.
    pub fn copy(&self) -> Result<Obj, AllocError>
        ensures { IfOk result (λ copy. copy ≡ self.now) }
    {
        let head = self.head.copy()?;
        let mut children = Vec::with_capacity(*self.children.allocator(), self.children.len())?;
        for child in &self.children {
            children.push(child.copy()?)?;
        }
        Ok(Obj { head, children })
    }

    /// Whether the objects are one tree: the same heads, and the same children in the same order.
    pub fn same(&self, other: &Obj) -> bool
        ensures { IsTrue result ↔ (self.now ≡ other.now) }
    {
        if self.children.len() != other.children.len() || !same_head(&self.head, &other.head) {
            return false;
        }
        for (place, child) in self.children.iter().enumerate() {
            if !child.same(&other.children[place]) {
                return false;
            }
        }
        true
    }
}
