//! Elements, from the start tag to the end tag.
ghost use Rattle.std.specs.Prelude.{◌≡◌, [], ◌∷◌, ◌++◌, None, OnOk, OnErr, IfOk, codes};
ghost use Rattle.std.specs.Option.{option_copied};
ghost use Rattle.ob_object.specs.Object.{in_row};
ghost use Rattle.ob_encoding.specs.Canonical.{attributes, facet_attributes, attributes_text, quoted, start_text, end_text, row_text, canonical_text};
ghost use Rattle.ob_encoding.specs.Names.{kind_name};
ghost use Rattle.ob_encoding.specs.Groups.{names_part, slot_part, lists_part, labels_part, limits_part, meaning_part};
ghost use Rattle.ob_encoding.specs.Written.{IsFront};

use crate::attribute::{
    write_limit, write_number, write_quoted, write_status, write_text, write_truth, write_value,
    write_words,
};
use crate::escape::append;
use crate::names::kind_name;
use ob_object::{Attributes, Kind, Obj, Slot};
use ob_values::Text;
use std::alloc::{AllocError, Global};

fn write_names(head: &Attributes, out: &mut Vec<u8>) -> Result<(), AllocError>
    ensures written { OnOk result (out.new.items ≡ out.old.items ++ attributes_text (names_part head.now)) }
    ensures front { IsFront out.old.items out.new.items }
{
    write_text(b" name=\"", head.name(), out)?;
    write_text(b" href=\"", head.href(), out)?;
    write_words(b" is=\"", head.is(), out)
}

fn write_slot(slot: &Slot, out: &mut Vec<u8>) -> Result<(), AllocError>
    ensures written { OnOk result (out.new.items ≡ out.old.items ++ attributes_text (slot_part slot.now)) }
    ensures front { IsFront out.old.items out.new.items }
{
    match slot {
        Slot::Absent => Ok(()),
        Slot::Null => append(b" null=\"true\"", out),
        Slot::Is(value) => write_value(b" val=\"", value, out),
    }
}

fn write_lists(head: &Attributes, out: &mut Vec<u8>) -> Result<(), AllocError>
    ensures written { OnOk result (out.new.items ≡ out.old.items ++ attributes_text (lists_part head.now)) }
    ensures front { IsFront out.old.items out.new.items }
{
    write_words(b" of=\"", head.of(), out)?;
    write_words(b" in=\"", head.input(), out)?;
    write_words(b" out=\"", head.output(), out)
}

fn write_labels(head: &Attributes, out: &mut Vec<u8>) -> Result<(), AllocError>
    ensures written { OnOk result (out.new.items ≡ out.old.items ++ attributes_text (labels_part head.now.facets)) }
    ensures front { IsFront out.old.items out.new.items }
{
    write_text(b" display=\"", head.display(), out)?;
    write_text(b" displayName=\"", head.display_name(), out)?;
    write_text(b" icon=\"", head.icon(), out)
}

fn write_limits(head: &Attributes, out: &mut Vec<u8>) -> Result<(), AllocError>
    ensures written { OnOk result (out.new.items ≡ out.old.items ++ attributes_text (limits_part head.now.facets)) }
    ensures front { IsFront out.old.items out.new.items }
{
    write_limit(b" max=\"", head.max(), out)?;
    write_limit(b" min=\"", head.min(), out)?;
    write_number(b" precision=\"", head.precision(), out)
}

fn write_meaning(head: &Attributes, out: &mut Vec<u8>) -> Result<(), AllocError>
    ensures written { OnOk result (out.new.items ≡ out.old.items ++ attributes_text (meaning_part head.now.facets)) }
    ensures front { IsFront out.old.items out.new.items }
{
    write_text(b" range=\"", head.range(), out)?;
    write_status(b" status=\"", head.status(), out)?;
    write_text(b" tz=\"", head.tz(), out)?;
    write_text(b" unit=\"", head.unit(), out)?;
    write_truth(b" writable=\"", head.writable(), out)
}

fn write_facets(head: &Attributes, out: &mut Vec<u8>) -> Result<(), AllocError>
    ensures written { OnOk result (out.new.items ≡ out.old.items ++ attributes_text (facet_attributes head.now.facets)) }
    ensures front { IsFront out.old.items out.new.items }
{
    write_labels(head, out)?;
    write_limits(head, out)?;
    write_meaning(head, out)
}

/// Appends all attributes but the namespace.
fn write_attributes(head: &Attributes, out: &mut Vec<u8>) -> Result<(), AllocError>
    ensures written { OnOk result (out.new.items ≡ out.old.items ++ attributes_text (attributes None head.now)) }
    ensures front { IsFront out.old.items out.new.items }
{
    write_names(head, out)?;
    write_slot(head.slot(), out)?;
    write_lists(head, out)?;
    write_facets(head, out)
}

fn write_namespace(ns: Option<&Text>, out: &mut Vec<u8>) -> Result<(), AllocError>
    ensures written { OnOk result (out.new.items ≡ out.old.items ++ quoted (codes " xmlns=\"") (option_copied ns.entry)) }
    ensures front { IsFront out.old.items out.new.items }
{
    match ns {
        Some(ns) => write_quoted(b" xmlns=\"", ns.as_str(), out),
        None => Ok(()),
    }
}

/// Appends the start tag up to its end.
fn write_start(ns: Option<&Text>, head: &Attributes, out: &mut Vec<u8>) -> Result<(), AllocError>
    ensures written { OnOk result (out.new.items ≡ out.old.items ++ start_text (option_copied ns.entry) head.now) }
    ensures front { IsFront out.old.items out.new.items }
{
    append(b"<", out)?;
    append(kind_name(head.kind()).as_bytes(), out)?;
    write_namespace(ns, out)?;
    write_attributes(head, out)
}

/// Appends the end tag.
fn write_end(kind: Kind, out: &mut Vec<u8>) -> Result<(), AllocError>
    ensures written { OnOk result (out.new.items ≡ out.old.items ++ 60 ∷ 47 ∷ (kind_name kind ++ 62 ∷ [])) }
    ensures front { IsFront out.old.items out.new.items }
{
    append(b"</", out)?;
    append(kind_name(kind).as_bytes(), out)?;
    append(b">", out)
}

/// Appends what stands behind the attributes: the end of an empty tag, or the children and the end tag.
#[cycle(writing)]
fn write_inner(obj: &Obj, out: &mut Vec<u8>) -> Result<(), AllocError>
    ensures written { OnOk result (out.new.items ≡ out.old.items ++ end_text obj.now.head.kind obj.now.inner (row_text obj.now.inner)) }
    ensures front { IsFront out.old.items out.new.items }
{
    let children = obj.children();
    if children.is_empty() {
        return append(b"/>", out);
    }
    append(b">", out)?;
    write_children(children, out)?;
    write_end(obj.kind(), out)
}

#[cycle(writing)]
fn write_child(child: &Obj, out: &mut Vec<u8>) -> Result<(), AllocError>
    ensures written { OnOk result (out.new.items ≡ out.old.items ++ canonical_text None child.now) }
    ensures front { IsFront out.old.items out.new.items }
{
    write_start(None, child.head(), out)?;
    write_inner(child, out)
}

#[cycle(writing)]
fn write_children(children: &[Obj], out: &mut Vec<u8>) -> Result<(), AllocError>
    ensures written { OnOk result (out.new.items ≡ out.old.items ++ row_text (in_row children.now)) }
    ensures front { IsFront out.old.items out.new.items }
{
    for child in children {
        write_child(child, out)?;
    }
    Ok(())
}

fn write_root(ns: Option<&Text>, obj: &Obj, out: &mut Vec<u8>) -> Result<(), AllocError>
    ensures written { OnOk result (out.new.items ≡ out.old.items ++ canonical_text (option_copied ns.entry) obj.now) }
    ensures front { IsFront out.old.items out.new.items }
{
    write_start(ns, obj.head(), out)?;
    write_inner(obj, out)
}

/// Appends the canonical text of the object, whose root element has the namespace `ns`, if there is one. Where there is
/// no memory for it, nothing is appended.
/// Source: oBIX 1.1, chapter 4.
pub fn write(ns: Option<&Text>, obj: &Obj, out: &mut Vec<u8>) -> Result<(), AllocError>
    ensures ok { OnOk result (out.new.items ≡ out.old.items ++ canonical_text (option_copied ns.entry) obj.now) }
    ensures err { OnErr result (out.new.items ≡ out.old.items) }
{
    let held = out.len();
    let written = write_root(ns, obj, out);
    if written.is_err() {
        out.truncate(held);
    }
    written
}

/// The canonical text of the object, whose root element has the namespace `ns`, if there is one.
pub fn encode(alloc: Global, ns: Option<&Text>, obj: &Obj) -> Result<Vec<u8>, AllocError>
    ensures { IfOk result (λ text. text.items ≡ canonical_text (option_copied ns.entry) obj.now) }
{
    let mut text = Vec::new(alloc);
    write(ns, obj, &mut text)?;
    Ok(text)
}
