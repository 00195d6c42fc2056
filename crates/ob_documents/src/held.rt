//! Objects in hand: all that a document asks of them but how deep they are.
ghost use Rattle.std.specs.Option.{option_copied};
ghost use Rattle.std.specs.Prelude.{option_map};
ghost use Rattle.ob_values.specs.declared.value.Value.TheVariants.{Int};
ghost use Rattle.ob_object.specs.Object.{in_row};
ghost use Rattle.ob_documents.specs.Carried.{AreTextsIfThere, IsHeadCarried, IsSlotWritten, IsTextIfThere, IsWritten, IsWrittenIfThere};
ghost use Rattle.ob_documents.specs.Held.{IsHeld, IsRowHeld};

use ob_object::{Attributes, Obj, Slot, Words};
use ob_values::{Text, Value, print_value};

fn text_held(text: Option<&Text>)
    ensures { IsTextIfThere (option_copied text.entry) }
{
    if let Some(text) = text {
        text.as_str();
    }
}

fn words_held(words: Option<&Words>)
    ensures { AreTextsIfThere (option_copied words.entry) }
{
    if let Some(words) = words {
        for word in words.as_slice() {
            word.as_str();
        }
    }
}

fn value_held(value: &Value)
    ensures { IsWritten value.now }
{
    match value {
        Value::Str(text) | Value::Enum(text) | Value::Uri(text) => {
            text.as_str();
        }
        _ => {
            print_value(value);
        }
    }
}

fn limit_held(limit: Option<&Value>)
    ensures { IsWrittenIfThere (option_copied limit.entry) }
{
    if let Some(value) = limit {
        value_held(value);
    }
}

fn number_held(number: Option<i64>)
    ensures { IsWrittenIfThere (option_map (λ z. Int z) number) }
{
    if let Some(number) = number {
        value_held(&Value::Int(number));
    }
}

fn slot_held(slot: &Slot)
    ensures { IsSlotWritten slot.now }
{
    if let Slot::Is(value) = slot {
        value_held(value);
    }
}

fn head_held(head: &Attributes)
    ensures { IsHeadCarried head.now }
{
    text_held(head.name());
    text_held(head.href());
    words_held(head.is());
    words_held(head.of());
    words_held(head.input());
    words_held(head.output());
    slot_held(head.slot());
    text_held(head.display());
    text_held(head.display_name());
    text_held(head.icon());
    limit_held(head.max());
    limit_held(head.min());
    number_held(head.precision());
    text_held(head.range());
    text_held(head.tz());
    text_held(head.unit());
}

#[cycle(holding)]
fn parts_held(object: &Obj)
    ensures head { IsHeadCarried object.now.head }
    ensures row { IsRowHeld object.now.inner }
{
    head_held(object.head());
    row_held(object.children());
}

#[cycle(holding)]
fn row_held(objects: &[Obj])
    ensures { IsRowHeld (in_row objects.now) }
{
    for object in objects {
        parts_held(object);
    }
}

/// Every object that a program holds is well formed, and each text and value in it is one that XML can carry: with at most
/// 32 levels, its canonical text spells it. It answers nothing; it takes time in proportion to the object.
pub fn is_held(object: &Obj)
    ensures { IsHeld object.now }
{
    object.head();
    parts_held(object);
}
