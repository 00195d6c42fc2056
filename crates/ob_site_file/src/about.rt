//! The texts of the About object that a site replaces.
ghost use Rattle.std.specs.Prelude.{◌≡◌, ◌++◌, ◌∷◌, [], cond, None, IfOk};
ghost use Rattle.std.specs.Option.{option_copied};
ghost use Rattle.ob_object.specs.Kinds.{same_kind};
ghost use Rattle.ob_site_rules.specs.Loading.{about_kind, about_texts, text_in};
ghost use Rattle.ob_site_file.specs.Abouts.{texts_in};

use crate::items::child_of;
use ob_object::{Kind, Obj, Slot};
use ob_values::{Text, Value};
use std::alloc::AllocError;

fn about_kind(name: &str) -> Kind
    ensures { result ≡ about_kind name.now }
{
    if name == "vendorUrl" || name == "productUrl" {
        Kind::Uri
    } else {
        Kind::Str
    }
}

// The text that a child of this name gives.
fn text_of<'a>(child: &'a Obj, name: &Text) -> Option<&'a Text>
    ensures { option_copied result ≡ cond (same_kind child.now.head.kind (about_kind name.now)) (text_in child.now.head.slot) None }
{
    if !child.kind().same(about_kind(name.as_str())) {
        return None;
    }
    match child.slot() {
        Slot::Is(Value::Str(text)) | Slot::Is(Value::Uri(text)) => Some(text),
        _ => None,
    }
}

// Puts the text last that a child gives, behind its name.
fn put_text(texts: &mut Vec<(Text, Text)>, child: &Obj) -> Result<(), AllocError>
    ensures { IfOk result (λ _. texts.new.items ≡ texts.old.items ++ texts_in (child.now ∷ [])) }
{
    let Some(name) = child.name() else {
        return Ok(());
    };
    if let Some(text) = text_of(child, name) {
        let name = name.copy()?;
        let text = text.copy()?;
        texts.push((name, text))?;
    }
    Ok(())
}

/// Puts the texts last that the root's own `about` gives, each behind its name.
pub(crate) fn put_about(texts: &mut Vec<(Text, Text)>, root: &Obj) -> Result<(), AllocError>
    ensures { IfOk result (λ _. texts.new.items ≡ texts.old.items ++ about_texts root.now) }
{
    if let Some(about) = child_of(root, "about", Kind::Obj) {
        for child in about.children() {
            put_text(texts, child)?;
        }
    }
    Ok(())
}
