//! A row of own objects.
use ob_object::Obj;

/// Objects side by side, and the number of the first of them, in the order of the document.
#[derive(Clone, Copy)]
pub(crate) struct Row<'a> {
    pub(crate) objects: &'a [Obj],
    pub(crate) number: u64,
}
