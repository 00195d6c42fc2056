//! Lists that stay as they were made.
ghost use Rattle.std.specs.Prelude.{◌≡◌};

use std::marker::Model;

/// A list that stays as it was made, seen as the list of its items: what room it has isn't told.
#[derive(Drop)]
pub struct Fixed<T> {
    items: Vec<T>,
}

impl<T> Model for Fixed<T> {
    ghost use Rattle.std.specs.Prelude.{List};

    ghost Value = { List T };

    ghost view = { λ l. l.items.items };
}

impl<T> Fixed<T> {
    /// These items, in their order.
    pub fn of(items: Vec<T>) -> Fixed<T>
        ensures { result ≡ items.items }
    {
        Fixed { items }
    }

    /// The items, in their order.
    pub fn as_slice(&self) -> &[T]
        ensures { result.now ≡ self.now }
    {
        self.items.as_slice()
    }
}
