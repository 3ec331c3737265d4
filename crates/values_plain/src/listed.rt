ghost use Rattle.std.specs.Prelude.{◌≡◌, ◌∷◌, []};

use std::marker::Model;

/// Items in order. They do not change. One alone takes no memory beside its own.
///
/// A contract sees them as a list.
#[derive(Debug)]
pub struct Listed<T> {
    items: Items<T>,
}

impl<T: Drop> Drop for Listed<T> {
    fn drop(self) {
        let Listed { items: _ } = self;
    }
}

/// One item, or any number of them.
#[derive(Debug, Drop)]
pub(crate) enum Items<T> {
    /// One alone.
    One([T; 1]),
    /// Any number.
    Any(Vec<T>),
}

impl<T> Model for Listed<T> {
    ghost use Rattle.std.specs.Prelude.{List};
    ghost use Rattle.values_plain.specs.Listed.{items_in};

    ghost Value = { List T };

    ghost view = { λ l. items_in l.items };
}

impl<T> Listed<T> {
    /// The list of these items.
    pub fn new(items: Vec<T>) -> Listed<T>
        ensures { result ≡ items.items }
    {
        Listed {
            items: Items::Any(items),
        }
    }

    /// The list of one item. Allocates nothing.
    pub fn one(item: T) -> Listed<T>
        ensures { result ≡ item ∷ [] }
    {
        Listed {
            items: Items::One([item]),
        }
    }

    /// The items, in order.
    pub fn as_slice(&self) -> &[T]
        ensures { result.now ≡ self.now }
    {
        match &self.items {
            Items::One(item) => item.as_slice(),
            Items::Any(items) => items.as_slice(),
        }
    }
}
