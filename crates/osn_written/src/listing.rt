//! Items in order, as contracts see them.
ghost use Rattle.std.specs.Prelude.{◌≡◌};

use std::marker::Model;

/// Items in order, as those of an answer. Contracts see them as a list.
#[derive(Debug, Drop)]
pub struct Listing<T> {
    items: Vec<T>,
}

impl<T> Model for Listing<T> {
    ghost use Rattle.std.specs.Prelude.{List};

    ghost Value = { List T };

    ghost view = { λ l. l.items.items };
}

impl<T> Listing<T> {
    /// Returns the items that were moved in.
    pub fn new(items: Vec<T>) -> Listing<T>
        ensures { result ≡ items.items }
    {
        Listing { items }
    }

    /// Returns the items, to read.
    pub fn as_slice(&self) -> &[T]
        ensures { result.now ≡ self.now }
    {
        self.items.as_slice()
    }
}
