ghost use Rattle.std.specs.Prelude.{◌≡◌};

use std::marker::Model;

/// A list that is part of a larger value. In contracts it is only the list, without the memory reserved for it.
#[derive(Drop)]
pub struct Items<T> {
    items: Vec<T>,
}

impl<T> Model for Items<T> {
    ghost use Rattle.std.specs.Prelude.{List};

    ghost Value = { List T };

    ghost view = { λ l. l.items.items };
}

impl<T> Items<T> {
    /// A list of these items. Allocates nothing.
    pub fn new(items: Vec<T>) -> Items<T>
        ensures value { result ≡ items.items }
    {
        Items { items }
    }

    /// The items, in order.
    pub fn as_slice(&self) -> &[T]
        ensures value { result.now ≡ self.now }
    {
        self.items.as_slice()
    }

    /// Returns the items as a vector. Allocates nothing.
    pub fn into_vec(self) -> Vec<T>
        ensures value { result.items ≡ self }
    {
        self.items
    }
}
