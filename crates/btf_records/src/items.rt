//! The lists of type records.

ghost use Rattle.std.specs.Prelude.{◌≡◌, ◌+◌, ◌<◌, ◌==◌, ◌++◌, ◌∷◌, [], length, OnOk, OnErr};

use std::alloc::{AllocError, AllocFailed, Global};
use std::marker::Model;

/// A list of at most 65535 items, the greatest count of a record's info word.
#[derive(Debug, Drop)]
pub struct Items<T> {
    items: Vec<T>,
}

impl<T> Model for Items<T> {
    ghost use Rattle.std.specs.Prelude.{List, length, ◌<◌};

    ghost Value = { List T };

    ghost view = { λ l. l.items.items };

    ghost invariant = { λ l. length l.items.items < 65536 };
}

impl<T> Items<T> {
    pub fn new(alloc: Global) -> Items<T>
        ensures { result ≡ [] }
    {
        Items {
            items: Vec::new(alloc),
        }
    }

    pub fn from_vec(items: Vec<T>) -> Items<T>
        requires { length items.items < 65536 }
        ensures { result ≡ items.items }
    {
        Items { items }
    }

    pub fn into_vec(self) -> Vec<T>
        ensures value { result.items ≡ self }
        ensures bounded { length result.items < 65536 }
    {
        let Items { items } = self;
        items
    }

    pub fn push(&mut self, item: T) -> Result<(), AllocFailed<T>>
        requires { length self.old + 1 < 65536 }
        ensures ok { OnOk result (self.new ≡ self.old ++ item ∷ []) }
        ensures err { OnErr result (self.new ≡ self.old) }
    {
        self.items.push(item)
    }

    pub fn len(&self) -> usize
        ensures value { result ≡ length self.now }
        ensures bounded { result < 65536 }
    {
        self.items.len()
    }

    pub fn is_empty(&self) -> bool
        ensures { result ≡ (length self.now == 0) }
    {
        self.items.is_empty()
    }

    pub fn as_slice(&self) -> &[T]
        ensures value { result.now ≡ self.now }
        ensures bounded { length result.now < 65536 }
    {
        self.items.as_slice()
    }
}

impl<T: Copy> Clone for Items<T> {
    ghost is_clone = { λ old new. new ≡ old };

    fn clone(&self) -> Result<Items<T>, AllocError> {
        let items = Vec::from_slice(*self.items.allocator(), self.items.as_slice())?;
        Ok(Items { items })
    }
}
