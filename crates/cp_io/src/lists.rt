//! A list over `Vec` that contracts see as its items and its room.
//! Inputs, their bytes and the calls that are to fail are such lists.

ghost use Rattle.std.specs.Prelude.{◌≡◌, ◌+◌, ◌<◌, ◌≤◌, [], ◌∷◌, ◌++◌, length, IsOk, OnOk, OnErr, IfOk, slice_get, ◌==◌};
ghost use Rattle.std.specs.Slice.Iter.{iter_rest};
ghost use Rattle.std.specs.Option.{option_copied};

use std::alloc::{AllocError, Global};
use std::marker::Model;
use std::slice;

/// A list that keeps the room that was reserved.
#[derive(Drop)]
pub struct Items<T> {
    items: Vec<T>,
}

impl<T> Model for Items<T> {
    ghost use Rattle.std.specs.Prelude.{◌-◌, vec_len, vec_capacity};
    ghost use Rattle.cp_io.specs.Lists.{Roomy, roomy_code};

    ghost Value = { Roomy T };

    ghost coded = { roomy_code T.code };

    ghost view = { λ l. record { items = l.items.items; spare = vec_capacity l.items - vec_len l.items } };
}

impl<T> Items<T> {
    ghost use Rattle.std.specs.Prelude.{vec_len, vec_capacity, ◌-◌};

    /// An empty list. It takes no memory.
    pub fn new(alloc: Global) -> Self
        ensures { result.items ≡ [] }
    {
        Items {
            items: Vec::new(alloc),
        }
    }

    /// The list of a vector's items. It takes no memory.
    pub fn from_vec(items: Vec<T>) -> Self
        ensures { result.items ≡ items.items }
    {
        Items { items }
    }

    /// A copy of these items. It is refused only for want of memory.
    pub fn from_slice(alloc: Global, items: &[T]) -> Result<Self, AllocError>
    where
        T: Copy,
        ensures { IfOk result (λ list. list.items ≡ items.now) }
    {
        Ok(Items {
            items: Vec::from_slice(alloc, items)?,
        })
    }

    /// The number of items.
    pub fn len(&self) -> usize
        ensures { result ≡ length self.now.items }
    {
        self.items.len()
    }

    /// Whether there are no items.
    pub fn is_empty(&self) -> bool
        ensures { result ≡ (length self.now.items == 0) }
    {
        self.items.is_empty()
    }

    /// The item at this place, counted from 0, or `None` past the last.
    pub fn get(&self, i: usize) -> Option<&T>
        ensures { option_copied result ≡ slice_get self.now.items i }
    {
        self.items.get(i)
    }

    /// The items in their order.
    pub fn iter(&self) -> slice::Iter<'_, T>
        ensures { iter_rest result ≡ self.now.items }
    {
        self.items.iter()
    }

    /// The items, lent.
    pub fn as_slice(&self) -> &[T]
        ensures { result.now ≡ self.now.items }
    {
        self.items.as_slice()
    }

    /// The vector of the items. It takes no memory.
    pub fn into_vec(self) -> Vec<T>
        ensures { result.items ≡ self.items }
    {
        self.items
    }

    /// Adds an item behind the last. It is refused only for want of memory, and then the list is as before.
    pub fn push(&mut self, item: T) -> Result<(), AllocError>
    where
        T: Drop,
        ensures ok { OnOk result (self.new.items ≡ self.old.items ++ item ∷ []) }
        ensures err { OnErr result (self.new.items ≡ self.old.items) }
    {
        self.items.push(item)?;
        Ok(())
    }

    /// Makes room for this many more items. It is refused only for want of memory.
    pub fn reserve(&mut self, n: usize) -> Result<(), AllocError>
        ensures items { self.new.items ≡ self.old.items }
        ensures ok { OnOk result (n ≤ self.new.spare) }
        ensures more { self.old.spare ≤ self.new.spare }
    {
        self.items.reserve(n)
    }

    /// Adds an item behind the last, in room that was reserved. It takes no memory.
    pub fn push_reserved(&mut self, item: T)
    where
        T: Drop,
        requires { 0 < self.old.spare }
        ensures items { self.new.items ≡ self.old.items ++ item ∷ [] }
        ensures spare { self.new.spare + 1 ≡ self.old.spare }
    {
        self.items.push_reserved(item);
    }
}
