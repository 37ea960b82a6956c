//! Lists of clause numbers.
ghost use Rattle.std.specs.Prelude.{◌≡◌, ◌+◌, ◌<◌, ◌≤◌, [], ◌∷◌, ◌++◌, OnOk, OnErr, slice_get};

use cp_logic::Items;
use std::alloc::{AllocError, Global};
use std::marker::Model;

/// A list of clause numbers, which keeps the room that was reserved.
///
/// Each call that answers an error answers it for want of memory alone.
#[derive(Drop)]
pub struct Numbers {
    numbers: Items<u64>,
}

impl Model for Numbers {
    ghost use Rattle.std.specs.Prelude.{ℕ};
    ghost use Rattle.cp_logic.specs.Lists.{Roomy};

    ghost Value = { Roomy ℕ };

    ghost view = { λ l. l.numbers };
}

impl Numbers {
    /// No numbers.
    pub(crate) fn new(alloc: Global) -> Self
        ensures { result.items ≡ [] }
    {
        Numbers {
            numbers: Items::new(alloc),
        }
    }

    /// The numbers in their order.
    pub fn as_slice(&self) -> &[u64]
        ensures { result.now ≡ self.now.items }
    {
        self.numbers.as_slice()
    }

    /// The first number, or `None` where there is none.
    pub fn first(&self) -> Option<u64>
        ensures { result ≡ slice_get self.now.items 0 }
    {
        self.numbers.get(0).copied()
    }

    /// Appends the number. At an error the numbers are as before.
    pub(crate) fn push(&mut self, number: u64) -> Result<(), AllocError>
        ensures ok { OnOk result (self.new.items ≡ self.old.items ++ number ∷ []) }
        ensures err { OnErr result (self.new.items ≡ self.old.items) }
    {
        self.numbers.push(number)
    }

    /// Makes room for `n` further numbers.
    pub(crate) fn reserve(&mut self, n: usize) -> Result<(), AllocError>
        ensures items { self.new.items ≡ self.old.items }
        ensures ok { OnOk result (n ≤ self.new.spare) }
        ensures more { self.old.spare ≤ self.new.spare }
    {
        self.numbers.reserve(n)
    }

    /// Appends the number where there is room. It takes no memory.
    pub(crate) fn push_reserved(&mut self, number: u64)
        requires { 0 < self.old.spare }
        ensures items { self.new.items ≡ self.old.items ++ number ∷ [] }
        ensures spare { self.new.spare + 1 ≡ self.old.spare }
    {
        self.numbers.push_reserved(number);
    }
}
