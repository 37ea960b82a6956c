//! Why a neighbourhood was not locked, and why an entry was not posted.

/// Why a neighbourhood was not locked. The seat then holds nothing.
#[derive(Clone, Copy, PartialEq, Eq, Debug)]
pub enum HoodAnswer {
    /// The lock of the variable `var` is held by seat `by`.
    Busy { var: u32, by: u32 },
    /// The neighbourhood has `count` variables, which is above the limit.
    Wide { count: u32 },
    /// There was not enough memory.
    NoMemory,
}

/// Why an entry was not posted. The hood and the journal are then as before.
#[derive(Clone, Copy, PartialEq, Eq, Debug)]
pub enum CommitAnswer {
    /// Each try found the turn held, the last time by seat `by`.
    TurnHeld { by: u32 },
    /// A current clause is empty; `empty` is the least number of one.
    Refuted { empty: u64 },
    /// The commits number the budget, which isn't 0; `len` is that number.
    Spent { len: u64 },
    /// The entry's new clauses, numbered from `next` on, would pass the last clause number.
    Numbers { next: u64 },
    /// There was not enough memory.
    NoMemory,
}
