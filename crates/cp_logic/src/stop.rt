//! Why a run stopped.

/// Why a run stopped: its commits number the budget; its next entry would need a number of 2^40 or more; or a clause is
/// empty.
#[derive(Clone, Copy, PartialEq, Eq, Debug)]
pub enum Stop {
    Spent,
    Numbers,
    Refuted,
}
