//! Elimination of the variable of a cell, and the first entry of all kinds at a variable.
//!
//! `try_eliminate` gives the one elimination that there is at a variable, where the bound allows it. `search` is the call for the
//! layer above: the first entry over all techniques that are chosen, read from the variable's cell alone. Where the cell has all
//! clauses of the variable, that is the first legal entry of the formula there, as the laws say.
#![tactic(auto)]

mod elimination;
mod kinds;
pub mod laws;
mod lent;
mod resolvents;
#[cfg(test)]
mod tests;

pub use elimination::try_eliminate;
pub use kinds::search;
