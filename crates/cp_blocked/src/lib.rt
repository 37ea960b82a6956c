//! The first blocked clause at a variable, read from the cell of its clauses alone.
//!
//! `first_blocked` gives the least clause, by its number, that is blocked on its literal of the variable, and None exactly where
//! there is none or where a clause of the variable is a tautology. Where the cell has all clauses of the variable, that is the least
//! among all clauses, as the laws say. The clauses of each sign are listed by the caller, as loans: a clause is shared only once it is
//! found.
#![tactic(auto)]

mod blocking;
pub mod laws;
#[cfg(test)]
mod tests;

pub use blocking::first_blocked;
