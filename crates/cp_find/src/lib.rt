//! The first entry of a kind at a variable, read from the cell of its clauses alone: tautologies, subsumed clauses and
//! strengthened clauses.
//!
//! Each finder gives the least entry of its kind that is legal, by the numbers of the clauses that it names and then the literal,
//! and None exactly where there is none. Where the cell has all clauses of the variable, that is the least among all clauses, as the
//! laws say. A tautology is looked for without memory. For the other two a lookup of the cell's clauses is made: their signatures, and
//! where they are many in buckets by their literals, so that few pairs of clauses should be compared literal by literal; no contract
//! says so. `next_taut`, `next_subsumed` and `next_strengthened` begin where the last search at the variable came to, which a `Reached`
//! keeps with the lookup; `first_taut`, `first_subsumed` and `first_strengthened` begin at the front.
#![tactic(auto)]

pub mod laws;
mod lookup;
mod pairs;
mod reached;
mod strengthening;
mod subsumption;
mod tautology;
#[cfg(test)]
mod tests;
mod wanted;

pub use cp_logic::signature;
pub use reached::Reached;
pub use strengthening::{first_strengthened, next_strengthened};
pub use subsumption::{first_subsumed, next_subsumed};
pub use tautology::{first_taut, next_taut};
