//! Hoods: a variable and all its neighbours, locked by one try each, and commits under their locks.
//!
//! `try_hood` locks a variable, reads its neighbourhood from its cell, and locks the others upwards. As soon as one is held by
//! another seat it gives all locks back, so a refused try holds nothing and no seat waits for another. Under a whole neighbourhood
//! nobody else changes the clauses of the centre, so an entry at the centre that fits its cell is legal when the turn comes:
//! `commit` posts it without a test, and no entry is ever found out of date. `release` gives the locks back.
//!
//! A layer above may rely on the contracts of `try_hood`, `Hood::centre`, `Hood::prepare`, `commit` and `release` alone.
#![tactic(auto)]

mod answers;
mod hood;
mod locking;
mod neighbourhood;
mod posting;
mod prepared;
#[cfg(test)]
mod tests;

pub use answers::{CommitAnswer, HoodAnswer};
pub use hood::Hood;
pub use locking::{release, try_hood};
pub use posting::commit;
pub use prepared::Prepared;
