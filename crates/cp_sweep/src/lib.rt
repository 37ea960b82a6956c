//! The sweep on one thread: every variable is searched in its cell, and what is found is posted into the book, until nothing
//! applies.
//!
//! `sweep` goes on from the book and the cells of a ground, as a yard leaves them, and `simplify` begins with a formula: these are the
//! two calls for the layer above. It may rely on their contracts alone: the journal is legal from the first formula, what comes after
//! the posts that the book had is their sweep, what is left and the stack are the journal's fold, the stop is that of the definition,
//! and a budget that commits never reach doesn't stop it (`specs/Swept.antt`).
#![tactic(auto)]

mod marks;
#[cfg(test)]
mod tests;
mod touch;
mod turns;

pub use turns::{Swept, simplify, sweep};
