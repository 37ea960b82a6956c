//! Rounds: a yard is given to workers in threads of their own, and each works a shift in each round.
//!
//! A layer above may rely on the contract of `rounds` alone (`specs/Rounds.antt`): the ground that the workers leave, the record of the
//! journal's account, and the shifts, which list each worker's posts, once and in their order. Nothing is claimed of who works when.
#![tactic(auto)]

mod phase;
mod round;
mod team;
#[cfg(test)]
mod tests;

pub use phase::{Phase, rounds};
