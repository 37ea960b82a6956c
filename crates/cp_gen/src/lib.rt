//! Formulas at random: a fixed generator that gives the same formula for the same seed on every machine.
//!
//! `generate` gives the formula of its definition (`specs/Generated.antt`), so that runs on large inputs can be compared without a
//! file.
#![tactic(auto)]

mod generating;
#[cfg(test)]
mod tests;

pub use generating::generate;
