//! The summary of a run: how large the formula was and is, and how often each technique was used.
//!
//! `print_summary` writes thirteen lines to the role Summary of a desk. Each has a name and a value, so that runs are compared line
//! by line.
#![tactic(auto)]

mod kinds;
mod printing;
mod sizes;
#[cfg(test)]
mod tests;

pub use printing::print_summary;
pub use sizes::Sizes;
