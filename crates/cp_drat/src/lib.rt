//! The proof log of a run in DRAT, from which a checker that knows nothing of this program sees that each step was right.
//!
//! `print_log` writes the log of a journal to the role Proof of a desk, in the form that is asked for (`Form`), and `laws` says that of a
//! legal journal it is accepted, and that the literals of the binary form are read back.
#![tactic(auto)]

pub mod laws;
mod marks;
mod printing;
#[cfg(test)]
mod tests;

pub use cp_logic::Form;
pub use printing::print_log;
