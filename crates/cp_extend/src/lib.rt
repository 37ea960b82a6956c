//! Models of the formula that was read.
//!
//! A layer above may rely on this: a `ModelReader` reads the model of the formula that is left, `extend` completes it by the pairs of
//! the run, and `print_model` writes a model to the role Full of a desk. What a text reads as is `specs/Grammar`.
#![tactic(auto)]

mod completion;
pub mod laws;
mod parsing;
mod printing;
mod progress;
mod reader;
#[cfg(test)]
mod reading_tests;
mod refusal;
#[cfg(test)]
mod tests;

pub use completion::extend;
pub use printing::print_model;
pub use reader::{ModelReader, parse_model};
pub use refusal::{ModelKind, ModelRefusal};
