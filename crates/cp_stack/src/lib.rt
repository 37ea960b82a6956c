//! The text of a witness stack, from which a model of the formula that is left is completed later to one of the formula that was
//! read.
//!
//! A layer above may rely on this: `print_stack` writes the text that `specs/Text` defines to the role Stack of a desk,
//! `parse_stack` answers what bytes read as by `specs/Grammar`, its first fault with its place, and a `StackReader` answers the
//! same of all bytes that it is fed, however they are cut into pieces. Want of memory alone is free. `laws` says that a
//! printed stack is read as itself.
#![tactic(auto)]

mod header;
pub mod laws;
mod parsing;
mod printing;
mod reader;
mod reading;
mod refusal;
#[cfg(test)]
mod tests;

pub use parsing::parse_stack;
pub use printing::print_stack;
pub use reader::StackReader;
pub use refusal::{StackKind, StackRefusal};
