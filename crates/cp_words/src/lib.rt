//! The words of a command line, read by clap.
//!
//! The layer above may rely on this: `read_simplify_words`, `read_extend_words` and `read_generate_words` give the options that
//! `specs/Words` says of the words, or the kind of refusal that it says. Want of memory is the one other answer, and it isn't
//! answered where the first word is not the command.
#![tactic(auto)]

mod command;
mod extend;
mod generate;
mod letters;
mod names;
mod simplify;
#[cfg(test)]
mod tests;
mod words;

pub use extend::read_extend_words;
pub use generate::read_generate_words;
pub use simplify::read_simplify_words;
pub use words::{
    ExtendOptions, GenerateOptions, SimplifyOptions, UsageKind, WordsRefusal, is_command,
};
