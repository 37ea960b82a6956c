//! Lines, words and number words of a text, which every reader of a text format stands on.
//!
//! A layer above may rely on this: `next_item` goes through the lines that `specs/Text` defines, `next_seen` through those that are
//! seen of an input that may be longer than its limit, `skip_line` tells where one stops, `parse_number` gives what `specs/Numbers`
//! says of a word, an `Ahead` is what is left of such an input, and a `Collected` keeps of the bytes that it is fed as many as can
//! matter.
#![tactic(auto)]

mod ahead;
mod collected;
mod cut;
pub mod laws;
mod lines;
mod numbers;
#[cfg(test)]
mod tests;
mod text;

pub use ahead::Ahead;
pub use collected::Collected;
pub use cut::{Seen, next_seen, within};
pub use lines::{LineStop, skip_line};
pub use numbers::{Number, parse_number};
pub use text::{Item, next_item};
