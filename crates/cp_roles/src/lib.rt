//! The roles of the commands: binding them, reading the inputs, and the refusals with their lines.
//!
//! The layer above may rely on this: `bind_simplify`, `bind_extend` and `bind_generate` bind the roles of a command in their order, each
//! in its way under its name (`specs/Bindings.antt`, `Commands.antt`); `read_formula`, `read_stack` and `read_model` answer what the
//! text of a role says, or the refusal that it says (`specs/Input.antt`); a `Refusal` is told by its line (`specs/Lines.antt`). What
//! writing texts in turn does to a desk is defined in `specs/Texts.antt`, with its lemmas in `proofs/lemmas/TextsWritten.antt`.
#![tactic(auto)]

mod binding;
mod input;
mod lines;
mod refusal;

pub use binding::{bind_extend, bind_generate, bind_simplify};
pub use input::{read_formula, read_model, read_stack};
pub use refusal::Refusal;
