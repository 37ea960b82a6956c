//! The run of `extend`: the words, the roles, reading the pairs and a model, completing the model, and writing it.

ghost use Rattle.std.specs.Prelude.{map, string_bytes};
ghost use Rattle.cp_io.specs.Port.{NothingBound};
ghost use Rattle.cp_words.specs.Words.{extend_options};
ghost use Rattle.cp_roles.specs.Commands.{extend_bindings};
ghost use Rattle.cp_top.specs.Extension.{HasExtendCause, IsExtension};
ghost use Rattle.cp_top.specs.Run.{AreBound};

use crate::outcome::Outcome;
use cp_extend::{extend, print_model};
use cp_io::{Desk, Role};
use cp_logic::Journal;
use cp_roles::{Refusal, bind_extend, read_model, read_stack};
use cp_words::read_extend_words;
use std::alloc::Global;

/// Runs `extend`: completes the model of Model by the pairs of Stack, and writes the whole model to Full. The words are those of
/// the command line without the program's name.
///
/// It always returns. The roles Stack, Model and Full are bound, in this order, each under the name that its option gives. Stack is read
/// before Model, and nothing is written before both are read.
pub fn run_extend<D: Desk>(alloc: Global, words: &[String], desk: &mut D) -> Outcome
    // No role is bound before.
    requires { NothingBound (D.port desk.old) }

    // Each answer has its cause; want of memory alone is free.
    ensures cause { HasExtendCause (map string_bytes words.now) (D.port desk.old) (D.port desk.new) result }

    // Full grew by the text of the model that stands in Model, completed by the pairs that stand in Stack.
    ensures written { IsExtension (D.port desk.old) (D.port desk.new) result }

    // The roles are bound in their order, each in its way under its name, and no other is.
    ensures bound { AreBound (extend_options (map string_bytes words.now)) extend_bindings (D.port desk.new) result }
{
    let options = match read_extend_words(alloc, words) {
        Ok(options) => options,
        Err(refusal) => return Outcome::Refused(Refusal::of_options(refusal)),
    };
    if let Err(role) = bind_extend(desk, &options) {
        return Outcome::Refused(Refusal::OpenFault { role });
    }
    let stack = match read_stack(alloc, desk) {
        Ok(stack) => stack,
        Err(refusal) => return Outcome::Refused(refusal),
    };
    let mut model = match read_model(alloc, desk, stack.vars) {
        Ok(model) => model,
        Err(refusal) => return Outcome::Refused(refusal),
    };
    extend(&mut model, &stack);
    if print_model(desk, &model).is_err() {
        return Outcome::Refused(Refusal::WriteFault {
            role: Role::Full,
            journal: Journal::new(alloc),
        });
    }
    Outcome::Extended
}
