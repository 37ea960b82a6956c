//! The run of `generate`: the words, the role, the formula that the words ask for, its simplification, and the summary of it.

ghost use Rattle.std.specs.Prelude.{map, string_bytes};
ghost use Rattle.cp_io.specs.Port.{NothingBound};
ghost use Rattle.cp_words.specs.Words.{generate_options};
ghost use Rattle.cp_roles.specs.Commands.{generate_bindings};
ghost use Rattle.cp_top.specs.Generation.{HasGenerateCause, IsGeneration};
ghost use Rattle.cp_top.specs.Run.{AreBound};

use crate::outcome::Outcome;
use crate::output::print_counts;
use cp_gen::generate;
use cp_io::{Desk, Role};
use cp_logic::{Choice, Rules};
use cp_roles::{Refusal, bind_generate};
use cp_summary::Sizes;
use cp_sweep::simplify;
use cp_words::read_generate_words;
use std::alloc::Global;

// All techniques, with no bound and no budget.
const ALL: Rules = Rules {
    choice: Choice {
        t: true,
        s: true,
        x: true,
        b: true,
        e: true,
    },
    bound: 0,
    budget: 0,
};

/// Runs `generate`: makes the formula of the words' seed and sizes, simplifies it by all techniques on one thread, and writes counts
/// of it to Summary. The words are those of the command line without the program's name.
///
/// It always returns. The role Summary is bound under the name that its option gives.
pub fn run_gen<D: Desk>(alloc: Global, words: &[String], desk: &mut D) -> Outcome
    // No role is bound before.
    requires { NothingBound (D.port desk.old) }

    // Each answer has its cause; want of memory alone is free.
    ensures cause { HasGenerateCause (map string_bytes words.now) (D.port desk.old) (D.port desk.new) result }

    // The journal simplifies the formula that the words ask for, and Summary grew by the text of its counts.
    ensures written { IsGeneration (map string_bytes words.now) (D.port desk.old) (D.port desk.new) result }

    // The role is bound to be written under its name, and no other is.
    ensures bound { AreBound (generate_options (map string_bytes words.now)) generate_bindings (D.port desk.new) result }
{
    let options = match read_generate_words(alloc, words) {
        Ok(options) => options,
        Err(refusal) => return Outcome::Refused(Refusal::of_options(refusal)),
    };
    if let Err(role) = bind_generate(desk, &options) {
        return Outcome::Refused(Refusal::OpenFault { role });
    }
    let Ok(formula) = generate(alloc, options.seed, options.vars, options.clauses) else {
        return Outcome::Refused(Refusal::NoMemory);
    };
    let sizes = Sizes::of(&formula);
    let Ok(swept) = simplify(alloc, formula, &ALL) else {
        return Outcome::Refused(Refusal::NoMemory);
    };
    if print_counts(desk, sizes, &swept).is_err() {
        return Outcome::Refused(Refusal::WriteFault {
            role: Role::Summary,
            journal: swept.journal,
        });
    }
    Outcome::Generated {
        journal: swept.journal,
        stopped: swept.stopped,
    }
}
