//! Writing the texts of a run, in their order.

ghost use Rattle.std.specs.Prelude.{◌≡◌, Some};
ghost use Rattle.cp_io.specs.declared.role.Role.TheVariants.{Proof, Reduced, Stack, Summary};
ghost use Rattle.cp_io.specs.declared.role.Way.TheVariants.{Out};
ghost use Rattle.cp_io.specs.Port.{AtRole, Writes};
ghost use Rattle.cp_logic.specs.Pairs.{pairs_of};
ghost use Rattle.cp_words.specs.Answers.{simplify_seen};
ghost use Rattle.cp_top.specs.Commands.{summary_of};
ghost use Rattle.cp_top.specs.Status.{status_of};
ghost use Rattle.cp_top.specs.Steps.{Finishes, texts_of};
ghost use Rattle.cp_roles.specs.Texts.{WritesInTurn};

use crate::outcome::Outcome;
use crate::work::Simplified;
use cp_dimacs::print_cnf;
use cp_drat::print_log;
use cp_io::{Desk, Failed, Role};
use cp_logic::Formula;
use cp_roles::Refusal;
use cp_stack::print_stack;
use cp_summary::{Sizes, print_summary};
use cp_sweep::Swept;
use cp_words::SimplifyOptions;
use std::mem::forget;

/// Writes the texts of the result, and says how the run ended.
pub(crate) fn finish<D: Desk>(
    desk: &mut D,
    options: &SimplifyOptions<'_>,
    sizes: Sizes,
    simplified: Simplified,
) -> Outcome
    requires proof { (D.port desk.old Proof).way ≡ Some Out }
    requires stack { (D.port desk.old Stack).way ≡ Some Out }
    requires reduced { (D.port desk.old Reduced).way ≡ Some Out }
    requires summary { (D.port desk.old Summary).way ≡ Some Out }
    ensures outcome { Finishes (simplify_seen options.now) sizes simplified result (D.port desk.old) (D.port desk.new) }
{
    let Simplified {
        swept,
        shifts,
        kept,
    } = simplified;
    if let Err(role) = write_result(desk, options, sizes, &swept) {
        return Outcome::Refused(Refusal::WriteFault {
            role,
            journal: swept.journal,
        });
    }
    let status = status_of_formula(&swept.formula);
    // The run ends here, and with the process all memory: to give back the clauses one by one would take a tenth of a run.
    forget(swept.formula);
    forget(swept.stack);
    Outcome::Done {
        status,
        journal: swept.journal,
        shifts,
        kept,
        stopped: swept.stopped,
    }
}

// Writes the log of the journal to Proof, the pairs to Stack, what is left to Reduced, and the counts to Summary. At an error it is
// the role that could not be written.
fn write_result<D: Desk>(
    desk: &mut D,
    options: &SimplifyOptions<'_>,
    sizes: Sizes,
    swept: &Swept,
) -> Result<(), Role>
    requires proof { (D.port desk.old Proof).way ≡ Some Out }
    requires stack { (D.port desk.old Stack).way ≡ Some Out }
    requires reduced { (D.port desk.old Reduced).way ≡ Some Out }
    requires summary { (D.port desk.old Summary).way ≡ Some Out }
    ensures { WritesInTurn (texts_of (simplify_seen options.now) sizes swept.now) result (D.port desk.old) (D.port desk.new) }
{
    if print_log(desk, &swept.journal, options.form).is_err() {
        return Err(Role::Proof);
    }
    if print_stack(desk, &swept.stack).is_err() {
        return Err(Role::Stack);
    }
    if print_cnf(desk, &swept.formula).is_err() {
        return Err(Role::Reduced);
    }
    if print_counts(desk, sizes, swept).is_err() {
        return Err(Role::Summary);
    }
    Ok(())
}

/// Writes the counts of a run to Summary.
pub(crate) fn print_counts<D: Desk>(desk: &mut D, sizes: Sizes, swept: &Swept) -> Result<(), Failed>
    requires { (D.port desk.old Summary).way ≡ Some Out }
    ensures { AtRole Summary (Writes (summary_of sizes swept.now.journal.items (pairs_of swept.now.stack.pairs) swept.now.formula.formula swept.now.stopped) result) (D.port desk.old) (D.port desk.new) }
{
    print_summary(
        desk,
        sizes,
        &swept.formula,
        &swept.journal,
        swept.stack.pairs.len() as u64,
        swept.stopped,
        status_of_formula(&swept.formula),
    )
}

fn status_of_formula(formula: &Formula) -> u8
    ensures { result ≡ status_of formula.now.formula }
{
    if formula.has_empty_clause() {
        20
    } else if formula.is_empty() {
        10
    } else {
        0
    }
}
