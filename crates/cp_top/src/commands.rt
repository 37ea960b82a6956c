//! The run of `simplify`, and the run of any command.

ghost use Rattle.std.specs.Prelude.{◌≡◌, ℕ, map, string_bytes, IfOk, IfErr};
ghost use Rattle.cp_io.specs.Port.{NothingBound};
ghost use Rattle.cp_words.specs.Words.{Simplify, simplify_options};
ghost use Rattle.cp_words.specs.Answers.{simplify_seen, HasSimplifyLimits};
ghost use Rattle.cp_top.specs.declared.outcome.Outcome.TheVariants.{Refused};
ghost use Rattle.cp_roles.specs.Commands.{simplify_bindings};
ghost use Rattle.cp_top.specs.Run.{HasCause, IsWritten, AreBound, asked_workers, no_workers};
ghost use Rattle.cp_top.specs.Steps.{Begins, HasBegun};
ghost use Rattle.cp_top.specs.Whole.{HasWholeCause, IsWholeWritten, AreWholeBound};

use crate::extension::run_extend;
use crate::generation::run_gen;
use crate::outcome::Outcome;
use crate::output::finish;
use crate::work::{simplify_alone, simplify_by};
use cp_io::Desk;
use cp_logic::Formula;
use cp_roles::{Refusal, bind_simplify, read_formula};
use cp_summary::Sizes;
use cp_words::{SimplifyOptions, is_command, read_simplify_words};
use cp_worker::Gate;
use std::alloc::Global;
use std::thread::Threads;

/// Runs the command that the words ask for: `simplify`, `extend` or `generate`. The words are those of the command line without the
/// program's name.
///
/// The workers of `simplify` work in threads of their own, which may be waited for, so its return isn't promised. `gate` is called at the
/// moments of each worker's shift.
pub fn run<R: Threads + Sync, D: Desk, G: Gate + Sync>(
    rt: &R,
    alloc: Global,
    words: &[String],
    desk: &mut D,
    gate: &G,
) -> Outcome
    // No role is bound before.
    requires { NothingBound (D.port desk.old) }

    // Each answer has its cause; want of memory alone is free.
    ensures cause { HasWholeCause (map string_bytes words.now) (D.port desk.old) (D.port desk.new) result }

    // On `simplify`: whatever the order of the workers' steps, the journal is one legal run from what stands in Cnf, with each
    // worker's posts in it once and in their order; Proof, Stack, Reduced and Summary grew by the texts of what it leaves. Without
    // workers, and with one worker in one round, the journal is a function of the words and of what stands in Cnf.
    ensures written { IsWholeWritten (map string_bytes words.now) (D.port desk.old) (D.port desk.new) result }

    // The roles are bound in their order, each in its way under its name, and no other is.
    ensures bound { AreWholeBound (map string_bytes words.now) (D.port desk.new) result }
{
    if is_command("extend", words) {
        return run_extend(alloc, words, desk);
    }
    if is_command("generate", words) {
        return run_gen(alloc, words, desk);
    }
    run_simplify(rt, alloc, words, desk, gate)
}

fn run_simplify<R: Threads + Sync, D: Desk, G: Gate + Sync>(
    rt: &R,
    alloc: Global,
    words: &[String],
    desk: &mut D,
    gate: &G,
) -> Outcome
    requires { NothingBound (D.port desk.old) }
    ensures cause { HasCause (map string_bytes words.now) (D.port desk.old) (D.port desk.new) result }
    ensures written { IsWritten asked_workers (map string_bytes words.now) (D.port desk.old) (D.port desk.new) result }
    ensures bound { AreBound (simplify_options (map string_bytes words.now)) simplify_bindings (D.port desk.new) result }
{
    let (options, formula) = match begin(alloc, words, desk) {
        Ok(begun) => begun,
        Err(refusal) => return Outcome::Refused(refusal),
    };
    let sizes = Sizes::of(&formula);
    let Ok(simplified) = simplify_by(rt, alloc, formula, &options.opts, gate) else {
        return Outcome::Refused(Refusal::NoMemory);
    };
    finish(desk, &options, sizes, simplified)
}

/// Runs `simplify` with no worker, whatever number is asked for: simplifies the formula of Cnf by the techniques that the words choose,
/// writes the proof of it to Proof, the pairs that complete its models to Stack, what is left to Reduced, and counts to Summary. The
/// words are those of the command line without the program's name.
///
/// It always returns. The roles Cnf, Reduced, Stack, Proof and Summary are bound, in this order, each under the name that its option gives.
pub fn run_alone<D: Desk>(alloc: Global, words: &[String], desk: &mut D) -> Outcome
    // No role is bound before.
    requires { NothingBound (D.port desk.old) }

    // Each answer has its cause; want of memory alone is free.
    ensures cause { HasCause (map string_bytes words.now) (D.port desk.old) (D.port desk.new) result }

    // The journal simplifies what stands in Cnf, Proof grew by the text of its log, Stack by that of its pairs, Reduced by that of what it
    // leaves, and Summary by that of its counts.
    ensures written { IsWritten no_workers (map string_bytes words.now) (D.port desk.old) (D.port desk.new) result }

    // The roles are bound in their order, each in its way under its name, and no other is.
    ensures bound { AreBound (simplify_options (map string_bytes words.now)) simplify_bindings (D.port desk.new) result }
{
    let (options, formula) = match begin(alloc, words, desk) {
        Ok(begun) => begun,
        Err(refusal) => return Outcome::Refused(refusal),
    };
    let sizes = Sizes::of(&formula);
    let Ok(simplified) = simplify_alone(alloc, formula, &options.opts) else {
        return Outcome::Refused(Refusal::NoMemory);
    };
    finish(desk, &options, sizes, simplified)
}

// Reads the words, binds the roles of `simplify`, and reads the formula of Cnf; or says why the run ends before its work.
fn begin<'a, D: Desk>(
    alloc: Global,
    words: &'a [String],
    desk: &mut D,
) -> Result<(SimplifyOptions<'a>, Formula), Refusal>
    requires { NothingBound (D.port desk.old) }
    ensures begun { IfOk result (λ begun. HasBegun (map string_bytes words.now) (simplify_seen begun.0) begun.1 (D.port desk.old) (D.port desk.new)) }
    ensures limits { IfOk result (λ begun. HasSimplifyLimits begun.0) }
    ensures cause { IfErr result (λ refusal. HasCause (map string_bytes words.now) (D.port desk.old) (D.port desk.new) (Refused refusal)) }
    ensures written { IfErr result (λ refusal. (workers : Simplify → ℕ) → IsWritten workers (map string_bytes words.now) (D.port desk.old) (D.port desk.new) (Refused refusal)) }
    ensures bound { IfErr result (λ refusal. AreBound (simplify_options (map string_bytes words.now)) simplify_bindings (D.port desk.new) (Refused refusal)) }
{
    let options = match read_simplify_words(alloc, words) {
        Ok(options) => options,
        Err(refusal) => return Err(Refusal::of_options(refusal)),
    };
    match bind_and_read(alloc, desk, &options) {
        Ok(formula) => Ok((options, formula)),
        Err(refusal) => Err(refusal),
    }
}

// Binds the roles of `simplify`, and reads the formula of Cnf.
fn bind_and_read<D: Desk>(
    alloc: Global,
    desk: &mut D,
    options: &SimplifyOptions<'_>,
) -> Result<Formula, Refusal>
    requires { NothingBound (D.port desk.old) }
    ensures { Begins (simplify_seen options.now) result (D.port desk.old) (D.port desk.new) }
{
    if let Err(role) = bind_simplify(desk, options) {
        return Err(Refusal::OpenFault { role });
    }
    read_formula(alloc, desk)
}
