//! Completing a model of the formula that is left to one of the formula that was read.
//!
//! A step that removes a clause which the others do not imply, a blocked one or one of an eliminated variable, leaves a pair
//! behind: the clause, and a literal of it. Where a model of what stood right after the step makes the clause false, the literal
//! is made true, and the model is one of what stood right before.
//!
//! So the pair that was made last, which takes models of the formula that is left, is used first, and each pair hands its model
//! to the one that was made before it. From the first to the last, a literal that is turned could make false a clause that was
//! repaired already. Of {1, 2} and {-2, 3} the first is blocked on 1, and once it is gone the second is blocked on -2: where 2
//! alone is true, the second pair makes it false, and only then does {1, 2} need its literal. That a run's pairs complete each
//! model in this order is a law of `cp_logic`.
//!
//! The literal is the witness of Järvisalo, Heule and Biere (Inprocessing Rules, 2012), where models are reconstructed by this
//! loop. CaDiCaL's `extend.cpp` goes through its extension stack from the end, with a witness of one or more literals to each
//! clause. MiniSat's `SimpSolver::extendModel` goes through `elimclauses` from the end, with the literal first in each clause; of
//! an eliminated variable it keeps the clauses of one sign and a unit of the other. Here each clause has its pair, so that each
//! pair is one step of the rules. Nothing says in advance which clauses are false, so each is looked at until a literal is true.

ghost use Rattle.std.specs.Prelude.{◌≡◌, ◌≤◌, length};
ghost use Rattle.cp_logic.specs.Assignments.{satisfies, repaired, completed};
ghost use Rattle.cp_logic.specs.Formulas.{IsWithin};
ghost use Rattle.cp_logic.specs.Pairs.{pair_of, pairs_of};

use cp_logic::{Assignment, Clause, Pair, Stack};

/// Completes the model by the pairs of the stack, from the last to the first: where the clause of a pair is false, its literal is
/// made true. It takes no memory.
///
/// The model must have each variable of the stack.
pub fn extend(model: &mut Assignment, stack: &Stack)
    requires { stack.now.vars ≤ length model.old }
    ensures { model.new ≡ completed model.old (pairs_of stack.now.pairs) }
{
    let mut left = stack.pairs.as_slice();
    while let Some((pair, before)) = left.split_last() {
        repair(model, pair);
        left = before;
    }
}

// Makes the literal true where the clause is false.
fn repair(model: &mut Assignment, pair: &Pair)
    requires { IsWithin (length model.old) pair.now.clause }
    ensures value { model.new ≡ repaired model.old (pair_of pair.now) }
    ensures len { length model.new ≡ length model.old }
{
    if !satisfies(model, &pair.clause) {
        model.set(pair.lit);
    }
}

// Whether a literal of the clause is true.
fn satisfies(model: &Assignment, clause: &Clause) -> bool
    requires { IsWithin (length model.now) clause.now }
    ensures { result ≡ satisfies model.now clause.now }
{
    for lit in clause.lits() {
        if model.makes_true(*lit) {
            return true;
        }
    }
    false
}
