//! Strengthening, or self-subsuming resolution: where a clause has a literal, another clause has its negation, and the other
//! literals of that clause are among those of the first one, the first one loses the literal.
//!
//! As in SatELite (Een and Biere, SAT 2005, "Effective Preprocessing in SAT through Variable and Clause Elimination"), MiniSat's
//! `Clause::subsumes` and CaDiCaL's `subsume.cpp`. The resolvent of the two clauses on the variable is a subset of the first one,
//! so this is subsumption by a clause with one literal turned to its negation. Hence the test: in `by` the literal of the variable
//! is turned, and the clauses that have all of the turned literals are looked for as those that a clause subsumes. A clause with
//! both signs of the variable strengthens none at it: turned, it would still have the literal that goes. So each clause has at most
//! one literal to take from others, which is found once, and the pairs are looked at by ascending numbers, so that the answer is the
//! least pair.
ghost use Rattle.std.specs.Prelude.{◌≡◌, ◌≤◌, ◌^◌, IfOk};
ghost use Rattle.std.specs.List.{find};
ghost use Rattle.std.specs.Option.{option_map};
ghost use Rattle.cp_logic.specs.Items.{named_item};
ghost use Rattle.cp_logic.specs.Clauses.{contains, is_subset, IsAscending};
ghost use Rattle.cp_logic.specs.Legality.{strengthenings, first_of_kind};
ghost use Rattle.cp_logic.specs.Views.{entry_of};
ghost use Rattle.cp_find.specs.Finds.{struck, turned, strengthens};
ghost use Rattle.cp_find.specs.Past.{IsPast, first_other};

use crate::pairs::owned;
use crate::reached::{Pair, Reached};
use crate::wanted::Wanted;
use cp_logic::{Entry, Lit, Named};
use cp_occ::{Cell, Occurrence};
use std::alloc::{AllocError, Global};

/// The first pair of clauses of the cell of which one takes a literal of the cell's variable from the other, by the number of the
/// one that takes it and then by that of the other, or `None` where there is no such pair. The new clause gets the number `next`.
///
/// The error comes only for want of memory.
pub fn first_strengthened(
    alloc: Global,
    cell: &Cell,
    next: u64,
) -> Result<Option<Entry>, AllocError>
    requires { next ≤ 2 ^ 40 }
    ensures { IfOk result (λ o. option_map entry_of o ≡ first_of_kind cell.now.variable cell.now.clauses (strengthenings cell.now.clauses next)) }
{
    next_strengthened(alloc, cell, next, &mut Reached::start(alloc))
}

/// The same as `first_strengthened`, from where the last search at the variable came to.
pub fn next_strengthened(
    alloc: Global,
    cell: &Cell,
    next: u64,
    reached: &mut Reached,
) -> Result<Option<Entry>, AllocError>
    requires numbers { next ≤ 2 ^ 40 }
    requires past { IsPast cell.now.variable cell.now.clauses reached.old }
    ensures found { IfOk result (λ o. option_map entry_of o ≡ first_of_kind cell.now.variable cell.now.clauses (strengthenings cell.now.clauses next)) }
    ensures past { IsPast cell.now.variable cell.now.clauses reached.new }
{
    let var = cell.var();
    let Some(end) = reached.strengthening else {
        return Ok(None);
    };
    reached.lookup.make_ready(alloc, cell)?;
    for by in cell.occurrences_from(end.by) {
        let Some(lit) = struck(by, var) else {
            continue;
        };
        let wanted = Wanted::strengthened(var, by, lit);
        let from = end.first_other(by.number());
        if let Some(on) = reached.lookup.first(cell, from, &wanted) {
            let by = owned(by)?;
            let new = Named {
                number: next,
                clause: on.clause().without(alloc, lit)?,
            };
            let on = owned(on)?;
            reached.strengthening = Some(Pair {
                by: by.number,
                other: on.number,
            });
            return Ok(Some(Entry::Strengthen { by, on, lit, new }));
        }
    }
    reached.strengthening = None;
    Ok(None)
}

// The literal that the clause can take from others at the variable: the negation of its own there, where it has one alone.
fn struck(by: &Occurrence, var: u32) -> Option<Lit>
    requires low { 1 ≤ var }
    requires high { var ≤ 2000000 }
    ensures { result ≡ struck var by.now.clause }
{
    let positive = Lit::new(var, true);
    let negative = positive.negated();
    if by.has(positive) {
        if by.has(negative) {
            return None;
        }
        return Some(negative);
    }
    if by.has(negative) {
        return Some(positive);
    }
    None
}
