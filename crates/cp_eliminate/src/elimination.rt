//! Bounded variable elimination: the clauses of a variable are replaced by their resolvents on it, where these are few enough.
//!
//! Resolving every clause that has the variable with every clause that has its negation, and dropping them all, is the step of
//! Davis and Putnam (1960). It can square the number of clauses each time, so NiVER (Subbarayan and Pradhan, SAT 2004, "NiVER: Non
//! Increasing Variable Elimination Resolution for Preprocessing SAT Instances") does it only where it adds no clause, and SatELite
//! (Een and Biere, SAT 2005, "Effective Preprocessing in SAT through Variable and Clause Elimination") joins it with subsumption.
//! MiniSat's `eliminateVar` has that bound with a `grow` on top, and CaDiCaL's `elim.cpp` a bound that it raises from 0 to 16
//! as rounds go by. Here the bound is by how many clauses the step may add more than it takes out, tautologies not counted.
//!
//! Most tries fail, so a try must be cheap. As in those solvers the resolvents are counted before any is built: a pair is told to
//! give a tautology by one pass over the second clause with no memory taken, and the count stops at the first resolvent above the bound,
//! so that a variable that occurs often costs about as many pairs as it has clauses, tautologies apart. The caller lists the two
//! sides, as loans from the cell, and a clause is shared only for an elimination that goes through. MiniSat and CaDiCaL also refuse
//! where a resolvent is long, and CaDiCaL where the variable occurs very often; no such limit is in the rules here, so that what is
//! eliminated depends on the clauses and the bound alone. CaDiCaL looks for definitions of the variable (gates) besides, and leaves
//! out resolvents that others imply; here they are added, and count against the bound. A variable that occurs in one sign only has
//! no resolvent, so its clauses just go: pure literals need no rule of their own.
//!
//! A tautology among the variable's clauses would give resolvents that still have the variable, so there must be none.
ghost use Rattle.std.specs.Prelude.{◌≡◌, ◌≤◌, ◌^◌, IfOk};
ghost use Rattle.std.specs.Option.{option_map};
ghost use Rattle.cp_logic.specs.Views.{entry_of};
ghost use Rattle.cp_eliminate.specs.Eliminating.{elimination_within, is_within};

use crate::lent::seconds;
use crate::resolvents::{are_at_most, numbered_resolvents};
use cp_logic::Entry;
use cp_occ::{Lent, Sides};
use std::alloc::{AllocError, Global};

/// The elimination of the cell's variable, its resolvents numbered from `next` on; or `None` where the cell has no clause or a
/// tautology, or where the resolvents would be more than the clauses and `bound` besides.
///
/// The error comes for want of memory, which is also the answer where a resolvent's number would pass a `u64`.
pub fn try_eliminate(
    alloc: Global,
    sides: &Sides<'_>,
    bound: u64,
    next: u64,
) -> Result<Option<Entry>, AllocError>
    requires { next ≤ 2 ^ 40 }
    ensures { IfOk result (λ o. option_map entry_of o ≡ elimination_within sides.now.clauses bound next sides.now.variable) }
{
    let cell = sides.cell();
    let var = cell.var();
    if cell.has_tautology() {
        return Ok(None);
    }
    let pos = sides.pos();
    let neg = sides.neg();
    if !is_within(pos, neg, var, bound) {
        return Ok(None);
    }
    let new = numbered_resolvents(alloc, pos, neg, var, next)?;
    let pos = seconds(alloc, pos)?;
    let neg = seconds(alloc, neg)?;
    Ok(Some(Entry::Eliminate { var, pos, neg, new }))
}

// Whether there is a clause, and the resolvents are at most as many as the clauses and the bound, whose sum may pass a `u64`.
fn is_within(pos: &[Lent<'_>], neg: &[Lent<'_>], var: u32, bound: u64) -> bool
    requires low { 1 ≤ var }
    requires high { var ≤ 2000000 }
    ensures { result ≡ is_within var bound pos.now neg.now }
{
    let clauses = pos.len() as u128 + neg.len() as u128;
    clauses > 0 && are_at_most(pos, neg, var, clauses + u128::from(bound))
}
