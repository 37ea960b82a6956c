//! Subsumption: a clause that has all literals of another clause is implied by that one, and is dropped.
//!
//! As in SatELite (Een and Biere, SAT 2005, "Effective Preprocessing in SAT through Variable and Clause Elimination") and in
//! CaDiCaL's `subsume.cpp`. Those keep occurrence lists of one literal of each clause, and look for the clauses that a clause
//! removes (backwards) or for one that removes it (forwards). Here one cell is searched, since whoever holds a variable holds its
//! clauses and no others, and a clause that is removed by a clause with the variable has the variable too. The pairs are looked at
//! by ascending numbers, so that the answer is the least pair; of two equal clauses the one with the less number removes the other.
//! For each clause those are looked at that lie in the shortest bucket of its literals, or all where there are no buckets, and each
//! is told by what is kept of it first.
ghost use Rattle.std.specs.Prelude.{◌≡◌, ◌≤◌, ◌^◌, IfOk};
ghost use Rattle.std.specs.List.{find};
ghost use Rattle.std.specs.Option.{option_map};
ghost use Rattle.cp_logic.specs.Items.{named_item};
ghost use Rattle.cp_logic.specs.Clauses.{is_subset};
ghost use Rattle.cp_logic.specs.Legality.{subsumptions, first_of_kind};
ghost use Rattle.cp_logic.specs.Views.{entry_of};
ghost use Rattle.cp_find.specs.Past.{IsPast, first_other};

use crate::pairs::owned;
use crate::reached::{Pair, Reached};
use crate::wanted::Wanted;
use cp_logic::Entry;
use cp_occ::Cell;
use std::alloc::{AllocError, Global};

/// The first pair of clauses of the cell of which one is a subset of the other, by the number of the smaller one and then by that
/// of the other, or `None` where there is no such pair.
///
/// It adds no clause, so it leaves `next` alone. The error comes only for want of memory.
pub fn first_subsumed(alloc: Global, cell: &Cell, next: u64) -> Result<Option<Entry>, AllocError>
    requires { next ≤ 2 ^ 40 }
    ensures { IfOk result (λ o. option_map entry_of o ≡ first_of_kind cell.now.variable cell.now.clauses (subsumptions cell.now.clauses)) }
{
    next_subsumed(alloc, cell, &mut Reached::start(alloc))
}

/// The same as `first_subsumed`, from where the last search at the variable came to.
pub fn next_subsumed(
    alloc: Global,
    cell: &Cell,
    reached: &mut Reached,
) -> Result<Option<Entry>, AllocError>
    requires { IsPast cell.now.variable cell.now.clauses reached.old }
    ensures found { IfOk result (λ o. option_map entry_of o ≡ first_of_kind cell.now.variable cell.now.clauses (subsumptions cell.now.clauses)) }
    ensures past { IsPast cell.now.variable cell.now.clauses reached.new }
{
    let var = cell.var();
    let Some(end) = reached.subsumption else {
        return Ok(None);
    };
    reached.lookup.make_ready(alloc, cell)?;
    for by in cell.occurrences_from(end.by) {
        let wanted = Wanted::subsumed(var, by);
        let from = end.first_other(by.number());
        if let Some(gone) = reached.lookup.first(cell, from, &wanted) {
            let by = owned(by)?;
            let gone = owned(gone)?;
            reached.subsumption = Some(Pair {
                by: by.number,
                other: gone.number,
            });
            return Ok(Some(Entry::Subsume { by, gone }));
        }
    }
    reached.subsumption = None;
    Ok(None)
}
