//! The first entry at a variable, over all kinds.
//!
//! All clauses that an entry at a variable names have the variable, so the search reads the variable's cell and nothing else. It
//! tries the techniques in their order, and the first that finds something ends the search: what only drops clauses comes before
//! what adds some, and elimination, which costs most, comes last, when the clauses are as few and short as the others make them.

ghost use Rattle.std.specs.Prelude.{◌≡◌, ◌≤◌, ◌^◌, IfOk};
ghost use Rattle.std.specs.Option.{option_map, option_or};
ghost use Rattle.cp_logic.specs.Legality.{first_in, tauts, subsumptions, strengthenings, blocks, first_of_kind};
ghost use Rattle.cp_logic.specs.Views.{entry_of};
ghost use Rattle.cp_find.specs.Past.{IsPast};
ghost use Rattle.cp_find.specs.Chosen.{where_chosen};
ghost use Rattle.cp_eliminate.specs.Eliminating.{elimination_within};

use crate::elimination::try_eliminate;
use cp_blocked::first_blocked;
use cp_find::{Reached, next_strengthened, next_subsumed, next_taut};
use cp_logic::{Entry, Rules};
use cp_occ::{Cell, Sides};
use std::alloc::{AllocError, Global};

/// The first entry of the chosen techniques at the cell's variable, or `None` where none applies there. New clauses are numbered
/// from `next` on. What the searches at the variable have passed is not searched again, and is left in `reached` for the next one.
///
/// The error comes for want of memory, which is also the answer where a new clause's number would pass a `u64`.
pub fn search(
    alloc: Global,
    cell: &Cell,
    rules: &Rules,
    next: u64,
    reached: &mut Reached,
) -> Result<Option<Entry>, AllocError>
    requires numbers { next ≤ 2 ^ 40 }
    requires past { IsPast cell.now.variable cell.now.clauses reached.old }
    ensures found { IfOk result (λ found. option_map entry_of found ≡ first_in cell.now.clauses rules.now next cell.now.variable) }
    ensures past { IsPast cell.now.variable cell.now.clauses reached.new }
{
    if let Some(entry) = chosen_taut(cell, rules, reached)? {
        return Ok(Some(entry));
    }
    if let Some(entry) = chosen_of_two(alloc, cell, rules, next, reached)? {
        return Ok(Some(entry));
    }
    chosen_of_sides(alloc, cell, rules, next)
}

fn chosen_taut(
    cell: &Cell,
    rules: &Rules,
    reached: &mut Reached,
) -> Result<Option<Entry>, AllocError>
    requires { IsPast cell.now.variable cell.now.clauses reached.old }
    ensures found { IfOk result (λ found. option_map entry_of found ≡ where_chosen rules.now.choice.t (first_of_kind cell.now.variable cell.now.clauses (tauts cell.now.clauses))) }
    ensures past { IsPast cell.now.variable cell.now.clauses reached.new }
{
    if !rules.choice.t {
        return Ok(None);
    }
    next_taut(cell, reached)
}

// A subsumption, or else a strengthening. Both look at the same pairs of clauses, by the lookup that `reached` keeps.
fn chosen_of_two(
    alloc: Global,
    cell: &Cell,
    rules: &Rules,
    next: u64,
    reached: &mut Reached,
) -> Result<Option<Entry>, AllocError>
    requires numbers { next ≤ 2 ^ 40 }
    requires past { IsPast cell.now.variable cell.now.clauses reached.old }
    ensures found { IfOk result (λ found. option_map entry_of found ≡ option_or
        (where_chosen rules.now.choice.s (first_of_kind cell.now.variable cell.now.clauses (subsumptions cell.now.clauses)))
        (where_chosen rules.now.choice.x (first_of_kind cell.now.variable cell.now.clauses (strengthenings cell.now.clauses next)))) }
    ensures past { IsPast cell.now.variable cell.now.clauses reached.new }
{
    if let Some(entry) = chosen_subsumption(alloc, cell, rules, reached)? {
        return Ok(Some(entry));
    }
    chosen_strengthening(alloc, cell, rules, next, reached)
}

fn chosen_subsumption(
    alloc: Global,
    cell: &Cell,
    rules: &Rules,
    reached: &mut Reached,
) -> Result<Option<Entry>, AllocError>
    requires past { IsPast cell.now.variable cell.now.clauses reached.old }
    ensures found { IfOk result (λ found. option_map entry_of found ≡ where_chosen rules.now.choice.s (first_of_kind cell.now.variable cell.now.clauses (subsumptions cell.now.clauses))) }
    ensures past { IsPast cell.now.variable cell.now.clauses reached.new }
{
    if !rules.choice.s {
        return Ok(None);
    }
    next_subsumed(alloc, cell, reached)
}

fn chosen_strengthening(
    alloc: Global,
    cell: &Cell,
    rules: &Rules,
    next: u64,
    reached: &mut Reached,
) -> Result<Option<Entry>, AllocError>
    requires numbers { next ≤ 2 ^ 40 }
    requires past { IsPast cell.now.variable cell.now.clauses reached.old }
    ensures found { IfOk result (λ found. option_map entry_of found ≡ where_chosen rules.now.choice.x (first_of_kind cell.now.variable cell.now.clauses (strengthenings cell.now.clauses next))) }
    ensures past { IsPast cell.now.variable cell.now.clauses reached.new }
{
    if !rules.choice.x {
        return Ok(None);
    }
    next_strengthened(alloc, cell, next, reached)
}

// A blocked clause, or else the elimination. Both go by the clauses of each sign, which are listed once.
fn chosen_of_sides(
    alloc: Global,
    cell: &Cell,
    rules: &Rules,
    next: u64,
) -> Result<Option<Entry>, AllocError>
    requires { next ≤ 2 ^ 40 }
    ensures { IfOk result (λ found. option_map entry_of found ≡ option_or
        (where_chosen rules.now.choice.b (first_of_kind cell.now.variable cell.now.clauses (blocks cell.now.clauses)))
        (where_chosen rules.now.choice.e (elimination_within cell.now.clauses rules.now.bound next cell.now.variable))) }
{
    if !rules.choice.b && !rules.choice.e {
        return Ok(None);
    }
    let sides = Sides::of(alloc, cell)?;
    if let Some(entry) = chosen_blocked(&sides, rules)? {
        return Ok(Some(entry));
    }
    chosen_elimination(alloc, &sides, rules, next)
}

fn chosen_blocked(sides: &Sides<'_>, rules: &Rules) -> Result<Option<Entry>, AllocError>
    ensures { IfOk result (λ found. option_map entry_of found ≡ where_chosen rules.now.choice.b (first_of_kind sides.now.variable sides.now.clauses (blocks sides.now.clauses))) }
{
    if !rules.choice.b {
        return Ok(None);
    }
    first_blocked(sides)
}

fn chosen_elimination(
    alloc: Global,
    sides: &Sides<'_>,
    rules: &Rules,
    next: u64,
) -> Result<Option<Entry>, AllocError>
    requires { next ≤ 2 ^ 40 }
    ensures { IfOk result (λ found. option_map entry_of found ≡ where_chosen rules.now.choice.e (elimination_within sides.now.clauses rules.now.bound next sides.now.variable)) }
{
    if !rules.choice.e {
        return Ok(None);
    }
    try_eliminate(alloc, sides, rules.bound, next)
}
