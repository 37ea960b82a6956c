//! What an entry does to the current clauses and to the stack.
ghost use Rattle.std.specs.Prelude.{◌≡◌, ◌+◌, ◌++◌, ◌^◌, ◌≤◌, map, length, if◌then◌else◌, IfOk, IfSome, IfNone};
ghost use Rattle.std.specs.List.{All};
ghost use Rattle.cp_logic.specs.Literals.{positive, negative};
ghost use Rattle.cp_logic.specs.Formulas.{IsWithin, clauses_of};
ghost use Rattle.cp_logic.specs.Entries.{expand, new_clauses};
ghost use Rattle.cp_logic.specs.Rules.{Weaken, IsAllowed, applied, state_after, IsRun};
ghost use Rattle.cp_logic.specs.Journals.{number_limit};
ghost use Rattle.cp_logic.specs.Views.{entry_of};
ghost use Rattle.cp_book.specs.Changes.{state_of, with_all, weakened};
ghost use Rattle.cp_book.specs.Empties.{empty_numbers};

use crate::numbers::Numbers;
use cp_logic::{Clause, Entry, Formula, Lit, Named, NamedList, Pair, Stack};
use std::alloc::{AllocError, Global};

/// A second clause of each that the entry adds.
pub(crate) fn seconds_of_added(alloc: Global, entry: &Entry) -> Result<Vec<Clause>, AllocError>
    ensures { IfOk result (λ seconds. seconds.items ≡ clauses_of (new_clauses (entry_of entry.now))) }
{
    let added = entry.new_clauses();
    let mut seconds = Vec::with_capacity(alloc, added.len())?;
    for named in added {
        seconds.push(named.clause.again()?)?;
    }
    Ok(seconds)
}

/// The number of clauses that the entry weakens, unless no `usize` has it.
pub(crate) fn weakened_count(entry: &Entry) -> Option<usize>
    ensures count { IfSome result (λ n. n ≡ length (weakened (entry_of entry.now))) }
    ensures none { IfNone result (2 ^ 64 ≤ length (weakened (entry_of entry.now))) }
{
    match entry {
        Entry::Block { .. } => Some(1),
        Entry::Eliminate { pos, neg, .. } => pos.len().checked_add(neg.len()),
        _ => Some(0),
    }
}

/// Applies the entry's rules to the formula and the stack, given a second clause of each that it adds. It takes no memory.
///
/// A clause that is weakened goes to the stack as it comes out of the formula.
pub(crate) fn apply(formula: &mut Formula, stack: &mut Stack, entry: &Entry, seconds: Vec<Clause>)
    requires variables { stack.old.vars ≡ formula.old.formula.variables }
    requires run { IsRun (state_of formula.old.formula stack.old.pairs) (expand (entry_of entry.now)) }
    requires numbers { formula.old.formula.next + length (new_clauses (entry_of entry.now)) ≤ number_limit }
    requires seconds { seconds.items ≡ clauses_of (new_clauses (entry_of entry.now)) }
    requires clauses { length (new_clauses (entry_of entry.now)) ≤ formula.old.spare }
    requires pairs { length (weakened (entry_of entry.now)) ≤ stack.old.pairs.spare }
    ensures state { state_of formula.new.formula stack.new.pairs ≡ state_after (state_of formula.old.formula stack.old.pairs) (expand (entry_of entry.now)) }
    ensures variables { stack.new.vars ≡ stack.old.vars }
{
    match entry {
        Entry::Taut { gone } | Entry::Subsume { gone, .. } => {
            formula.remove(gone.number);
        }
        Entry::Strengthen { on, .. } => {
            push_all(formula, seconds);
            formula.remove(on.number);
        }
        Entry::Block { gone, lit } => weaken(formula, stack, gone, *lit),
        Entry::Eliminate { var, pos, neg, .. } => {
            push_all(formula, seconds);
            weaken_all(formula, stack, pos, *var, true);
            weaken_all(formula, stack, neg, *var, false);
        }
        Entry::Look { .. } => {}
    }
}

// Adds the clauses, each under the next number.
fn push_all(formula: &mut Formula, clauses: Vec<Clause>)
    requires spare { length clauses.items ≤ formula.old.spare }
    requires numbers { formula.old.formula.next + length clauses.items ≤ number_limit }
    requires within { All (IsWithin formula.old.formula.variables) clauses.items }
    ensures { formula.new.formula ≡ with_all formula.old.formula clauses.items }
{
    for clause in clauses {
        formula.push_reserved(clause);
    }
}

// Weakens the clauses on the variable or its negation, which they have, one after the other.
fn weaken_all(formula: &mut Formula, stack: &mut Stack, gone: &NamedList, var: u32, sign: bool)
    requires variables { stack.old.vars ≡ formula.old.formula.variables }
    requires run { IsRun (state_of formula.old.formula stack.old.pairs) (map (λ c. Weaken c (if sign then positive var else negative var)) gone.now.items) }
    requires room { length gone.now.items ≤ stack.old.pairs.spare }
    ensures state { state_of formula.new.formula stack.new.pairs ≡ state_after (state_of formula.old.formula stack.old.pairs) (map (λ c. Weaken c (if sign then positive var else negative var)) gone.now.items) }
    ensures variables { stack.new.vars ≡ stack.old.vars }
    ensures room { stack.new.pairs.spare + length gone.now.items ≡ stack.old.pairs.spare }
{
    for named in gone.as_slice() {
        // That it is a formula, whose numbers ascend, is a clause of this call.
        let _ = formula.vars();
        weaken(formula, stack, named, Lit::new(var, sign));
    }
}

// Takes the clause out of the formula, and pushes it with its literal.
fn weaken(formula: &mut Formula, stack: &mut Stack, gone: &Named, lit: Lit)
    requires variables { stack.old.vars ≡ formula.old.formula.variables }
    requires allowed { IsAllowed formula.old.formula (Weaken gone.now lit) }
    requires room { 1 ≤ stack.old.pairs.spare }
    ensures state { state_of formula.new.formula stack.new.pairs ≡ applied (state_of formula.old.formula stack.old.pairs) (Weaken gone.now lit) }
    ensures variables { stack.new.vars ≡ stack.old.vars }
    ensures room { stack.new.pairs.spare + 1 ≡ stack.old.pairs.spare }
{
    // That it is a formula, whose numbers ascend, is a clause of this call.
    let _ = formula.vars();
    match formula.remove(gone.number) {
        Some(clause) => stack.push_reserved(Pair::new(lit, clause)),
        None => unreachable!(),
    }
}

/// The numbers of the empty clauses of the formula.
pub(crate) fn empties_of(alloc: Global, formula: &Formula) -> Result<Numbers, AllocError>
    ensures { IfOk result (λ l. l.items ≡ empty_numbers formula.now.formula.clauses) }
{
    let mut numbers = Numbers::new(alloc);
    for (number, clause) in formula.iter() {
        if clause.lits().is_empty() {
            numbers.push(number)?;
        }
    }
    Ok(numbers)
}

/// Appends the numbers of the entry's new clauses that are empty. It takes no memory.
pub(crate) fn push_empties(numbers: &mut Numbers, entry: &Entry)
    requires { length (new_clauses (entry_of entry.now)) ≤ numbers.old.spare }
    ensures { numbers.new.items ≡ numbers.old.items ++ empty_numbers (new_clauses (entry_of entry.now)) }
{
    for named in entry.new_clauses() {
        if named.clause.lits().is_empty() {
            numbers.push_reserved(named.number);
        }
    }
}
