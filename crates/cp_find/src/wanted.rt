//! What a search looks for: the other clauses that have all literals of a clause, or all of them with one in place of its negation.
ghost use Rattle.std.specs.Prelude.{◌≡◌, ◌≢◌, ◌==◌, not, List, ℕ, Some, IsTrue, map, bit_and};
ghost use Rattle.std.specs.List.{find, Contains};
ghost use Rattle.std.specs.Option.{option_map};
ghost use Rattle.cp_logic.specs.Literals.{negated, variable_of};
ghost use Rattle.cp_logic.specs.Clauses.{contains, is_subset, without};
ghost use Rattle.cp_logic.specs.Signatures.{signature};
ghost use Rattle.cp_find.specs.Finds.{subsumes, struck, turned, strengthens};

use cp_logic::{Clause, Lit, signature};
use cp_occ::{Occurrence, Occurrences};
use std::marker::Model;

/// The variable of the cell, a clause that has it, and the literal that the clause takes from others, if one is to be taken. Seen as the
/// variable and the numbered clause with that literal in place of its negation, which is to be a subset of clauses of other numbers.
#[derive(Drop)]
pub(crate) struct Wanted<'a> {
    var: u32,
    by: &'a Occurrence,
    taken: Option<Lit>,
}

impl<'a> Model for Wanted<'a> {
    ghost use Rattle.std.specs.Prelude.{◌≡◌, Some, IfSome};
    ghost use Rattle.cp_logic.specs.declared.named.Named.{Named};
    ghost use Rattle.cp_find.specs.Finds.{struck};
    ghost use Rattle.cp_find.specs.Lookups.{WantedView, with_taken};

    ghost Value = { WantedView };

    ghost view = { λ w. record {
      variable = w.var;
      sought = record { number = w.by.now.number; clause = with_taken w.taken w.by.now.clause };
    } };

    ghost invariant = { λ w. IfSome w.taken (λ l. struck w.var w.by.now.clause ≡ Some l) };
}

impl<'a> Wanted<'a> {
    /// The clauses that the one subsumes.
    pub(crate) fn subsumed(var: u32, by: &'a Occurrence) -> Wanted<'a>
        ensures { result ≡ record { variable = var; sought = by.now } }
    {
        Wanted {
            var,
            by,
            taken: None,
        }
    }

    /// The clauses that lose the literal to the one.
    pub(crate) fn strengthened(var: u32, by: &'a Occurrence, lit: Lit) -> Wanted<'a>
        requires { struck var by.now.clause ≡ Some lit }
        ensures { result ≡ record { variable = var; sought = record { number = by.now.number; clause = map (turned lit) by.now.clause } } }
    {
        Wanted {
            var,
            by,
            taken: Some(lit),
        }
    }

    /// The variable of the cell.
    pub(crate) fn var(&self) -> u32
        ensures { result ≡ self.now.variable }
    {
        self.var
    }

    /// The number of the clause, which isn't looked for itself.
    pub(crate) fn number(&self) -> u64
        ensures { result ≡ self.now.sought.number }
    {
        self.by.number()
    }

    /// The literals of the clause. Each wanted clause has those of other variables than the cell's.
    pub(crate) fn lits(&self) -> &'a [Lit]
        ensures { (l : ℕ) → Contains result.now l → variable_of l ≢ self.now.variable → Contains self.now.sought.clause l }
    {
        self.by.clause().lits()
    }

    /// Bits of the signature of each wanted clause.
    pub(crate) fn bits(&self) -> u64
        ensures { (clause : List ℕ) → IsTrue (is_subset self.now.sought.clause clause) → bit_and result (signature clause) ≡ result }
    {
        match self.taken {
            None => self.by.signature(),
            Some(lit) => self.by.bits_besides(lit.negated()) | signature([lit].as_slice()),
        }
    }

    /// Whether the clause is wanted.
    pub(crate) fn is_met_by(&self, other: &Occurrence) -> bool
        ensures { result ≡ subsumes self.now.sought other.now }
    {
        match self.taken {
            None => subsumes(self.by, other),
            Some(lit) => strengthens(self.by, other, lit),
        }
    }

    /// The first of these clauses that is wanted.
    pub(crate) fn first_of<'b>(&self, others: Occurrences<'b>) -> Option<&'b Occurrence>
        ensures { option_map (λ o. o.now) result ≡ find (subsumes self.now.sought) others.entry }
    {
        match self.taken {
            None => first_subsumed(self.by, others),
            Some(lit) => first_strengthened(self.by, others, lit),
        }
    }
}

// The first of these clauses that the one subsumes.
fn first_subsumed<'b>(by: &Occurrence, others: Occurrences<'b>) -> Option<&'b Occurrence>
    ensures { option_map (λ o. o.now) result ≡ find (subsumes by.now) others.entry }
{
    for other in others {
        // It passes over nearly all.
        if !by.may_subsume(other) {
            continue;
        }
        if subsumes(by, other) {
            return Some(other);
        }
    }
    None
}

// The first of these clauses that loses the literal to the one, which has its negation.
fn first_strengthened<'b>(
    by: &Occurrence,
    others: Occurrences<'b>,
    lit: Lit,
) -> Option<&'b Occurrence>
    requires { IsTrue (contains by.now.clause (negated lit)) }
    ensures { option_map (λ o. o.now) result ≡ find (strengthens lit by.now) others.entry }
{
    for other in others {
        // It passes over nearly all.
        if !by.may_strengthen(other, lit.negated()) {
            continue;
        }
        if strengthens(by, other, lit) {
            return Some(other);
        }
    }
    None
}

// Whether the first clause subsumes the second one, which is another one. What is kept of the two excludes most pairs, and then no
// literal is read.
fn subsumes(by: &Occurrence, gone: &Occurrence) -> bool
    ensures { result ≡ subsumes by.now gone.now }
{
    by.may_subsume(gone) && is_another(by, gone) && by.clause().subset_of(gone.clause())
}

// Whether the first clause, which has the literal's negation, takes the literal from the second one, which is another one. It is as
// quick as the test of a subsumption.
fn strengthens(by: &Occurrence, on: &Occurrence, lit: Lit) -> bool
    requires { IsTrue (contains by.now.clause (negated lit)) }
    ensures { result ≡ strengthens lit by.now on.now }
{
    if !by.may_strengthen(on, lit.negated()) {
        return false;
    }
    is_another(by, on) && has_turned(by, on, lit)
}

// Whether the second clause has the literal and all literals of the first one but its negation, which that has.
fn has_turned(by: &Occurrence, on: &Occurrence, lit: Lit) -> bool
    requires { IsTrue (contains by.now.clause (negated lit)) }
    ensures { result ≡ is_subset (map (turned lit) by.now.clause) on.now.clause }
{
    if on.has(lit) {
        has_besides(by.clause().lits(), lit.negated(), on.clause())
    } else {
        false
    }
}

// Whether the clauses have different numbers.
fn is_another(first: &Occurrence, second: &Occurrence) -> bool
    ensures { result ≡ not (first.now.number == second.now.number) }
{
    first.number() != second.number()
}

// Whether the clause has each of the literals besides the one.
fn has_besides(lits: &[Lit], besides: Lit, clause: &Clause) -> bool
    ensures { result ≡ is_subset (without lits.now besides) clause.now }
{
    for lit in lits {
        if *lit != besides && !clause.contains(*lit) {
            return false;
        }
    }
    true
}
