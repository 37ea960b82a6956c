//! Occurrences: what a cell keeps of each clause.
ghost use Rattle.std.specs.Prelude.{◌≡◌, ◌≤◌, false, IsTrue};
ghost use Rattle.cp_logic.specs.Literals.{positive};
ghost use Rattle.cp_logic.specs.Clauses.{contains, has_variable, is_tautology, resolvent, IsAscending};

use crate::place::Place;
use cp_logic::{Clause, Lit, opposite};
use std::marker::Model;

mod pairs;

/// A clause with its number, seen as the numbered clause.
///
/// It keeps a literal that the clause has, and whether the clause is a tautology. If it isn't, it hasn't the literal's negation. So which
/// clauses have a literal of the cell's variable, and which are tautologies, is told without reading a clause. It also keeps the
/// signature of the clause without that literal, which tells of most pairs of clauses that they clash at no other variable.
#[derive(Drop)]
pub struct Occurrence {
    number: u64,
    clause: Clause,
    bits: u64,
    literal: Lit,
    tautology: bool,
}

impl Model for Occurrence {
    ghost use Rattle.cp_logic.specs.declared.named.Named.{Named};
    ghost use Rattle.cp_occ.specs.Cells.{IsSided};

    ghost Value = { Named };

    ghost view = { λ o. record { number = o.number; clause = o.clause } };

    ghost invariant = { λ o. IsSided o.clause o.literal o.tautology o.bits };
}

impl Occurrence {
    /// The occurrence of the clause in the cell of a variable that it has. The literal is found by a binary search.
    pub(crate) fn new(number: u64, place: Place, var: u32) -> Occurrence
        requires low { 1 ≤ var }
        requires high { var ≤ 2000000 }
        requires has { IsTrue (has_variable var place) }
        ensures { result ≡ record { number = number; clause = place } }
    {
        let literal = literal_at(place.clause(), var);
        let tautology = place.is_tautology();
        let bits = place.bits().without(literal);
        Occurrence {
            number,
            clause: place.into_clause(),
            bits,
            literal,
            tautology,
        }
    }

    /// The number of the clause.
    pub fn number(&self) -> u64
        ensures { result ≡ self.now.number }
    {
        self.number
    }

    /// The clause.
    pub fn clause(&self) -> &Clause
        ensures { result.now ≡ self.now.clause }
    {
        &self.clause
    }

    /// Whether the clause is a tautology. No literal is read.
    pub(crate) fn is_tautology(&self) -> bool
        ensures { result ≡ is_tautology self.now.clause }
    {
        self.tautology
    }

    /// Whether the clause has the literal. No literal of it is read, unless it is a tautology or the literal is of another variable.
    pub fn has(&self, lit: Lit) -> bool
        ensures { result ≡ contains self.now.clause lit }
    {
        if self.literal == lit {
            return true;
        }
        if !self.tautology && self.literal == lit.negated() {
            return false;
        }
        self.clause.contains(lit)
    }

    /// Whether the bits tell that the resolvent of this clause on the literal, and of another on its negation, is no tautology. No
    /// literal is read.
    pub(crate) fn is_apart(&self, other: &Occurrence, lit: Lit) -> bool
        ensures { IsTrue result → is_tautology (resolvent lit self.now.clause other.now.clause) ≡ false }
    {
        if self.tautology || other.tautology {
            return false;
        }
        if self.literal != lit || other.literal != lit.negated() {
            return false;
        }
        opposite(self.bits) & other.bits == 0
    }

    pub(crate) fn into_place(self) -> Place
        ensures { result ≡ self.clause }
    {
        Place::known(self.clause, self.tautology)
    }
}

// A literal of the variable that the clause has.
fn literal_at(clause: &Clause, var: u32) -> Lit
    requires low { 1 ≤ var }
    requires high { var ≤ 2000000 }
    requires has { IsTrue (has_variable var clause.now) }
    ensures { IsTrue (contains clause.now result) }
{
    let positive = Lit::new(var, true);
    if has(clause.lits(), positive) {
        return positive;
    }
    positive.negated()
}

// Whether the literal is among these, by a binary search.
fn has(lits: &[Lit], lit: Lit) -> bool
    requires { IsAscending lits.now }
    ensures { result ≡ contains lits.now lit }
{
    lits.binary_search(&lit).is_ok()
}
