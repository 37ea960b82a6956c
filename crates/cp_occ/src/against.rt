//! One clause against many others.
//!
//! Whether a clause is blocked, and how many resolvents it has, is asked of one clause and one other after another. So what is found out
//! of the one is kept: a table of its literals' negations, in which a literal of another clause is looked up in one step.
ghost use Rattle.std.specs.Prelude.{◌≡◌, false};
ghost use Rattle.cp_logic.specs.Clauses.{is_tautology, resolvent};

use crate::occurrence::Occurrence;
use cp_logic::{Lit, Negations};
use std::marker::Model;

// Of so few literals in both clauses a pass costs no more than a table.
const FEW: usize = 16;

// A clause of so many times as many literals is not read for a table or by one, but searched for each literal of the shorter one.
const MANY_TIMES: usize = 8;

/// A clause that a cell lends, with a literal to resolve on, to be resolved with many others. The table is made at the first pair of
/// clauses that asks for one. It takes no memory.
#[derive(Drop)]
pub struct Against<'a> {
    occurrence: &'a Occurrence,
    lit: Lit,
    negations: Option<Negations<'a>>,
}

impl<'a> Model for Against<'a> {
    ghost use Rattle.cp_occ.specs.Against.{AgainstView, IsTableOf};

    ghost Value = { AgainstView };

    ghost view = { λ a. record { clause = a.occurrence.now.clause; literal = a.lit } };

    ghost invariant = { λ a. IsTableOf a.occurrence.now.clause a.negations };
}

impl<'a> Against<'a> {
    /// The clause, to be resolved on the literal. No literal is read yet.
    pub fn new(occurrence: &'a Occurrence, lit: Lit) -> Against<'a>
        ensures clause { result.clause ≡ occurrence.now.clause }
        ensures literal { result.literal ≡ lit }
    {
        Against {
            occurrence,
            lit,
            negations: None,
        }
    }

    /// Whether the resolvent of the clause on the literal, and of another on its negation, is a tautology. The bits exclude most pairs,
    /// and then no literal is read.
    pub fn resolves_to_tautology(&mut self, other: &Occurrence) -> bool
        ensures value { result ≡ is_tautology (resolvent self.old.literal self.old.clause other.now.clause) }
        ensures same { self.new ≡ self.old }
    {
        if self.occurrence.is_apart(other, self.lit) {
            return false;
        }
        if self.occurrence.is_tautology() || other.is_tautology() {
            let clause = self.occurrence.clause();
            return clause.resolves_to_tautology(other.clause(), self.lit);
        }
        self.clashes_with(other)
    }

    // The same of clauses that are no tautologies.
    fn clashes_with(&mut self, other: &Occurrence) -> bool
        requires proper { is_tautology self.old.clause ≡ false }
        requires other_proper { is_tautology other.now.clause ≡ false }
        ensures value { result ≡ is_tautology (resolvent self.old.literal self.old.clause other.now.clause) }
        ensures same { self.new ≡ self.old }
    {
        let clause = self.occurrence.clause();
        let others = other.clause().lits();
        if is_for_one_pair(clause.lits(), others) {
            return clause.clashes_with(other.clause(), self.lit);
        }
        if let Some(negations) = &self.negations {
            return negations.clash_with(others, self.lit);
        }
        let negations = Negations::of(clause.lits());
        let clash = negations.clash_with(others, self.lit);
        self.negations = Some(negations);
        clash
    }
}

// Whether it costs least to tell these two clauses without a table.
fn is_for_one_pair(lits: &[Lit], others: &[Lit]) -> bool {
    let (len, others) = (lits.len(), others.len());
    len + others <= FEW || len / MANY_TIMES > others || others / MANY_TIMES > len
}
