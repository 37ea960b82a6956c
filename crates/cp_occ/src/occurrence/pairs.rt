//! Tests on pairs of clauses by what is kept of them. No literal of a clause is read, and most pairs are excluded.
ghost use Rattle.std.specs.Prelude.{◌≡◌, List, ℕ, IsTrue, bit_and};
ghost use Rattle.cp_logic.specs.Literals.{negated};
ghost use Rattle.cp_logic.specs.Clauses.{contains, is_subset, without};
ghost use Rattle.cp_logic.specs.Signatures.{signature};

use crate::bits::bit_of;
use crate::occurrence::Occurrence;
use cp_logic::Lit;

impl Occurrence {
    /// The signature of the clause.
    pub fn signature(&self) -> u64
        ensures { result ≡ signature self.now.clause }
    {
        self.bits | bit_of(self.literal)
    }

    /// Bits that each clause has that has the literals of this one besides `lit`. They are its signature without `lit` if that is
    /// the literal that is kept, else none.
    pub fn bits_besides(&self, lit: Lit) -> u64
        ensures { (other : List ℕ) → IsTrue (is_subset (without self.now.clause lit) other) → bit_and result (signature other) ≡ result }
    {
        if self.literal == lit { self.bits } else { 0 }
    }

    /// Whether the clause may be a subset of the other one: false only if it isn't.
    pub fn may_subsume(&self, other: &Occurrence) -> bool
        ensures { IsTrue (is_subset self.now.clause other.now.clause) → IsTrue result }
    {
        if self.literal == other.literal {
            return self.bits & other.bits == self.bits;
        }
        other.tautology || self.literal != other.literal.negated()
    }

    /// Whether the other clause may have the negation of `lit` and this clause's literals besides `lit`: false only if it hasn't.
    pub fn may_strengthen(&self, other: &Occurrence, lit: Lit) -> bool
        ensures { IsTrue (contains other.now.clause (negated lit)) → IsTrue (is_subset (without self.now.clause lit) other.now.clause) → IsTrue result }
    {
        if self.tautology || other.tautology || self.literal != lit {
            return true;
        }
        if other.literal == lit.negated() {
            return self.bits & other.bits == self.bits;
        }
        other.literal != lit
    }
}
