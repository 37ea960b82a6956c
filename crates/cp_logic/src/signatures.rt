//! Signatures: 64 bits of a clause, one set for each of its literals.
//!
//! A clause that is a subset of another has no bit that the other lacks, so one operation on two numbers may exclude a pair before a
//! literal is read. As in SatELite (Een and Biere, SAT 2005, "Effective Preprocessing in SAT through Variable and Clause
//! Elimination") and MiniSat's `Clause::calcAbstraction`. Those take the variable's low bits; here the variable is multiplied
//! first, since the variables of an encoded problem often stand at distances that are multiples of a power of two.
//!
//! A variable has a pair of bits, one for each sign. So the signature of a clause's negations is its own with the two bits of each
//! pair exchanged, and where that has no bit of another clause's signature, the two clauses have no literal to resolve on.
ghost use Rattle.std.specs.Prelude.{◌≡◌, ◌<◌, ℕ, List, false, IsTrue, bit_and};
ghost use Rattle.cp_logic.specs.Literals.{negated};
ghost use Rattle.cp_logic.specs.Clauses.{is_subset, is_tautology, without, resolvent};
ghost use Rattle.cp_logic.specs.Signatures.{bit_of, signature, opposite};

use crate::lits::Lit;

// The lower bit of each pair.
const LOWER: u64 = 0x5555_5555_5555_5555;

/// The signature of the clause of these literals. It has each bit of the signature of a clause that is a subset of this one.
pub fn signature(lits: &[Lit]) -> u64
    ensures value { result ≡ signature lits.now }
    ensures subset { (clause : List ℕ) → IsTrue (is_subset clause lits.now) → bit_and (signature clause) result ≡ signature clause }
{
    let mut bits = 0;
    for lit in lits {
        bits |= 1 << bit_of(*lit);
    }
    bits
}

/// The signature of the negations of the literals of this one. Where this is that of a clause without a literal, and the result has no
/// bit of that of another clause without the literal's negation, the resolvent on the literal is no tautology, if neither clause is.
pub fn opposite(bits: u64) -> u64
    ensures value { result ≡ opposite bits }
    ensures apart { (l : ℕ) (clause other : List ℕ) → is_tautology clause ≡ false → is_tautology other ≡ false → bits ≡ signature (without clause l)
        → bit_and result (signature (without other (negated l))) ≡ 0 → is_tautology (resolvent l clause other) ≡ false }
{
    ((bits & LOWER) << 1) | ((bits >> 1) & LOWER)
}

// The place of the literal's bit.
fn bit_of(lit: Lit) -> u64
    ensures value { result ≡ bit_of lit }
    ensures within { result < 64 }
{
    let spread = u64::from(lit.var()) * 2_654_435_769;
    let pair = (spread >> 27) % 32;
    2 * pair + u64::from(lit.code() % 2)
}
