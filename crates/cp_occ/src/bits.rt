//! The bits of clauses, and those of clauses without one of their literals.
//!
//! The signature of a clause without its literal of a variable tells which clauses it can clash with besides that variable (see
//! `signatures` of the crate below). A cell keeps it for each of its clauses, and a clause comes to as many cells as it has variables.
//! So the clause is passed over once, and what is found then gives the signature without any of its literals in constant time. A
//! literal that shares its bit with another one leaves the bit set, so the bits that two or more literals have are kept besides.
ghost use Rattle.std.specs.Prelude.{◌≡◌, ◌^◌, List, ℕ, IsTrue};
ghost use Rattle.cp_logic.specs.Clauses.{contains, without, IsAscending};
ghost use Rattle.cp_logic.specs.Signatures.{bit_of, signature};
ghost use Rattle.cp_occ.specs.Bits.{AreBits};

use cp_logic::{Lit, signature};

/// The bits that some literal of a clause has, and those that two or more have.
#[derive(Clone, Copy)]
pub(crate) struct Bits {
    once: u64,
    twice: u64,
}

impl Bits {
    // The bits of these literals.
    pub(crate) fn of(lits: &[Lit]) -> Bits
        ensures { AreBits lits.now result }
    {
        let mut once = 0;
        let mut twice = 0;
        for lit in lits {
            let bit = bit_of(*lit);
            twice |= once & bit;
            once |= bit;
        }
        Bits { once, twice }
    }

    // The signature of the clause without the literal, which it has. No literal is read.
    pub(crate) fn without(self, lit: Lit) -> u64
        ensures { (clause : List ℕ) → AreBits clause self → IsAscending clause → IsTrue (contains clause lit) → result ≡ signature (without clause lit) }
    {
        let bit = bit_of(lit);
        if self.twice & bit == 0 {
            self.once ^ bit
        } else {
            self.once
        }
    }
}

// The bit of the literal.
pub(crate) fn bit_of(lit: Lit) -> u64
    ensures { result ≡ 2 ^ bit_of lit }
{
    signature([lit].as_slice())
}
