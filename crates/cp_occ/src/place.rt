//! Places: clauses that are shared and never change.
ghost use Rattle.std.specs.Prelude.{◌≡◌, IfOk, IsOk, IfSome};
ghost use Rattle.cp_logic.specs.Clauses.{is_tautology};
ghost use Rattle.cp_occ.specs.Bits.{AreBits};

use crate::bits::Bits;
use cp_logic::Clause;
use std::alloc::{AllocError, Global};
use std::marker::Model;

/// A shared clause that never changes, seen as the clause. The literals go with their last place or clause.
///
/// A clause's literals stand behind std's `Arc`, so a place is a clause whose calls are those that share. Whether the clause is a
/// tautology, and the bits of its literals, are found once, at its first place.
#[derive(Drop)]
pub struct Place {
    shared: Clause,
    tautology: bool,
    bits: Option<Bits>,
}

impl Model for Place {
    ghost use Rattle.std.specs.Prelude.{◌≡◌, ℕ, List, IfSome};
    ghost use Rattle.cp_logic.specs.Clauses.{is_tautology};
    ghost use Rattle.cp_occ.specs.Bits.{AreBits};

    ghost Value = { List ℕ };

    ghost view = { λ p. p.shared };

    ghost invariant = { λ p. (p.tautology ≡ is_tautology p.shared) × IfSome p.bits (AreBits p.shared) };
}

impl Place {
    /// The first place of the clause. It takes no memory beside the clause's own, so it is never refused.
    pub fn new(_alloc: Global, clause: Clause) -> Result<Place, AllocError>
        ensures place { IfOk result (λ p. p ≡ clause) }
        ensures made { IsOk result }
    {
        let tautology = clause.is_tautology();
        let bits = Some(Bits::of(clause.lits()));
        Ok(Place {
            shared: clause,
            tautology,
            bits,
        })
    }

    /// The clause that stands here.
    pub fn clause(&self) -> &Clause
        ensures { result.now ≡ self.now }
    {
        &self.shared
    }

    /// A second place of the same clause. No literal is copied.
    pub fn again(&self) -> Result<Place, AllocError>
        ensures { IfOk result (λ p. p ≡ self.now) }
    {
        let shared = self.shared.again()?;
        Ok(Place {
            shared,
            tautology: self.tautology,
            bits: self.bits,
        })
    }

    // The place of the clause, of which it is known whether it is a tautology.
    pub(crate) fn known(shared: Clause, tautology: bool) -> Place
        requires { tautology ≡ is_tautology shared }
        ensures { result ≡ shared }
    {
        Place {
            shared,
            tautology,
            bits: None,
        }
    }

    // The bits of the clause. They are known, unless a cell gave the place back: then the clause is read.
    pub(crate) fn bits(&self) -> Bits
        ensures { AreBits self.now result }
    {
        match self.bits {
            Some(bits) => bits,
            None => Bits::of(self.shared.lits()),
        }
    }

    // Whether the clause is a tautology. No literal is read.
    pub(crate) fn is_tautology(&self) -> bool
        ensures { result ≡ is_tautology self.now }
    {
        self.tautology
    }

    // The clause.
    pub(crate) fn into_clause(self) -> Clause
        ensures { result ≡ self }
    {
        self.shared
    }
}
