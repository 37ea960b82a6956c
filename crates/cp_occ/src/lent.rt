//! Clauses that a cell lends.
ghost use Rattle.std.specs.Prelude.{◌≡◌, IfOk};

use crate::occurrence::Occurrence;
use cp_logic::{Clause, Named};
use std::alloc::AllocError;
use std::marker::Model;

/// A clause that a cell lends, with its number, seen as the numbered clause.
#[derive(Drop)]
pub struct Lent<'a> {
    occurrence: &'a Occurrence,
}

impl<'a> Model for Lent<'a> {
    ghost use Rattle.cp_logic.specs.declared.named.Named.{Named};

    ghost Value = { Named };

    ghost view = { λ c. c.occurrence.now };
}

impl<'a> Lent<'a> {
    pub(crate) fn new(occurrence: &'a Occurrence) -> Lent<'a>
        ensures { result ≡ occurrence.now }
    {
        Lent { occurrence }
    }

    /// The clause.
    pub fn clause(&self) -> &'a Clause
        ensures { result.now ≡ self.now.clause }
    {
        self.occurrence.clause()
    }

    /// What the cell keeps of the clause.
    pub fn occurrence(&self) -> &'a Occurrence
        ensures { result.now ≡ self.now }
    {
        self.occurrence
    }

    /// A second clause of the same literals, with its number. The error comes only for want of memory.
    pub fn again(&self) -> Result<Named, AllocError>
        ensures { IfOk result (λ c. c ≡ self.now) }
    {
        Ok(Named {
            number: self.occurrence.number(),
            clause: self.occurrence.clause().again()?,
        })
    }
}
