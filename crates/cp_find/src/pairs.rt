//! What the finders of pairs of clauses share.
ghost use Rattle.std.specs.Prelude.{◌≡◌, IfOk};

use cp_logic::{Clause, Named};
use cp_occ::Occurrence;
use std::alloc::AllocError;

// A second clause of the same literals, with its number.
pub(crate) fn named(number: u64, clause: &Clause) -> Result<Named, AllocError>
    ensures { IfOk result (λ c. c ≡ record { number = number; clause = clause.now }) }
{
    Ok(Named {
        number,
        clause: clause.again()?,
    })
}

// The same of a clause that a cell keeps.
pub(crate) fn owned(clause: &Occurrence) -> Result<Named, AllocError>
    ensures { IfOk result (λ c. c ≡ clause.now) }
{
    named(clause.number(), clause.clause())
}
