//! Second clauses of those that a cell lends.
ghost use Rattle.std.specs.Prelude.{◌≡◌, IfOk};

use cp_logic::NamedList;
use cp_occ::Lent;
use std::alloc::{AllocError, Global};

// A second clause of each, with its number.
pub(crate) fn seconds(alloc: Global, clauses: &[Lent<'_>]) -> Result<NamedList, AllocError>
    ensures { IfOk result (λ list. list.items ≡ clauses.now) }
{
    let mut list = NamedList::new(alloc);
    list.reserve(clauses.len())?;
    for clause in clauses {
        list.push(clause.again()?)?;
    }
    Ok(list)
}
