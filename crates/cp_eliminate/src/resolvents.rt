//! The resolvents of two lists of clauses on a variable: counted first, and then built.
ghost use Rattle.std.specs.Prelude.{◌≡◌, ◌≤◌, ◌<◌, ◌+◌, ◌++◌, nat_le, length, IsTrue, IfOk, OnOk, IfSome, IfNone};
ghost use Rattle.std.specs.List.{All};
ghost use Rattle.cp_logic.specs.Literals.{positive, negative};
ghost use Rattle.cp_logic.specs.Clauses.{contains};
ghost use Rattle.cp_logic.specs.Entries.{numbered_from};
ghost use Rattle.cp_logic.specs.Legality.{resolvents};
ghost use Rattle.cp_logic.specs.Resolvents.{resolvents_by};
ghost use Rattle.cp_eliminate.specs.Sides.{Has};

use cp_logic::{Lit, Named, NamedList};
use cp_occ::{Against, Lent};
use std::alloc::{AllocError, Global};

// Whether the resolvents of the two lists that are no tautologies are at most so many. It stops at the first one above.
pub(crate) fn are_at_most(pos: &[Lent<'_>], neg: &[Lent<'_>], var: u32, most: u128) -> bool
    requires low { 1 ≤ var }
    requires high { var ≤ 2000000 }
    ensures { result ≡ nat_le (length (resolvents var pos.now neg.now)) most }
{
    let lit = Lit::new(var, true);
    let mut left = most;
    for first in pos {
        let Some(rest) = left_after(first, neg, lit, left) else {
            return false;
        };
        left = rest;
    }
    true
}

// What is left of so many after one for each resolvent of the clause that is no tautology, or `None` where they are more.
fn left_after(clause: &Lent<'_>, neg: &[Lent<'_>], lit: Lit, most: u128) -> Option<u128>
    ensures some { IfSome result (λ left. left + length (resolvents_by lit clause.now.clause neg.now) ≡ most) }
    ensures none { IfNone result (most < length (resolvents_by lit clause.now.clause neg.now)) }
{
    let mut against = Against::new(clause.occurrence(), lit);
    let mut left = most;
    for other in neg {
        if !against.resolves_to_tautology(other.occurrence()) {
            left = left.checked_sub(1)?;
        }
    }
    Some(left)
}

// The resolvents of the two lists that are no tautologies, numbered from `next` on.
pub(crate) fn numbered_resolvents(
    alloc: Global,
    pos: &[Lent<'_>],
    neg: &[Lent<'_>],
    var: u32,
    next: u64,
) -> Result<NamedList, AllocError>
    requires low { 1 ≤ var }
    requires high { var ≤ 2000000 }
    requires have { All (Has (positive var)) pos.now }
    requires others_have { All (Has (negative var)) neg.now }
    ensures { IfOk result (λ new. new.items ≡ numbered_from next (resolvents var pos.now neg.now)) }
{
    let mut new = NamedList::new(alloc);
    for first in pos {
        add_resolvents(alloc, &mut new, first, neg, var, next)?;
    }
    Ok(new)
}

// Appends the resolvents of the clause that are no tautologies, where the list begins with the number `next`.
fn add_resolvents(
    alloc: Global,
    new: &mut NamedList,
    first: &Lent<'_>,
    neg: &[Lent<'_>],
    var: u32,
    next: u64,
) -> Result<(), AllocError>
    requires low { 1 ≤ var }
    requires high { var ≤ 2000000 }
    requires has { IsTrue (contains first.now.clause (positive var)) }
    requires others_have { All (Has (negative var)) neg.now }
    ensures { OnOk result (new.new.items ≡ new.old.items ++ numbered_from (next + length new.old.items) (resolvents_by (positive var) first.now.clause neg.now)) }
{
    let lit = Lit::new(var, true);
    let clause = first.clause();
    let mut against = Against::new(first.occurrence(), lit);
    for second in neg {
        let other = second.clause();
        if !against.resolves_to_tautology(second.occurrence()) {
            let number = next.checked_add(new.len() as u64).ok_or(AllocError)?;
            let built = clause.resolve(alloc, other, var)?;
            new.push(Named {
                number,
                clause: built,
            })?;
        }
    }
    Ok(())
}
