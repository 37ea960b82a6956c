//! Literals that are searched in a clause. Where a clause is long, a binary search reads few of its literals, and a pass most of them.
ghost use Rattle.std.specs.Prelude.{◌≡◌, false};
ghost use Rattle.cp_logic.specs.Literals.{negated};
ghost use Rattle.cp_logic.specs.Clauses.{contains, is_subset, is_tautology, resolvent, has_negation, IsAscending};

use crate::lits::Lit;
use crate::passes::{meets_negation, passes_over};

// A pass over so few literals costs no more than a search.
const FEW: usize = 8;

// Among so many times as many literals, a search for each of a clause costs less than a pass.
const MANY_TIMES: usize = 8;

/// Whether the literal is one of the others.
pub(crate) fn contains(others: &[Lit], lit: Lit) -> bool
    requires { IsAscending others.now }
    ensures { result ≡ contains others.now lit }
{
    if others.len() > FEW {
        is_found(others, lit)
    } else {
        is_met(others, lit)
    }
}

// The same by a search.
fn is_found(others: &[Lit], lit: Lit) -> bool
    requires { IsAscending others.now }
    ensures { result ≡ contains others.now lit }
{
    others.binary_search(&lit).is_ok()
}

// The same by a pass, which ends at the first literal that is not below.
fn is_met(others: &[Lit], lit: Lit) -> bool
    requires { IsAscending others.now }
    ensures { result ≡ contains others.now lit }
{
    let code = lit.code();
    for other in others {
        if other.code() >= code {
            return other.code() == code;
        }
    }
    false
}

/// Whether each of the literals is among the others, both in ascending order. It takes one pass over the others, or a search among
/// them for each of the literals where they are much more.
pub fn is_subset(lits: &[Lit], others: &[Lit]) -> bool
    requires ascending { IsAscending lits.now }
    requires others_ascending { IsAscending others.now }
    ensures { result ≡ is_subset lits.now others.now }
{
    if others.len() / MANY_TIMES > lits.len() {
        are_found(lits, others)
    } else {
        passes_over(lits, others)
    }
}

// The same by a search for each of the literals.
fn are_found(lits: &[Lit], others: &[Lit]) -> bool
    requires { IsAscending others.now }
    ensures { result ≡ is_subset lits.now others.now }
{
    for lit in lits {
        if !is_found(others, *lit) {
            return false;
        }
    }
    true
}

/// Whether the resolvent of two clauses that are no tautologies, of the first one on the pivot and of the second one on its negation,
/// is a tautology. Then a literal of the one has its negation in the other, so the longer one need not be read where it is much longer.
pub(crate) fn clashes(left: &[Lit], right: &[Lit], pivot: Lit) -> bool
    requires left { IsAscending left.now }
    requires right { IsAscending right.now }
    requires left_proper { is_tautology left.now ≡ false }
    requires right_proper { is_tautology right.now ≡ false }
    ensures { result ≡ is_tautology (resolvent pivot left.now right.now) }
{
    if right.len() / MANY_TIMES > left.len() {
        has_negation(left, pivot, right)
    } else if left.len() / MANY_TIMES > right.len() {
        has_negation(right, pivot.negated(), left)
    } else {
        meets_negation(left, right, pivot)
    }
}

// Whether one of the literals other than the pivot has its negation among the others.
fn has_negation(lits: &[Lit], pivot: Lit, others: &[Lit]) -> bool
    requires { IsAscending others.now }
    ensures { result ≡ has_negation lits.now pivot others.now }
{
    for lit in lits {
        if *lit != pivot && is_found(others, lit.negated()) {
            return true;
        }
    }
    false
}
