//! Passes over two clauses at once, in ascending order. Those for a resolvent meet its literals, and only the first of them builds it.
ghost use Rattle.std.specs.Prelude.{◌≡◌, ◌<◌, ◌≤◌, length, slice_index_or, false, IfOk};
ghost use Rattle.cp_logic.specs.Clauses.{is_subset, is_tautology, resolvent, IsAscending};
ghost use Rattle.cp_logic.specs.Legality.{same_literals};

use crate::lits::Lit;
use smallvec::SmallVec;
use std::alloc::{AllocError, Global};

/// The literals of two clauses, of the first without the pivot and of the second without its negation.
pub(crate) fn merged(
    alloc: Global,
    left: &[Lit],
    right: &[Lit],
    pivot: Lit,
) -> Result<SmallVec<Lit, 4>, AllocError>
    requires left { IsAscending left.now }
    requires right { IsAscending right.now }
    ensures { IfOk result (λ list. list.items ≡ resolvent pivot left.now right.now) }
{
    let positive = pivot.code();
    let negative = pivot.negated().code();
    let mut all = SmallVec::new(alloc);
    let mut i = 0;
    let mut j = 0;
    while i < left.len() || j < right.len() {
        let first = code_at(left, i);
        let second = code_at(right, j);
        if first == positive {
            i += 1;
        } else if second == negative {
            j += 1;
        } else if first == second {
            all.push(left[i])?;
            i += 1;
            j += 1;
        } else if first < second {
            all.push(left[i])?;
            i += 1;
        } else {
            all.push(right[j])?;
            j += 1;
        }
    }
    Ok(all)
}

/// Whether the literals of two clauses, of the first without the pivot and of the second without its negation, have a variable in
/// both signs. In a merge its two literals are neighbours.
pub(crate) fn merges_to_tautology(left: &[Lit], right: &[Lit], pivot: Lit) -> bool
    requires left { IsAscending left.now }
    requires right { IsAscending right.now }
    ensures { result ≡ is_tautology (resolvent pivot left.now right.now) }
{
    let positive = pivot.code();
    let negative = pivot.negated().code();
    let mut i = 0;
    let mut j = 0;
    let mut last = 0;
    while i < left.len() || j < right.len() {
        let one = code_at(left, i);
        let other = code_at(right, j);
        if one == positive {
            i += 1;
        } else if other == negative {
            j += 1;
        } else {
            let least = if other < one { other } else { one };
            if least / 2 == last {
                return true;
            }
            last = least / 2;
            i += usize::from(one == least);
            j += usize::from(other == least);
        }
    }
    false
}

/// The same of two clauses that are no tautologies. Then a literal of the one has its negation in the other, beside it in their order.
///
/// If the left clause has the one and the right clause the other, neither clause has both. So where the lesser of the two is passed, the
/// other one is next on its side, and the step at which both are next sees them. Each step moves on without a branch on what it compares.
pub(crate) fn meets_negation(left: &[Lit], right: &[Lit], pivot: Lit) -> bool
    requires left { IsAscending left.now }
    requires right { IsAscending right.now }
    requires left_proper { is_tautology left.now ≡ false }
    requires right_proper { is_tautology right.now ≡ false }
    ensures { result ≡ is_tautology (resolvent pivot left.now right.now) }
{
    let positive = pivot.code();
    let mut i = 0;
    let mut j = 0;
    while i < left.len() && j < right.len() {
        let one = left[i].code();
        let other = right[j].code();
        if one / 2 == other / 2 && one != other && one != positive {
            return true;
        }
        i += usize::from(one <= other);
        j += usize::from(other <= one);
    }
    false
}

/// Whether the literals are those of the first clause without the pivot and of the second without its negation, in
/// ascending order.
pub(crate) fn is_merge(clause: &[Lit], left: &[Lit], right: &[Lit], pivot: Lit) -> bool
    requires left { IsAscending left.now }
    requires right { IsAscending right.now }
    ensures { result ≡ same_literals clause.now (resolvent pivot left.now right.now) }
{
    let positive = pivot.code();
    let negative = pivot.negated().code();
    let mut i = 0;
    let mut j = 0;
    let mut k = 0;
    while i < left.len() || j < right.len() {
        let one = code_at(left, i);
        let other = code_at(right, j);
        if one == positive {
            i += 1;
        } else if other == negative {
            j += 1;
        } else {
            if code_at(clause, k) != one.min(other) {
                return false;
            }
            k += 1;
            if one <= other {
                i += 1;
            }
            if other <= one {
                j += 1;
            }
        }
    }
    k == clause.len()
}

/// Whether each of the literals is among the others, by one pass over the others.
pub(crate) fn passes_over(lits: &[Lit], others: &[Lit]) -> bool
    requires ascending { IsAscending lits.now }
    requires others_ascending { IsAscending others.now }
    ensures { result ≡ is_subset lits.now others.now }
{
    if lits.len() > others.len() {
        return false;
    }
    let mut found = 0;
    for other in others {
        if found == lits.len() {
            return true;
        }
        let code = lits[found].code();
        if code < other.code() {
            return false;
        }
        if code == other.code() {
            found += 1;
        }
    }
    found == lits.len()
}

// The code of the literal at the index, or a number above all codes past the end.
fn code_at(lits: &[Lit], i: usize) -> u32
    ensures value { result ≡ slice_index_or lits.now i 4000002 }
    ensures low { i < length lits.now → result < 4000002 }
    ensures high { result ≤ 4000002 }
    ensures literal { 2 ≤ result }
{
    if i < lits.len() {
        lits[i].code()
    } else {
        2 * Lit::MOST_VARIABLES + 2
    }
}
