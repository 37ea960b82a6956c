//! Blocked clauses: where each resolvent of a clause on one of its literals is a tautology, the clause has no say in whether the
//! others can be satisfied, and goes. A model of the others that makes it false is repaired by making that literal true.
//!
//! Kullmann ("On a generalization of extended resolution", Discrete Applied Mathematics 96-97, 1999) has the notion. Järvisalo,
//! Biere and Heule ("Blocked Clause Elimination", TACAS 2010) made it a step before solving, and showed that on clauses of circuits
//! it does what simplifications of the circuit itself do. CaDiCaL's `block.cpp` keeps the candidates and the clauses of each literal,
//! marks the literals of a candidate, and looks at the clauses with the negation until a resolvent is no tautology. It moves that
//! clause to the front, where it soon refutes the next candidate.
//!
//! Here one cell is searched: each clause that has a part in a resolvent on the variable has the variable, so whoever holds it holds
//! them all. The answer is the least clause that is blocked, so clauses are looked at by ascending numbers, and no order is learnt.
//! A clause has one literal of the variable to be blocked on, for a cell with a tautology is left alone: the tautology goes first, by
//! an entry of its own. The bits that the cell keeps exclude most pairs, and the others are told by marks of the candidate's negations,
//! which are made once they are asked for. The clauses of each sign are listed by the caller, once for all kinds of entries.
ghost use Rattle.std.specs.Prelude.{◌≡◌, ◌≤◌, IfOk, if◌then◌else◌};
ghost use Rattle.std.specs.List.{list_all};
ghost use Rattle.std.specs.Option.{option_map};
ghost use Rattle.cp_logic.specs.Literals.{is_positive};
ghost use Rattle.cp_logic.specs.Clauses.{is_tautology, resolvent};
ghost use Rattle.cp_logic.specs.Legality.{blocks, first_of_kind};
ghost use Rattle.cp_logic.specs.Views.{entry_of};
ghost use Rattle.cp_blocked.specs.Finds.{literal_at};

use cp_logic::{Entry, Lit, Named};
use cp_occ::{Against, Lent, Occurrence, Sides};
use std::alloc::AllocError;

/// The clause of the least number that is blocked on its literal of the cell's variable, with that literal, or `None` where there is
/// none. Where a clause of the cell is a tautology, none counts as blocked.
///
/// The error comes only for want of memory.
pub fn first_blocked(sides: &Sides<'_>) -> Result<Option<Entry>, AllocError>
    ensures { IfOk result (λ o. option_map entry_of o ≡ first_of_kind sides.now.variable sides.now.clauses (blocks sides.now.clauses)) }
{
    let cell = sides.cell();
    let var = cell.var();
    if cell.has_tautology() {
        return Ok(None);
    }
    for first in cell.occurrences() {
        let lit = literal_at(first, var);
        let others = clauses_against(sides.pos(), sides.neg(), lit);
        if is_blocked(first, others, lit) {
            let number = first.number();
            let clause = first.clause().again()?;
            let gone = Named { number, clause };
            return Ok(Some(Entry::Block { gone, lit }));
        }
    }
    Ok(None)
}

// The literal of the variable in a clause that has the variable in one sign.
fn literal_at(clause: &Occurrence, var: u32) -> Lit
    requires low { 1 ≤ var }
    requires high { var ≤ 2000000 }
    ensures { result ≡ literal_at var clause.now.clause }
{
    let positive = Lit::new(var, true);
    if clause.has(positive) {
        positive
    } else {
        positive.negated()
    }
}

// Of the clauses with the variable and those with its negation, those with the negation of the literal.
fn clauses_against<'l, 'a>(pos: &'l [Lent<'a>], neg: &'l [Lent<'a>], lit: Lit) -> &'l [Lent<'a>]
    ensures { result.now ≡ (if is_positive lit then neg.now else pos.now) }
{
    if lit.is_positive() { neg } else { pos }
}

// Whether each resolvent of the clause with one of the others, on the literal, is a tautology.
fn is_blocked(clause: &Occurrence, others: &[Lent<'_>], lit: Lit) -> bool
    ensures { result ≡ list_all (λ d. is_tautology (resolvent lit clause.now.clause d.clause)) others.now }
{
    let mut against = Against::new(clause, lit);
    for other in others {
        if !against.resolves_to_tautology(other.occurrence()) {
            return false;
        }
    }
    true
}
