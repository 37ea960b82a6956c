//! Calls with ample memory. What an entry does to the cells is seen in the runs above this crate.
ghost use Rattle.std.specs.Prelude.{◌≡◌};
ghost use Rattle.cp_logic.specs.Clauses.{has_variable};

use crate::{Against, Cell, Cells, Occurrence, Place};
use cp_logic::{Choice, Clause, Formula, Lit, Rules};
use std::alloc::{AllocError, Global};
use std::test::Fail;

#[test]
fn places_read_their_clauses(rt: HostRuntime) -> Result<(), Fail> {
    let one = Lit::new(1, true);
    let not_two = Lit::new(2, false);
    let pair = [one, not_two];
    let nothing: &[Lit] = &[];
    let place = Place::new(rt.alloc(), Clause::from_lits(rt.alloc(), pair.as_slice())?)?;
    let empty = Place::new(rt.alloc(), Clause::from_lits(rt.alloc(), nothing)?)?;
    assert_eq!(rt; place.clause().lits(), pair.as_slice());
    assert_eq!(rt; empty.clause().lits(), nothing);
    assert_eq!(rt; place.again()?.clause().lits(), pair.as_slice());
    Ok(())
}

#[test]
fn cells_are_gone_over_by_literal(rt: HostRuntime) -> Result<(), Fail> {
    let pair = [Lit::new(1, true), Lit::new(2, false)];
    let clause = Clause::from_lits(rt.alloc(), pair.as_slice())?;
    let mut cell = Cell::new(rt.alloc(), 2);
    cell.reserve(1)?;
    cell.insert(5, Place::new(rt.alloc(), clause)?);
    assert_eq!(rt; (cell.var(), cell.len()), (2, 1));
    assert_eq!(rt; (cell.pos().count(), cell.neg().count()), (0, 1));
    assert_eq!(rt; cell.get(0).map(|found| found.0), Some(5));
    assert!(rt; cell.remove(5).is_some());
    assert!(rt; cell.is_empty());
    Ok(())
}

#[test]
fn one_clause_is_asked_against_many(rt: HostRuntime) -> Result<(), Fail> {
    let clause: &[i32] = &[1, 2, 3, 4, 5, 6, 7, 8, 9, 10, 11, 12];
    let others: [(&[i32], bool); 4] = [
        (&[-1, -12, 21, 22, 23, 24, 25, 26, 27, 28], true),
        (&[-1, -21, -22, -23, -24, -25, -26, -27, -28], false),
        (&[-1, 12, 13, -14], false),
        (&[-1, -2], true),
    ];
    let first = occurrence_of(rt.alloc(), clause)?;
    let mut against = Against::new(&first, Lit::new(1, true));
    for (literals, expected) in others {
        let other = occurrence_of(rt.alloc(), literals)?;
        assert_eq!(rt; against.resolves_to_tautology(&other), expected);
    }
    Ok(())
}

#[test]
fn cells_are_silent_until_a_clause_comes(rt: HostRuntime) -> Result<(), Fail> {
    let choice = Choice {
        t: true,
        s: true,
        x: true,
        b: true,
        e: true,
    };
    let rules = Rules {
        choice,
        bound: 0,
        budget: 0,
    };
    let wider = Rules {
        choice,
        bound: 1,
        budget: 0,
    };
    let pair = [Lit::new(1, true), Lit::new(2, false)];
    let clause = Clause::from_lits(rt.alloc(), pair.as_slice())?;
    let mut cell = Cell::new(rt.alloc(), 2);
    assert!(rt; !cell.is_silent(&rules));
    cell.settle(&rules);
    cell.reserve(1)?;
    assert!(rt; cell.is_silent(&rules) && !cell.is_silent(&wider));
    cell.insert(5, Place::new(rt.alloc(), clause)?);
    assert!(rt; !cell.is_silent(&rules));
    Ok(())
}

#[test]
fn cells_are_pushed_and_popped(rt: HostRuntime) -> Result<(), Fail> {
    let mut cells = Cells::new(rt.alloc());
    cells.push(Cell::new(rt.alloc(), 7))?;
    cells.reserve(1)?;
    cells.push_reserved(Cell::new(rt.alloc(), 8));
    assert_eq!(rt; cells.len(), 2);
    assert_eq!(rt; cells.get(1).map(|cell| cell.var()), Some(8));
    assert!(rt; cells.get_mut(0).is_some());
    assert_eq!(rt; cells.pop().map(|cell| cell.var()), Some(8));
    Ok(())
}

#[test]
fn cells_list_the_clauses_of_their_variables(rt: HostRuntime) -> Result<(), Fail> {
    let pair = [Lit::new(1, true), Lit::new(3, false)];
    let clause = Clause::from_lits(rt.alloc(), pair.as_slice())?;
    let mut formula = Formula::new(rt.alloc(), 3, 5);
    formula.push(clause)?;
    let cells = Cells::of_formula(rt.alloc(), &formula)?;
    let lengths = [1, 0, 1];
    let mut seen = Vec::new(rt.alloc());
    for cell in cells.iter() {
        seen.push(cell.len())?;
    }
    assert_eq!(rt; seen.as_slice(), lengths.as_slice());
    Ok(())
}

// The occurrence in the cell of variable 1 of the clause of these literals, as DIMACS writes them. They have the variable.
fn occurrence_of(alloc: Global, literals: &[i32]) -> Result<Occurrence, AllocError> {
    let mut lits = Vec::new(alloc);
    for literal in literals {
        let var = literal.unsigned_abs().max(1).min(2_000_000);
        lits.push(Lit::new(var, *literal > 0))?;
    }
    let clause = Clause::from_lits(alloc, lits.as_slice())?;
    if has_variable(&clause, 1) {
        return Ok(Occurrence::new(1, Place::new(alloc, clause)?, 1));
    }
    Err(AllocError)
}

fn has_variable(clause: &Clause, var: u32) -> bool
    ensures { result ≡ has_variable var clause.now }
{
    clause.lits().iter().any(|lit| lit.var() == var)
}
