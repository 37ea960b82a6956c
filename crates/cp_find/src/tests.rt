//! The finders on the cell of the variable 1 of small formulas.
ghost use Rattle.std.specs.Prelude.{◌≡◌};
ghost use Rattle.cp_logic.specs.Clauses.{has_variable};

use crate::{first_strengthened, first_subsumed, first_taut, signature};
use cp_logic::{Clause, Entry, Lit, Named};
use cp_occ::{Cell, Place};
use std::alloc::{AllocError, Global};
use std::process::Abort;
use std::test::Fail;

// The text of what was found.
fn assert_found(
    rt: &impl Abort,
    alloc: Global,
    found: Option<Entry>,
    expected: &str,
) -> Result<(), Fail> {
    let text = text_of(alloc, &found)?;
    assert_eq!(rt; text.as_str(), expected);
    Ok(())
}

#[test]
fn tautologies(rt: HostRuntime) -> Result<(), Fail> {
    let rows: [(&[&[i32]], &str); 3] = [
        (&[&[1, -1, 2]], "Taut{1:{1,-1,2}}"),
        (&[&[1, 2], &[2, -2, 1], &[1, -1]], "Taut{2:{1,2,-2}}"),
        (&[&[1, 2], &[-1, 2]], "None"),
    ];
    for (clauses, expected) in rows {
        let cell = cell_of(rt.alloc(), clauses)?;
        let found = first_taut(rt.alloc(), &cell, 4)?;
        assert_found(&rt, rt.alloc(), found, expected)?;
    }
    Ok(())
}

#[test]
fn subsumed_clauses(rt: HostRuntime) -> Result<(), Fail> {
    let rows: [(&[&[i32]], &str); 4] = [
        (&[&[1, 2], &[2, 1]], "Subsume{1:{1,2}, 2:{1,2}}"),
        (&[&[1, 2, 3], &[3, 1]], "Subsume{2:{1,3}, 1:{1,2,3}}"),
        (&[&[1, 4], &[1], &[1, 3]], "Subsume{2:{1}, 1:{1,4}}"),
        (&[&[1, 2], &[1, 3], &[-1, 2, 3]], "None"),
    ];
    for (clauses, expected) in rows {
        let cell = cell_of(rt.alloc(), clauses)?;
        let found = first_subsumed(rt.alloc(), &cell, 4)?;
        assert_found(&rt, rt.alloc(), found, expected)?;
    }
    Ok(())
}

#[test]
fn strengthened_clauses(rt: HostRuntime) -> Result<(), Fail> {
    let rows: [(&[&[i32]], u64, &str); 6] = [
        (&[&[1], &[-1]], 3, "Strengthen{1:{1}, 2:{-1}, -1, 3:{}}"),
        (
            &[&[1], &[-1, 2], &[-2, 3]],
            4,
            "Strengthen{1:{1}, 2:{-1,2}, -1, 4:{2}}",
        ),
        (
            &[&[1, 2], &[-1, 2]],
            3,
            "Strengthen{1:{1,2}, 2:{-1,2}, -1, 3:{2}}",
        ),
        (
            &[&[-1, 2], &[1, -1, 2]],
            3,
            "Strengthen{1:{-1,2}, 2:{1,-1,2}, 1, 3:{-1,2}}",
        ),
        (&[&[1, -1], &[1, -1, 2]], 3, "None"),
        (&[&[1, 2], &[-1, 3]], 3, "None"),
    ];
    for (clauses, next, expected) in rows {
        let cell = cell_of(rt.alloc(), clauses)?;
        let found = first_strengthened(rt.alloc(), &cell, next)?;
        assert_found(&rt, rt.alloc(), found, expected)?;
    }
    Ok(())
}

#[test]
fn signatures_of_subsets(rt: HostRuntime) -> Result<(), Fail> {
    let rows: [(&[i32], &[i32], bool); 4] = [
        (&[], &[1], true),
        (&[2], &[-1, 2, 3], true),
        (&[-1, 3], &[-1, 2, 3], true),
        (&[1], &[-1, 2, 3], false),
    ];
    for (literals, others, expected) in rows {
        let clause = clause_of(rt.alloc(), literals)?;
        let other = clause_of(rt.alloc(), others)?;
        assert_signatures(&rt, &clause, &other, expected);
    }
    Ok(())
}

// Whether the signature of the clause is within that of the other.
fn assert_signatures(rt: &impl Abort, clause: &Clause, other: &Clause, expected: bool) {
    let bits = signature(clause.lits());
    assert_eq!(rt; bits & signature(other.lits()) == bits, expected);
}

// Cells of 40 to 118 clauses, so short and long ones, of few and of many variables.
#[test]
fn the_plain_search_finds_the_same(rt: HostRuntime) -> Result<(), Fail> {
    for row in 0..40 {
        let cell = mixed_cell(rt.alloc(), row, 40 + 2 * row, 6 + row)?;
        let subsumed = first_subsumed(rt.alloc(), &cell, 4)?;
        assert_numbers(&rt, subsumed, plain_subsumed(&cell));
        let strengthened = first_strengthened(rt.alloc(), &cell, 4)?;
        assert_numbers(&rt, strengthened, plain_strengthened(rt.alloc(), &cell)?);
    }
    Ok(())
}

fn assert_numbers(rt: &impl Abort, found: Option<Entry>, plain: Option<(u64, u64)>) {
    assert_eq!(rt; numbers_of(&found), plain);
}

// The cell of the variable 1, of so many clauses of three to five literals, drawn from so many variables.
fn mixed_cell(alloc: Global, seed: u32, clauses: u32, vars: u32) -> Result<Cell, AllocError> {
    let mut cell = Cell::new(alloc, 1);
    let mut state = seed;
    for i in 0..clauses {
        let clause = mixed_clause(alloc, &mut state, 2 + i % 3, vars)?;
        if has_one(&clause) {
            let place = Place::new(alloc, clause)?;
            cell.reserve(1)?;
            cell.insert(u64::from(i) + 1, place);
        }
    }
    Ok(cell)
}

// A clause of a literal of the variable 1 and of so many others, drawn from so many variables.
fn mixed_clause(
    alloc: Global,
    state: &mut u32,
    others: u32,
    vars: u32,
) -> Result<Clause, AllocError> {
    let mut lits = Vec::new(alloc);
    let mut last = drawn(*state);
    lits.push(Lit::new(1, last & 1024 == 0))?;
    for _k in 0..others {
        last = drawn(last);
        let var = 2 + last / 65_536 % vars.max(1).min(1000);
        lits.push(Lit::new(var, last & 1024 == 0))?;
    }
    *state = last;
    Clause::from_lits(alloc, lits.as_slice())
}

// The next number of a sequence that looks random.
fn drawn(state: u32) -> u32 {
    state.wrapping_mul(1_664_525).wrapping_add(1_013_904_223)
}

// The numbers of the two clauses of a pair.
fn numbers_of(found: &Option<Entry>) -> Option<(u64, u64)> {
    match found {
        Some(Entry::Subsume { by, gone }) => Some((by.number, gone.number)),
        Some(Entry::Strengthen { by, on, .. }) => Some((by.number, on.number)),
        _ => None,
    }
}

// The first pair of clauses of which one is a subset of the other, by comparing all.
fn plain_subsumed(cell: &Cell) -> Option<(u64, u64)> {
    for (number, by) in cell.iter() {
        for (other, gone) in cell.iter() {
            if number != other && by.subset_of(gone) {
                return Some((number, other));
            }
        }
    }
    None
}

// The first pair of clauses of which one takes a literal of the variable 1 from the other, by comparing all.
fn plain_strengthened(alloc: Global, cell: &Cell) -> Result<Option<(u64, u64)>, AllocError> {
    for (number, by) in cell.iter() {
        for (other, on) in cell.iter() {
            let positive = Lit::new(1, true);
            if number != other
                && (takes(alloc, by, on, positive)? || takes(alloc, by, on, positive.negated())?)
            {
                return Ok(Some((number, other)));
            }
        }
    }
    Ok(None)
}

// Whether the first clause takes the literal from the second.
fn takes(alloc: Global, by: &Clause, on: &Clause, lit: Lit) -> Result<bool, AllocError> {
    if !on.contains(lit) || !by.contains(lit.negated()) {
        return Ok(false);
    }
    let rest = by.without(alloc, lit.negated())?;
    let left = on.without(alloc, lit)?;
    Ok(rest.subset_of(&left))
}

// The cell of the variable 1, of these clauses numbered from 1 on.
fn cell_of(alloc: Global, clauses: &[&[i32]]) -> Result<Cell, AllocError> {
    let mut cell = Cell::new(alloc, 1);
    for (i, literals) in clauses.iter().enumerate() {
        let clause = clause_of(alloc, literals)?;
        if has_one(&clause) {
            let place = Place::new(alloc, clause)?;
            cell.reserve(1)?;
            cell.insert(i as u64 + 1, place);
        }
    }
    Ok(cell)
}

fn has_one(clause: &Clause) -> bool
    ensures { result ≡ has_variable 1 clause.now }
{
    clause.lits().iter().any(|lit| lit.var() == 1)
}

fn clause_of(alloc: Global, literals: &[i32]) -> Result<Clause, AllocError> {
    let mut lits = Vec::new(alloc);
    for literal in literals {
        let var = literal.unsigned_abs().max(1).min(2_000_000);
        lits.push(Lit::new(var, *literal > 0))?;
    }
    Clause::from_lits(alloc, lits.as_slice())
}

fn subsume_text(alloc: Global, by: &Named, gone: &Named) -> Result<String, AllocError> {
    let by = named_text(alloc, by)?;
    let gone = named_text(alloc, gone)?;
    format!(in alloc; "Subsume{{{by}, {gone}}}")
}

fn strengthen_text(alloc: Global, clauses: [&Named; 3], lit: Lit) -> Result<String, AllocError> {
    let [by, on, new] = clauses;
    let by = named_text(alloc, by)?;
    let on = named_text(alloc, on)?;
    let new = named_text(alloc, new)?;
    let lit = lit.to_i64();
    format!(in alloc; "Strengthen{{{by}, {on}, {lit}, {new}}}")
}

// What was found, as it is written in a journal.
fn text_of(alloc: Global, found: &Option<Entry>) -> Result<String, AllocError> {
    match found {
        None => String::from_str(alloc, "None"),
        Some(Entry::Taut { gone }) => {
            let gone = named_text(alloc, gone)?;
            format!(in alloc; "Taut{{{gone}}}")
        }
        Some(Entry::Subsume { by, gone }) => subsume_text(alloc, by, gone),
        Some(Entry::Strengthen { by, on, lit, new }) => {
            strengthen_text(alloc, [by, on, new], *lit)
        }
        Some(_) => String::from_str(alloc, "another kind"),
    }
}

fn push_literal(alloc: Global, text: &mut String, lit: Lit) -> Result<(), AllocError> {
    let literal = lit.to_i64();
    let written = format!(in alloc; "{literal}")?;
    text.push_str(written.as_str())
}

// As 1:{1,-2}.
fn named_text(alloc: Global, named: &Named) -> Result<String, AllocError> {
    let number = named.number;
    let mut text = format!(in alloc; "{number}:{{")?;
    for (i, lit) in named.clause.lits().iter().enumerate() {
        if i > 0 {
            text.push_str(",")?;
        }
        push_literal(alloc, &mut text, *lit)?;
    }
    text.push_str("}")?;
    Ok(text)
}
