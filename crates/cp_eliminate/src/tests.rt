//! Elimination, and the search over all kinds, on the cell of the variable 1 of small formulas.
ghost use Rattle.std.specs.Prelude.{◌≡◌};
ghost use Rattle.cp_logic.specs.Clauses.{has_variable};

use crate::{search, try_eliminate};
use cp_find::Reached;
use cp_logic::{Choice, Clause, Entry, Lit, Named, NamedList, Rules};
use cp_occ::{Cell, Place, Sides};
use std::alloc::{AllocError, Global};
use std::test::Fail;

#[test]
fn eliminations(rt: HostRuntime) -> Result<(), Fail> {
    let four: &[&[i32]] = &[&[1, 2], &[1, 3], &[-1, 4], &[-1, 5]];
    let five: &[&[i32]] = &[&[1, 2], &[1, 3], &[-1, 4], &[-1, 5], &[-1, 6]];
    let rows: [(&[&[i32]], u64, u64, &str); 9] = [
        (
            four,
            0,
            5,
            "1, [1:{1,2}, 2:{1,3}], [3:{-1,4}, 4:{-1,5}], [5:{2,4}, 6:{2,5}, 7:{3,4}, 8:{3,5}]",
        ),
        (five, 0, 6, "None"),
        (
            five,
            1,
            6,
            "1, [1:{1,2}, 2:{1,3}], [3:{-1,4}, 4:{-1,5}, 5:{-1,6}], [6:{2,4}, 7:{2,5}, 8:{2,6}, 9:{3,4}, 10:{3,5}, 11:{3,6}]",
        ),
        (
            &[&[1, 2], &[-1, 3]],
            u64::MAX,
            4,
            "1, [1:{1,2}], [2:{-1,3}], [4:{2,3}]",
        ),
        (
            &[&[1, 2], &[-1, -2], &[-1, 3]],
            0,
            4,
            "1, [1:{1,2}], [2:{-1,-2}, 3:{-1,3}], [4:{2,3}]",
        ),
        (&[&[-1, 2], &[-1]], 0, 3, "1, [], [1:{-1,2}, 2:{-1}], []"),
        (&[&[1], &[-1]], 0, 3, "1, [1:{1}], [2:{-1}], [3:{}]"),
        (&[&[1, 2], &[1, -1]], 0, 3, "None"),
        (&[&[2, 3]], 0, 2, "None"),
    ];
    for (clauses, bound, next, expected) in rows {
        let cell = cell_of(rt.alloc(), clauses)?;
        let sides = Sides::of(rt.alloc(), &cell)?;
        let found = try_eliminate(rt.alloc(), &sides, bound, next)?;
        assert_eq!(rt; text_of(rt.alloc(), found)?.as_str(), expected);
    }
    Ok(())
}

#[test]
fn searches(rt: HostRuntime) -> Result<(), Fail> {
    let all: &[&[i32]] = &[&[1, 2], &[-1, -2], &[1, 2, 3], &[1, -1], &[-1, 2, 4]];
    let rows: [(&[&[i32]], Choice, &str); 7] = [
        (all, chosen(true, true, true, true, true), "Taut 4"),
        (all, chosen(false, true, true, true, true), "Subsume 1, 3"),
        (
            all,
            chosen(false, false, true, true, true),
            "Strengthen 1, 5, 6",
        ),
        (all, chosen(false, false, false, true, true), "None"),
        (
            &[&[1, 2], &[-1, -2]],
            chosen(true, true, true, true, true),
            "Block 1",
        ),
        (
            &[&[1, 2], &[-1, -2]],
            chosen(true, true, true, false, true),
            "1, [1:{1,2}], [2:{-1,-2}], []",
        ),
        (
            &[&[1, 2], &[-1, -2]],
            chosen(true, true, true, false, false),
            "None",
        ),
    ];
    for (clauses, choice, expected) in rows {
        let cell = cell_of(rt.alloc(), clauses)?;
        let rules = Rules {
            choice,
            bound: 0,
            budget: 0,
        };
        let mut reached = Reached::start(rt.alloc());
        let found = search(rt.alloc(), &cell, &rules, 6, &mut reached)?;
        assert_eq!(rt; text_of(rt.alloc(), found)?.as_str(), expected);
    }
    Ok(())
}

fn chosen(t: bool, s: bool, x: bool, b: bool, e: bool) -> Choice {
    Choice { t, s, x, b, e }
}

// The cell of the variable 1, of these clauses numbered from 1 on.
fn cell_of(alloc: Global, clauses: &[&[i32]]) -> Result<Cell, AllocError> {
    let mut cell = Cell::new(alloc, 1);
    for (i, literals) in clauses.iter().enumerate() {
        let clause = clause_of(alloc, literals)?;
        if has_one(&clause) {
            let place = Place::new(alloc, clause)?;
            cell.reserve(1)?;
            cell.insert(i as u64 + 1, place);
        }
    }
    Ok(cell)
}

fn has_one(clause: &Clause) -> bool
    ensures { result ≡ has_variable 1 clause.now }
{
    clause.lits().iter().any(|lit| lit.var() == 1)
}

fn clause_of(alloc: Global, literals: &[i32]) -> Result<Clause, AllocError> {
    let mut lits = Vec::new(alloc);
    for literal in literals {
        let var = literal.unsigned_abs().max(1).min(2_000_000);
        lits.push(Lit::new(var, *literal > 0))?;
    }
    Clause::from_lits(alloc, lits.as_slice())
}

// What was found: an elimination as it is written in a journal, and of each other kind the numbers of its clauses.
fn text_of(alloc: Global, found: Option<Entry>) -> Result<String, AllocError> {
    match found {
        None => String::from_str(alloc, "None"),
        Some(Entry::Taut { gone }) => {
            let gone = gone.number;
            format!(in alloc; "Taut {gone}")
        }
        Some(Entry::Subsume { by, gone }) => {
            let by = by.number;
            let gone = gone.number;
            format!(in alloc; "Subsume {by}, {gone}")
        }
        Some(Entry::Strengthen { by, on, new, .. }) => {
            let by = by.number;
            let on = on.number;
            let new = new.number;
            format!(in alloc; "Strengthen {by}, {on}, {new}")
        }
        Some(Entry::Block { gone, .. }) => {
            let gone = gone.number;
            format!(in alloc; "Block {gone}")
        }
        Some(Entry::Eliminate { var, pos, neg, new }) => {
            let pos = list_text(alloc, &pos)?;
            let neg = list_text(alloc, &neg)?;
            let new = list_text(alloc, &new)?;
            format!(in alloc; "{var}, {pos}, {neg}, {new}")
        }
        Some(Entry::Look { .. }) => String::from_str(alloc, "Look"),
    }
}

// As [1:{1,-2}, 2:{3}].
fn list_text(alloc: Global, list: &NamedList) -> Result<String, AllocError> {
    let mut text = String::from_str(alloc, "[")?;
    for (i, named) in list.iter().enumerate() {
        if i > 0 {
            text.push_str(", ")?;
        }
        let written = named_text(alloc, named)?;
        text.push_str(written.as_str())?;
    }
    text.push_str("]")?;
    Ok(text)
}

// As 1:{1,-2}.
fn named_text(alloc: Global, named: &Named) -> Result<String, AllocError> {
    let number = named.number;
    let mut text = format!(in alloc; "{number}:{{")?;
    for (i, lit) in named.clause.lits().iter().enumerate() {
        if i > 0 {
            text.push_str(",")?;
        }
        let literal = lit.to_i64();
        let written = format!(in alloc; "{literal}")?;
        text.push_str(written.as_str())?;
    }
    text.push_str("}")?;
    Ok(text)
}
