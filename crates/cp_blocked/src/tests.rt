//! The finder on cells of small formulas.
ghost use Rattle.std.specs.Prelude.{◌≡◌, ◌≤◌};
ghost use Rattle.cp_logic.specs.Clauses.{has_variable};

use crate::first_blocked;
use cp_logic::{Clause, Entry, Lit, Named};
use cp_occ::{Cell, Place, Sides};
use std::alloc::{AllocError, Global};
use std::test::Fail;

#[test]
fn blocked_clauses(rt: HostRuntime) -> Result<(), Fail> {
    let equivalences: &[&[i32]] = &[&[1, 2], &[-1, -2], &[-1, 3], &[1, -3]];
    let rows: [(u32, &[&[i32]], &str); 9] = [
        (1, equivalences, "None"),
        (2, equivalences, "Block{1:{1,2}, 2}"),
        (3, equivalences, "Block{3:{-1,3}, 3}"),
        (1, &[&[1, 2], &[2, 3]], "Block{1:{1,2}, 1}"),
        (3, &[&[1, 2], &[-3, 1]], "Block{2:{1,-3}, -3}"),
        (1, &[&[1, 2], &[-1, -2], &[-1, 3]], "Block{2:{-1,-2}, -1}"),
        (1, &[&[1, 2], &[1, 3, -3]], "None"),
        (1, &[&[1], &[-1]], "None"),
        (1, &[], "None"),
    ];
    for (var, clauses, expected) in rows {
        let cell = cell_of(rt.alloc(), var, clauses)?;
        let sides = Sides::of(rt.alloc(), &cell)?;
        let found = first_blocked(&sides)?;
        assert_eq!(rt; text_of(rt.alloc(), found)?.as_str(), expected);
    }
    Ok(())
}

// The cell of the variable, of those of the clauses that have it, which are numbered from 1 on.
fn cell_of(alloc: Global, var: u32, clauses: &[&[i32]]) -> Result<Cell, AllocError>
    requires low { 1 ≤ var }
    requires high { var ≤ 2000000 }
{
    let mut cell = Cell::new(alloc, var);
    for (i, literals) in clauses.iter().enumerate() {
        let clause = clause_of(alloc, literals)?;
        if has_variable(&clause, var) {
            let place = Place::new(alloc, clause)?;
            cell.reserve(1)?;
            cell.insert(i as u64 + 1, place);
        }
    }
    Ok(cell)
}

fn has_variable(clause: &Clause, var: u32) -> bool
    ensures { result ≡ has_variable var clause.now }
{
    clause.lits().iter().any(|lit| lit.var() == var)
}

fn clause_of(alloc: Global, literals: &[i32]) -> Result<Clause, AllocError> {
    let mut lits = Vec::new(alloc);
    for literal in literals {
        let var = literal.unsigned_abs().max(1).min(2_000_000);
        lits.push(Lit::new(var, *literal > 0))?;
    }
    Clause::from_lits(alloc, lits.as_slice())
}

// What was found, as it is written in a journal.
fn text_of(alloc: Global, found: Option<Entry>) -> Result<String, AllocError> {
    match found {
        None => String::from_str(alloc, "None"),
        Some(Entry::Block { gone, lit }) => {
            let gone = named_text(alloc, &gone)?;
            let lit = lit.to_i64();
            format!(in alloc; "Block{{{gone}, {lit}}}")
        }
        Some(_) => String::from_str(alloc, "another kind"),
    }
}

// As 1:{1,-2}.
fn named_text(alloc: Global, named: &Named) -> Result<String, AllocError> {
    let number = named.number;
    let mut text = format!(in alloc; "{number}:{{")?;
    for (i, lit) in named.clause.lits().iter().enumerate() {
        if i > 0 {
            text.push_str(",")?;
        }
        let literal = lit.to_i64();
        let written = format!(in alloc; "{literal}")?;
        text.push_str(written.as_str())?;
    }
    text.push_str("}")?;
    Ok(text)
}
