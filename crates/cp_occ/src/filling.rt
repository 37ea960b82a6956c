//! The cells of a formula: their room is counted first, and then each clause is entered in the cells of its variables.
ghost use Rattle.std.specs.Prelude.{◌≡◌, ◌≤◌, ◌<◌, ◌+◌, ℕ, [], ◌∷◌, ◌++◌, length, slice_index_or, IsTrue, OnOk, IfOk};
ghost use Rattle.std.specs.List.{All};
ghost use Rattle.cp_logic.specs.Clauses.{has_variable};
ghost use Rattle.cp_logic.specs.Formulas.{IsWithin};
ghost use Rattle.cp_occ.specs.Cells.{AreNumbered, Enters};

use crate::cell::Cell;
use crate::place::Place;
use crate::variables::Variables;
use cp_logic::{Clause, Formula};
use std::alloc::{AllocError, Global};

// How many clauses have each variable. The first number, of no variable, is 0.
pub(crate) fn counts(alloc: Global, formula: &Formula) -> Result<Vec<u32>, AllocError> {
    let mut counts = vec![in alloc; 0u32; formula.vars() as usize + 1]?;
    for (_number, clause) in formula.iter() {
        count(counts.as_mut_slice(), clause);
    }
    Ok(counts)
}

// Counts the clause for each variable that it has.
fn count(counts: &mut [u32], clause: &Clause) {
    for var in Variables::of(clause) {
        if let Some(n) = counts.get_mut(var as usize) {
            *n = n.saturating_add(1);
        }
    }
}

// The cells of the variables from 1 to `vars`, with no clause, and with room for as many as were counted.
pub(crate) fn empty_cells(alloc: Global, vars: u32, counts: &[u32]) -> Result<Vec<Cell>, AllocError>
    requires { vars ≤ 2000000 }
    ensures len { IfOk result (λ v. length v.items ≡ vars) }
    ensures numbered { IfOk result (λ v. AreNumbered v.items) }
    ensures empty { IfOk result (λ v. All (λ c. c.clauses ≡ []) v.items) }
{
    let mut cells = Vec::with_capacity(alloc, vars as usize)?;
    for index in 0..vars {
        let var = index + 1;
        let room = counts.get(var as usize).copied().unwrap_or(0);
        cells.push(Cell::with_room(alloc, var, room as usize)?)?;
    }
    Ok(cells)
}

// Enters the clause in the cells of its variables, by one place for each. The count should have made the room; no contract says so.
pub(crate) fn enter(
    alloc: Global,
    cells: &mut [Cell],
    number: u64,
    clause: &Clause,
) -> Result<(), AllocError>
    requires numbered { AreNumbered cells.old }
    requires within { IsWithin (length cells.old) clause.now }
    requires above { (k : ℕ) (d : _) → k < length cells.old → All (λ c. c.number < number) (slice_index_or cells.old k d).clauses }
    ensures { OnOk result (Enters (record { number = number; clause = clause.now }) cells.old cells.new) }
{
    let place = Place::new(alloc, clause.again()?)?;
    for var in Variables::of(clause) {
        put(&mut cells[var as usize - 1], number, place.again()?)?;
    }
    Ok(())
}

// Adds the clause at the end of the cell.
fn put(cell: &mut Cell, number: u64, place: Place) -> Result<(), AllocError>
    requires above { All (λ c. c.number < number) cell.old.clauses }
    requires has { IsTrue (has_variable cell.old.variable place) }
    ensures variable { cell.new.variable ≡ cell.old.variable }
    ensures clauses { OnOk result (cell.new.clauses ≡ cell.old.clauses ++ record { number = number; clause = place } ∷ []) }
{
    cell.reserve(1)?;
    cell.insert(number, place);
    Ok(())
}
