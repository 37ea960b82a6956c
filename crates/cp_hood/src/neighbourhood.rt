//! The neighbourhood of a cell: its variable and all variables of its clauses.
ghost use Rattle.std.specs.Prelude.{◌≡◌, ◌≤◌, ◌++◌, [], length, map, IfOk, IfErr, OnOk};
ghost use Rattle.std.specs.List.{All, Contains};
ghost use Rattle.cp_logic.specs.Literals.{variable_of};
ghost use Rattle.cp_logic.specs.Formulas.{neighbourhood, set_of};
ghost use Rattle.cp_hood.specs.Rows.{IsPlanAnswer, IsVariable};

use crate::answers::HoodAnswer;
use cp_logic::Clause;
use cp_occ::{Cell, Cells};
use std::alloc::{AllocError, Global};

// The variables of the neighbourhood, where they are no more than the limit, and an empty list with room for their cells.
pub(crate) fn plan(alloc: Global, cell: &Cell, limit: u32) -> Result<(Vec<u32>, Cells), HoodAnswer>
    ensures variables { IfOk result (λ p. p.0.items ≡ neighbourhood cell.now.clauses cell.now.variable) }
    ensures within { IfOk result (λ p. length p.0.items ≤ limit) }
    ensures room { IfOk result (λ p. (p.1.items ≡ []) × (length p.0.items ≤ p.1.spare)) }
    ensures answer { IfErr result (IsPlanAnswer cell.now limit) }
{
    let Ok(vars) = neighbourhood(alloc, cell) else {
        return Err(HoodAnswer::NoMemory);
    };
    if vars.len() > limit as usize {
        return Err(HoodAnswer::Wide {
            count: vars.len() as u32,
        });
    }
    let mut cells = Cells::new(alloc);
    match cells.reserve(vars.len()) {
        Ok(()) => Ok((vars, cells)),
        Err(_) => Err(HoodAnswer::NoMemory),
    }
}

// The variables of the neighbourhood, ascending.
fn neighbourhood(alloc: Global, cell: &Cell) -> Result<Vec<u32>, AllocError>
    ensures variables { IfOk result (λ vars. vars.items ≡ neighbourhood cell.now.clauses cell.now.variable) }
    ensures few { IfOk result (λ vars. length vars.items ≤ 2000000) }
{
    let centre = cell.var();
    let mut vars = Vec::new(alloc);
    vars.push(centre)?;
    for (_number, clause) in cell.iter() {
        push_others(&mut vars, clause, centre)?;
    }
    vars.as_mut_slice().sort_unstable();
    vars.dedup();
    Ok(vars)
}

// Appends the variables of the clause's literals but the centre's, which is there. So a clause of two literals, as are most of a
// long cell, gives one variable to be sorted.
fn push_others(vars: &mut Vec<u32>, clause: &Clause, centre: u32) -> Result<(), AllocError>
    requires { Contains vars.old.items centre }
    ensures variables { OnOk result (set_of vars.new.items ≡ set_of (vars.old.items ++ map variable_of clause.now)) }
    ensures centre { OnOk result (Contains vars.new.items centre) }
    ensures range { OnOk result (All IsVariable vars.old.items → All IsVariable vars.new.items) }
{
    for lit in clause.lits() {
        let var = lit.var();
        if var != centre {
            vars.push(var)?;
        }
    }
    Ok(())
}
