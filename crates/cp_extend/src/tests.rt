//! Models that are completed and printed to a desk in memory.

ghost use Rattle.std.specs.Prelude.{◌≡◌, IfOk};
ghost use Rattle.cp_io.specs.Port.{NothingBound};
ghost use Rattle.cp_io.specs.Memory.{memory_port};

use crate::{extend, print_model};
use cp_io::{Desk, Failed, Inputs, MemDesk, Role, Way};
use cp_logic::{Assignment, Clause, Lit, Pair, Stack};
use std::alloc::{AllocError, Global};
use std::test::Fail;

#[test]
fn models_are_completed_and_printed(rt: HostRuntime) -> Result<(), Fail> {
    let rows: [(u32, u32, &[&[i32]], &str); 5] = [
        (0, 0, &[], "s SATISFIABLE\nv 0\n"),
        (
            3,
            3,
            &[&[1, 2], &[-1, 3], &[2, 3]],
            "s SATISFIABLE\nv 1 -2 3\nv 0\n",
        ),
        // The last pair makes the first clause false.
        (
            3,
            2,
            &[&[1, 2], &[-2, 3]],
            "s SATISFIABLE\nv 1 -2 -3\nv 0\n",
        ),
        (
            10,
            10,
            &[&[1, 10]],
            "s SATISFIABLE\nv -1 -2 -3 -4 -5 -6 -7 -8 -9 10\nv 0\n",
        ),
        (
            12,
            11,
            &[&[12, 2], &[1, -11]],
            "s SATISFIABLE\nv 1 -2 -3 -4 -5 -6 -7 -8 -9 -10\nv 11 12\nv 0\n",
        ),
    ];
    for (vars, true_var, pairs, wanted) in rows {
        let stack = stack_of(rt.alloc(), vars, pairs)?;
        let mut model = model_of(rt.alloc(), vars, true_var)?;
        extend_fitting(&mut model, &stack);
        let mut desk = desk_of(rt.alloc())?;
        print_of(&mut desk, &model).ok().ok_or("not printed")?;
        assert_eq!(rt; desk.written(Role::Full), wanted.as_bytes());
    }
    Ok(())
}

// A desk of which no role is bound.
fn desk_of(alloc: Global) -> Result<MemDesk, AllocError>
    ensures { IfOk result (λ desk. NothingBound (memory_port desk)) }
{
    MemDesk::honest(alloc, Inputs::new(alloc))
}

fn print_of<D: Desk>(desk: &mut D, model: &Assignment) -> Result<(), Failed>
    requires { NothingBound (D.port desk.old) }
{
    desk.bind(Role::Full, Way::Out, "out")?;
    print_model(desk, model)
}

fn extend_fitting(model: &mut Assignment, stack: &Stack) {
    if stack.vars <= model.len() {
        extend(model, stack);
    }
}

// The variables are false but for one, which is true.
fn model_of(alloc: Global, vars: u32, true_var: u32) -> Result<Assignment, AllocError> {
    let mut model = Assignment::new(alloc, vars.min(2_000_000))?;
    let lit = Lit::new(true_var.max(1).min(2_000_000), true_var > 0);
    if lit.var() <= model.len() {
        model.set(lit);
    }
    Ok(model)
}

// The stack of these clauses, each with its first literal.
fn stack_of(alloc: Global, vars: u32, pairs: &[&[i32]]) -> Result<Stack, AllocError> {
    let mut stack = Stack::new(alloc, vars);
    for literals in pairs {
        if let Some(first) = literals.first() {
            let lit = lit_of(*first);
            let clause = clause_of(alloc, literals)?;
            if clause.contains(lit) && clause.is_within(stack.vars) {
                stack.push(Pair::new(lit, clause))?;
            }
        }
    }
    Ok(stack)
}

fn clause_of(alloc: Global, literals: &[i32]) -> Result<Clause, AllocError> {
    let mut lits = Vec::new(alloc);
    for literal in literals {
        lits.push(lit_of(*literal))?;
    }
    Clause::from_lits(alloc, lits.as_slice())
}

fn lit_of(literal: i32) -> Lit {
    let var = literal.unsigned_abs().max(1).min(2_000_000);
    Lit::new(var, literal > 0)
}
