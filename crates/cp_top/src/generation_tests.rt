//! Runs of `generate` over a desk in memory.

ghost use Rattle.std.specs.Prelude.{IfOk};
ghost use Rattle.cp_io.specs.Port.{NothingBound};
ghost use Rattle.cp_io.specs.Memory.{memory_port};

use super::*;
use crate::tests::{assert_status, assert_written, words_of};
use cp_io::{Inputs, MemDesk, Role};
use std::alloc::{AllocError, Global};
use std::test::Fail;

const COUNTS: &[u8] = b"variables 3
clauses 2
literals 5
reduced-clauses 0
reduced-literals 0
tautologies 1
subsumed 0
strengthened 0
blocked 1
eliminated 0
pairs 1
stopped none
status 10
";

fn desk_of(alloc: Global) -> Result<MemDesk, AllocError>
    ensures { IfOk result (λ desk. NothingBound (memory_port desk)) }
{
    MemDesk::honest(alloc, Inputs::new(alloc))
}

#[test]
fn a_small_formula_is_made_and_counted(rt: HostRuntime) -> Result<(), Fail> {
    let alloc = rt.alloc();
    let words = words_of(alloc, "generate --seed 7 --vars 3 --clauses 2")?;
    let mut desk = desk_of(alloc)?;
    let outcome = run_gen(alloc, &words, &mut desk);
    assert_status(&rt, &outcome, 0);
    assert_written(&rt, &desk, Role::Summary, COUNTS);
    Ok(())
}
