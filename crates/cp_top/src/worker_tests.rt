//! Runs of `simplify` with workers over a desk in memory: what the shifts and the journal tell.

ghost use Rattle.std.specs.Prelude.{IfOk};
ghost use Rattle.cp_io.specs.Port.{NothingBound};
ghost use Rattle.cp_io.specs.Memory.{memory_port};

use super::*;
use crate::tests::{assert_written, words_of};
use cp_io::{Bytes, Input, Inputs, MemDesk, Role};
use cp_worker::OpenGate;
use std::alloc::{AllocError, Global};
use std::process::Abort;
use std::test::Fail;
use std::thread::Threads;

// A desk with the clauses {1, 2} and {-1, 3}.
fn desk_of(alloc: Global) -> Result<MemDesk, AllocError>
    ensures { IfOk result (λ desk. NothingBound (memory_port desk)) }
{
    let mut bytes = Bytes::new(alloc);
    for byte in b"p cnf 3 2\n1 2 0\n-1 3 0\n" {
        bytes.push(*byte)?;
    }
    let mut inputs = Inputs::new(alloc);
    inputs.push(Input {
        role: Role::Cnf,
        bytes,
    })?;
    MemDesk::honest(alloc, inputs)
}

// One worker in one round, with these numbers of candidates, commits and candidates too wide.
fn assert_shift<R: Threads + Sync + Abort>(
    rt: &R,
    alloc: Global,
    text: &str,
    want: (usize, usize, usize),
) -> Result<(), Fail> {
    let words = words_of(alloc, text)?;
    let mut desk = desk_of(alloc)?;
    let outcome = run(rt, alloc, &words, &mut desk, &OpenGate);
    assert_written(rt, &desk, Role::Reduced, b"p cnf 3 0\n");
    assert_one_shift(rt, &outcome, want);
    Ok(())
}

fn assert_one_shift(rt: &impl Abort, outcome: &Outcome, want: (usize, usize, usize)) {
    let Outcome::Done { shifts, .. } = outcome else {
        panic!(rt; "refused");
    };
    assert_eq!(rt; shifts.len(), 1);
    if let Some(shift) = shifts.get(0) {
        assert_eq!(rt; (shift.worker, shift.round), (1, 1));
        let counts = (shift.taken.len(), shift.commits.len(), shift.wide.len());
        assert_eq!(rt; counts, want);
    }
}

#[test]
fn a_worker_accounts_for_its_candidates(rt: HostRuntime) -> Result<(), Fail> {
    let alloc = rt.alloc();
    assert_shift(
        &rt,
        alloc,
        "simplify --workers 1 --rounds 1 --only e",
        (3, 2, 0),
    )?;
    assert_shift(
        &rt,
        alloc,
        "simplify --workers 1 --rounds 1 --hood 1 --only e",
        (3, 0, 3),
    )
}
