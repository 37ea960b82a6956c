//! Each call on a desk fails in turn: every bind, read and write of each role, where the desk reads and writes pieces of 1 to 8 bytes.

ghost use Rattle.std.specs.Prelude.{◌<◌};

use super::*;
use crate::extension_tests::{FULL, MODEL, STACK, WORDS};
use crate::tests::{assert_status, assert_told};
use crate::{extension_tests, tests};
use cp_io::{FailAt, FailList, MemDesk, Role};
use std::alloc::{AllocError, Global};
use std::process::Abort;
use std::test::Fail;

const CNF: &[u8] = b"p cnf 3 2\n1 2 0\n-1 3 0\n";

const PROOF: &[u8] = b"2 3 0\nd 1 2 0\nd -1 3 0\nd 2 3 0\n";

const REDUCED: &[u8] = b"p cnf 3 0\n";

const COUNTS: &[u8] = b"variables 3
clauses 2
literals 4
reduced-clauses 0
reduced-literals 0
tautologies 0
subsumed 0
strengthened 0
blocked 0
eliminated 2
pairs 3
stopped none
status 10
";

// The run of which calls fail.
#[derive(Clone, Copy)]
enum Command {
    Simplify,
    Extend,
}

// A role with its name in a line, whether it is read, and the whole text that is read or written.
type Use = (Role, &'static str, bool, &'static [u8]);

// The outcome of a run where this call fails, and the desk.
fn ran(
    alloc: Global,
    command: Command,
    piece: usize,
    at: FailAt,
) -> Result<(Outcome, MemDesk), Fail>
    requires { 0 < piece }
{
    let mut failing = FailList::new(alloc);
    failing.push(at)?;
    match command {
        Command::Simplify => {
            let words = "simplify --workers 0 --only e";
            tests::ran_with(alloc, words, CNF, piece, failing)
        }
        Command::Extend => { extension_tests::ran_with(alloc, WORDS, STACK, MODEL, piece, failing) }
    }
}

// How many calls a role takes: one to bind it, one for each piece, and one that finds the end of what is read.
fn calls_of(used: &Use, piece: usize) -> u64
    requires { 0 < piece }
{
    let (_, _, is_read, text) = *used;
    let pieces = text.len().div_ceil(piece) as u64;
    pieces.saturating_add(1 + u64::from(is_read))
}

// The status and the line of a run whose call with this number on the role failed.
fn line_of(alloc: Global, used: &Use, nth: u64) -> Result<(u8, String), AllocError> {
    let (_, name, is_read, _) = *used;
    if nth == 1 {
        Ok((66, format!(in alloc; "cannot open {name}")?))
    } else if is_read {
        Ok((66, format!(in alloc; "cannot read {name}")?))
    } else {
        Ok((74, format!(in alloc; "cannot write {name}")?))
    }
}

// The roles before the one of which a write failed hold their texts, it holds a front, and those behind it hold nothing.
fn assert_fronts(rt: &impl Abort, desk: &MemDesk, uses: &[Use], role: Role, status: u8) {
    let mut stopped = status == 66;
    for (other, _, is_read, text) in uses {
        if *is_read {
            continue;
        }
        let held = desk.written(*other);
        if stopped {
            assert_eq!(rt; held.len(), 0);
        } else if *other == role {
            assert!(rt; text.starts_with(held) && held.len() < text.len());
            stopped = true;
        } else {
            assert_eq!(rt; held, *text);
        }
    }
}

// Each call on the role fails in turn, in pieces of so many bytes. One call more isn't made.
fn assert_each(
    rt: &impl Abort,
    alloc: Global,
    command: Command,
    uses: &[Use],
    used: &Use,
    piece: usize,
) -> Result<(), Fail>
    requires { 0 < piece }
{
    let (role, ..) = *used;
    let calls = calls_of(used, piece);
    for nth in 1..=calls {
        let (outcome, desk) = ran(alloc, command, piece, FailAt { role, nth })?;
        let (status, line) = line_of(alloc, used, nth)?;
        assert_status(rt, &outcome, status);
        assert_fronts(rt, &desk, uses, role, status);
        assert_told(rt, alloc, &outcome, line.as_str())?;
    }
    let nth = calls.saturating_add(1);
    let (outcome, _desk) = ran(alloc, command, piece, FailAt { role, nth })?;
    assert_status(rt, &outcome, 10);
    Ok(())
}

fn assert_all(rt: &impl Abort, alloc: Global, command: Command, uses: &[Use]) -> Result<(), Fail> {
    for piece in 1..=8 {
        for used in uses {
            assert_each(rt, alloc, command, uses, used, piece)?;
        }
    }
    Ok(())
}

#[test]
fn each_call_of_simplify_fails_in_turn(rt: HostRuntime) -> Result<(), Fail> {
    // In the order of writing.
    let uses: [Use; 5] = [
        (Role::Cnf, "cnf", true, CNF),
        (Role::Proof, "proof", false, PROOF),
        (Role::Stack, "stack", false, STACK),
        (Role::Reduced, "reduced", false, REDUCED),
        (Role::Summary, "summary", false, COUNTS),
    ];
    assert_all(&rt, rt.alloc(), Command::Simplify, &uses)
}

#[test]
fn each_call_of_extend_fails_in_turn(rt: HostRuntime) -> Result<(), Fail> {
    let uses: [Use; 3] = [
        (Role::Stack, "stack", true, STACK),
        (Role::Model, "model", true, MODEL),
        (Role::Full, "full", false, FULL),
    ];
    assert_all(&rt, rt.alloc(), Command::Extend, &uses)
}
