//! Runs of `extend` over a desk in memory: whole runs, inputs that are refused, and words.

ghost use Rattle.std.specs.Prelude.{◌<◌, IfOk};
ghost use Rattle.cp_io.specs.Port.{NothingBound};
ghost use Rattle.cp_io.specs.Memory.{memory_port};

use super::*;
use crate::tests::{assert_status, assert_told, assert_written, words_of};
use cp_io::{Bytes, FailList, Input, Inputs, MemDesk, Role};
use std::alloc::{AllocError, Global};
use std::process::Abort;
use std::test::Fail;

pub(crate) const STACK: &[u8] = b"p stack 1 3 3\n1 2 0\n-1 3 0\n2 3 0\n";

pub(crate) const MODEL: &[u8] = b"c x\ns SATISFIABLE\nv 3\nv 0\n";

pub(crate) const FULL: &[u8] = b"s SATISFIABLE\nv 1 -2 3\nv 0\n";

fn bytes_of(alloc: Global, text: &[u8]) -> Result<Bytes, AllocError> {
    let mut bytes = Bytes::new(alloc);
    for byte in text {
        bytes.push(*byte)?;
    }
    Ok(bytes)
}

// A desk with a stack and a model to read.
fn desk_with(
    alloc: Global,
    stack: &[u8],
    model: &[u8],
    piece: usize,
    failing: FailList,
) -> Result<MemDesk, AllocError>
    requires { 0 < piece }
    ensures { IfOk result (λ desk. NothingBound (memory_port desk)) }
{
    let stack = bytes_of(alloc, stack)?;
    let model = bytes_of(alloc, model)?;
    let mut inputs = Inputs::new(alloc);
    inputs.push(Input {
        role: Role::Stack,
        bytes: stack,
    })?;
    inputs.push(Input {
        role: Role::Model,
        bytes: model,
    })?;
    MemDesk::new(alloc, inputs, piece, failing)
}

// The outcome of a run in pieces of so many bytes, where these calls fail, and the desk.
pub(crate) fn ran_with(
    alloc: Global,
    text: &str,
    stack: &[u8],
    model: &[u8],
    piece: usize,
    failing: FailList,
) -> Result<(Outcome, MemDesk), Fail>
    requires { 0 < piece }
{
    let words = words_of(alloc, text)?;
    let mut desk = desk_with(alloc, stack, model, piece, failing)?;
    let outcome = run_extend(alloc, &words, &mut desk);
    Ok((outcome, desk))
}

// A run: its words, the stack and the model, and the status, the line and what it writes.
type Row = (
    &'static str,
    &'static [u8],
    &'static [u8],
    u8,
    &'static str,
    &'static [u8],
);

fn assert_rows(rt: &impl Abort, alloc: Global, rows: &[Row]) -> Result<(), Fail> {
    for row in rows {
        assert_row(rt, alloc, row)?;
    }
    Ok(())
}

fn assert_row(rt: &impl Abort, alloc: Global, row: &Row) -> Result<(), Fail> {
    let (text, stack, model, status, told, full) = *row;
    let (outcome, desk) = ran_with(alloc, text, stack, model, 8, FailList::new(alloc))?;
    assert_status(rt, &outcome, status);
    assert_written(rt, &desk, Role::Full, full);
    assert_told(rt, alloc, &outcome, told)
}

pub(crate) const WORDS: &str = "extend --stack a";

#[test]
fn models_are_completed(rt: HostRuntime) -> Result<(), Fail> {
    let rows: [Row; 4] = [
        (WORDS, STACK, MODEL, 10, "extended", FULL),
        (
            WORDS,
            b"p stack 1 8 6\n1 0\n2 0\n3 -4 0\n-3 4 0\n-5 6 0\n5 -6 0\n",
            b"s SATISFIABLE\nv 4 0\n",
            10,
            "extended",
            b"s SATISFIABLE\nv 1 2 3 4 -5 -6 -7 -8\nv 0\n",
        ),
        (
            WORDS,
            b"p stack 1 0 0\n",
            b"v 0\n",
            10,
            "extended",
            b"s SATISFIABLE\nv 0\n",
        ),
        // A literal above the variables of the stack is passed over, and nothing behind the 0 is looked at.
        (
            WORDS,
            b"p stack 1 2 1\n-2 1 0\n",
            b"v 2 9 0 x\n",
            10,
            "extended",
            b"s SATISFIABLE\nv -1 -2\nv 0\n",
        ),
    ];
    assert_rows(&rt, rt.alloc(), &rows)
}

#[test]
fn bad_models_are_refused(rt: HostRuntime) -> Result<(), Fail> {
    let rows: [Row; 4] = [
        (
            WORDS,
            STACK,
            b"v 1 -1 0\n",
            65,
            "bad model at byte 4: Contradiction",
            b"",
        ),
        (WORDS, STACK, b"s UNSATISFIABLE\n", 65, "no model", b""),
        (
            WORDS,
            STACK,
            b"v 1\n",
            65,
            "bad model at byte 4: NoEnd",
            b"",
        ),
        (
            WORDS,
            STACK,
            b"v 2000001 0\n",
            69,
            "model has too many variables at byte 2",
            b"",
        ),
    ];
    assert_rows(&rt, rt.alloc(), &rows)
}

// The stack is read first.
#[test]
fn bad_stacks_are_refused(rt: HostRuntime) -> Result<(), Fail> {
    let rows: [Row; 4] = [
        (
            WORDS,
            b"p stack 1 3 3\n1 2 0\n",
            MODEL,
            65,
            "bad stack at byte 20: Count",
            b"",
        ),
        (
            WORDS,
            b"p stack 1 3 1\n4 0\n",
            MODEL,
            65,
            "bad stack at byte 14: TooGreat",
            b"",
        ),
        (
            WORDS,
            b"p stack 1 2000001 0\n",
            MODEL,
            69,
            "stack has too many variables at byte 10",
            b"",
        ),
        (
            WORDS,
            b"",
            b"v x\n",
            65,
            "bad stack at byte 0: BadHeader",
            b"",
        ),
    ];
    assert_rows(&rt, rt.alloc(), &rows)
}

#[test]
fn other_words_are_refused(rt: HostRuntime) -> Result<(), Fail> {
    let alloc = rt.alloc();
    let table = [
        ("simplify --workers 0", "no such command"),
        ("", "no such command"),
        ("extend", "bad options"),
        ("extend --stack", "bad options"),
        ("extend --stack b --model b", "one name for two roles"),
        ("extend --stack a more", "bad options"),
        ("extend a --stack", "bad options"),
    ];
    for (text, told) in table {
        assert_row(&rt, alloc, &(text, STACK, MODEL, 64, told, b""))?;
    }
    Ok(())
}
