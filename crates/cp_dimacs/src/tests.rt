//! Inputs that are read, whole and in pieces, and printed again over a desk in memory.

ghost use Rattle.std.specs.Prelude.{◌<◌, IfOk};
ghost use Rattle.cp_io.specs.Limits.{IsWithinStandard};
ghost use Rattle.cp_io.specs.Port.{NothingBound};
ghost use Rattle.cp_io.specs.Memory.{memory_port};

use crate::{CnfReader, CnfRefusal, parse_cnf, print_cnf};
use cp_io::{Desk, Failed, Feed, Inputs, Limits, MemDesk, Role, Way};
use cp_logic::Formula;
use std::alloc::{AllocError, Global};
use std::process::Abort;
use std::test::Fail;

// An input, and the formula printed again, or the refusal.
type Row = (&'static str, &'static str);

const FORMULAS: [Row; 14] = [
    ("p cnf 0 0\n", "p cnf 0 0\n"),
    ("p cnf 0 0", "p cnf 0 0\n"),
    ("p cnf 1 1\n0\n", "p cnf 1 1\n0\n"),
    ("p cnf 2 2\n1 -1 0\n0\n", "p cnf 2 1\n0\n"),
    (
        "p cnf 3 2\n3 -1 2 3 0\n-2 0\n",
        "p cnf 3 2\n-1 2 3 0\n-2 0\n",
    ),
    (
        "p cnf 1 7\n-2000000 1 0\n",
        "p cnf 2000000 1\n1 -2000000 0\n",
    ),
    (
        "p cnf 09 1\n5 4 3 2 1 -6 0\n",
        "p cnf 9 1\n1 2 3 4 5 -6 0\n",
    ),
    (
        "p cnf 2 99999999999999999999999999\n-002 00",
        "p cnf 2 1\n-2 0\n",
    ),
    ("p cnf 1 1\n1 0\n%", "p cnf 1 1\n1 0\n"),
    ("p cnf 1 1\n1 0\n %and\n-1 x", "p cnf 1 1\n1 0\n"),
    ("\n  \nc x\n\tp  cnf\t1 1 \r\n1 0", "p cnf 1 1\n1 0\n"),
    (
        "p cnf 2 1\n1\nc 5 0\ncomment\n\n2\n0\n",
        "p cnf 2 1\n1 2 0\n",
    ),
    ("p cnf 2 2\r\n1 0 -2 0\r\n", "p cnf 2 2\n1 0\n-2 0\n"),
    (
        "c toy\np cnf 2 9\n 1 -2 0\n-1\n2 0\n%\n0\n",
        "p cnf 2 2\n1 -2 0\n-1 2 0\n",
    ),
];

const REFUSALS: [Row; 26] = [
    ("", "NoHeader at byte 0"),
    ("c x\n \n", "NoHeader at byte 6"),
    ("1 0\np cnf 1 1\n", "NoHeader at byte 0"),
    ("c\n %\np cnf 1 1\n", "NoHeader at byte 3"),
    ("pcnf 1 1\n", "NoHeader at byte 0"),
    ("p dnf 1 1\n", "BadHeader at byte 2"),
    ("p\n", "BadHeader at byte 1"),
    ("p cnf", "BadHeader at byte 5"),
    ("p cnf 1 \n", "BadHeader at byte 8"),
    ("p cnf 1 1 1\n", "BadHeader at byte 10"),
    ("p cnf -1 1\n", "BadHeader at byte 6"),
    ("p cnf 1 -1\n", "BadHeader at byte 8"),
    ("p cnf 1 x\n", "BadHeader at byte 8"),
    ("p cnf 2000001 x\n", "too many Variables at byte 6"),
    ("p cnf 1 1\n1", "OpenClause at byte 11"),
    ("p cnf 2 1\n1 2", "OpenClause at byte 13"),
    ("p cnf 1 1\n1\n%\n", "OpenClause at byte 12"),
    ("p cnf 1 1\n1 x 0\n", "BadWord at byte 12"),
    ("p cnf 1 1\n-0\n", "BadWord at byte 10"),
    ("p cnf 1 1\np 0\n", "BadWord at byte 10"),
    ("p cnf 1 1\n+1 0\n", "BadWord at byte 10"),
    ("p cnf 1 1\n1 % 0\n", "BadWord at byte 12"),
    ("p cnf 2 1\n1 -2 0 -1", "OpenClause at byte 19"),
    ("p cnf 2 1\n1 -2 0 2 0 %\n", "BadWord at byte 21"),
    ("p cnf 1 1\n2000001 0\n", "too many Variables at byte 10"),
    (
        "p cnf 1 1\n-99999999999999999999999 0\n",
        "too many Variables at byte 10",
    ),
];

// A desk of which no role is bound.
fn desk_of(alloc: Global) -> Result<MemDesk, AllocError>
    ensures { IfOk result (λ desk. NothingBound (memory_port desk)) }
{
    MemDesk::honest(alloc, Inputs::new(alloc))
}

fn print_of<D: Desk>(desk: &mut D, formula: &Formula) -> Result<(), Failed>
    requires { NothingBound (D.port desk.old) }
{
    desk.bind(Role::Reduced, Way::Out, "out")?;
    print_cnf(desk, formula)
}

fn line_of(alloc: Global, refusal: CnfRefusal) -> Result<String, AllocError> {
    match refusal {
        CnfRefusal::BadInput { offset, kind } => { format!(in alloc; "{kind} at byte {offset}") }
        CnfRefusal::TooLarge { limit, offset } => {
            format!(in alloc; "too many {limit:?} at byte {offset}")
        }
        CnfRefusal::NoMemory => format!(in alloc; "out of memory"),
    }
}

// The formula printed again, or the refusal.
fn text_of(alloc: Global, found: Result<Formula, CnfRefusal>) -> Result<Vec<u8>, Fail> {
    let mut text = Vec::new(alloc);
    match found {
        Ok(formula) => {
            let mut desk = desk_of(alloc)?;
            print_of(&mut desk, &formula).ok().ok_or("not printed")?;
            text.extend_from_slice(desk.written(Role::Reduced))?;
        }
        Err(refusal) => {
            text.extend_from_slice(line_of(alloc, refusal)?.as_bytes())?;
        }
    }
    Ok(text)
}

// What an input reads as that comes in pieces of a size.
fn read_in_pieces(
    alloc: Global,
    input: &[u8],
    size: usize,
    limits: Limits,
) -> Result<Formula, CnfRefusal>
    requires size { 0 < size }
    requires standard { IsWithinStandard limits }
{
    let mut reader = CnfReader::new(alloc, limits);
    for piece in input.chunks(size) {
        if reader.feed(piece)? == Feed::Ended {
            break;
        }
    }
    reader.finish()
}

fn assert_row(rt: &impl Abort, alloc: Global, row: Row, limits: Limits) -> Result<(), Fail>
    requires { IsWithinStandard limits }
{
    let (input, wanted) = row;
    let text = text_of(alloc, parse_cnf(alloc, input.as_bytes(), &limits))?;
    assert_eq!(rt; text.as_slice(), wanted.as_bytes(), "{input:?}");
    for size in 1..8usize {
        let text = text_of(alloc, read_in_pieces(alloc, input.as_bytes(), size, limits))?;
        assert_eq!(rt;
            text.as_slice(),
            wanted.as_bytes(),
            "{input:?} in pieces of {size}"
        );
    }
    Ok(())
}

#[test]
fn inputs_are_read(rt: HostRuntime) -> Result<(), Fail> {
    for row in FORMULAS {
        assert_row(&rt, rt.alloc(), row, Limits::standard())?;
    }
    for row in REFUSALS {
        assert_row(&rt, rt.alloc(), row, Limits::standard())?;
    }
    Ok(())
}

// Limits of so many variables, clauses, literals and bytes, where they are within the standard ones.
fn limits_of(variables: u32, clauses: u64, literals: u64, bytes: u64) -> Limits
    ensures { IsWithinStandard result }
{
    let standard = Limits::standard();
    Limits {
        variables: variables.min(standard.variables),
        clauses: clauses.min(standard.clauses),
        literals: literals.min(standard.literals),
        bytes: bytes.min(standard.bytes),
    }
}

// The input of each row, and what it reads as under limits of so many variables, clauses, literals and bytes.
const LIMITED: [(u32, u64, u64, u64, Row); 14] = [
    (2, 1, 3, 18, ("p cnf 2 1\n1 1 2 0\n", "p cnf 2 1\n1 2 0\n")),
    (
        1,
        1,
        3,
        18,
        ("p cnf 1 1\n1 1 2 0\n", "too many Variables at byte 14"),
    ),
    (
        1,
        1,
        3,
        18,
        ("p cnf 2 1\n1 1 2 0\n", "too many Variables at byte 6"),
    ),
    (
        2,
        0,
        3,
        18,
        ("p cnf 2 1\n1 1 2 0\n", "too many Clauses at byte 16"),
    ),
    (
        2,
        1,
        2,
        18,
        ("p cnf 2 1\n1 1 2 0\n", "too many Literals at byte 14"),
    ),
    (
        2,
        1,
        3,
        17,
        ("p cnf 2 1\n1 1 2 0\n", "too many Bytes at byte 17"),
    ),
    (
        9,
        9,
        9,
        12,
        ("p cnf 1 1\n1 0\n", "too many Bytes at byte 12"),
    ),
    (9, 9, 9, 12, ("p cnf 1 1\nx 1 0\n", "BadWord at byte 10")),
    (9, 9, 9, 12, ("p cnf 1 1\n%and more\n", "p cnf 1 0\n")),
    (
        9,
        9,
        9,
        10,
        ("p cnf 1 1\n%and more\n", "too many Bytes at byte 10"),
    ),
    (9, 9, 9, 12, ("p cnf 1 1\n1x 0\n", "BadWord at byte 10")),
    (
        9,
        9,
        9,
        12,
        ("p cnf 1 1\n1xy 0\n", "too many Bytes at byte 12"),
    ),
    (9, 9, 9, 4, ("%%%%%%%%\n", "too many Bytes at byte 4")),
    (9, 9, 9, 0, ("p cnf 1 1\n", "too many Bytes at byte 0")),
];

#[test]
fn limits_are_kept(rt: HostRuntime) -> Result<(), Fail> {
    for (variables, clauses, literals, bytes, row) in LIMITED {
        let limits = limits_of(variables, clauses, literals, bytes);
        assert_row(&rt, rt.alloc(), row, limits)?;
    }
    Ok(())
}
