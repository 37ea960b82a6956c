//! Stacks that are printed to a desk in memory, and read from their text.

ghost use Rattle.std.specs.Prelude.{◌≡◌, ◌<◌, IfOk};
ghost use Rattle.cp_io.specs.Port.{NothingBound};
ghost use Rattle.cp_io.specs.Memory.{memory_port};
ghost use Rattle.cp_io.specs.Limits.{IsWithinStandard};

use crate::{StackKind, StackReader, StackRefusal, parse_stack, print_stack};
use cp_io::{Desk, Failed, Inputs, Limit, Limits, MemDesk, Role, Way};
use cp_logic::{Clause, Lit, Pair, Stack};
use std::alloc::{AllocError, Global};
use std::test::Fail;

#[test]
fn stacks_are_printed(rt: HostRuntime) -> Result<(), Fail> {
    let rows: [(u32, &[&[i32]], &str); 5] = [
        (0, &[], "p stack 1 0 0\n"),
        (
            3,
            &[&[1, 2], &[-1, 3], &[2, 3]],
            "p stack 1 3 3\n1 2 0\n-1 3 0\n2 3 0\n",
        ),
        (3, &[&[2, 1], &[-2, -1]], "p stack 1 3 2\n2 1 0\n-2 -1 0\n"),
        (
            3,
            &[&[2, 1], &[-2, -1], &[3, -1], &[-3, 1]],
            "p stack 1 3 4\n2 1 0\n-2 -1 0\n3 -1 0\n-3 1 0\n",
        ),
        (
            2_000_000,
            &[&[-7], &[2_000_000, 12, -3, 5, 1]],
            "p stack 1 2000000 2\n-7 0\n2000000 1 -3 5 12 0\n",
        ),
    ];
    for (vars, pairs, wanted) in rows {
        let stack = stack_of(rt.alloc(), vars, pairs)?;
        let mut desk = desk_of(rt.alloc())?;
        print_of(&mut desk, &stack).ok().ok_or("not printed")?;
        assert_eq!(rt; desk.written(Role::Stack), wanted.as_bytes());
    }
    Ok(())
}

// A desk of which no role is bound.
fn desk_of(alloc: Global) -> Result<MemDesk, AllocError>
    ensures { IfOk result (λ desk. NothingBound (memory_port desk)) }
{
    MemDesk::honest(alloc, Inputs::new(alloc))
}

fn print_of<D: Desk>(desk: &mut D, stack: &Stack) -> Result<(), Failed>
    requires { NothingBound (D.port desk.old) }
{
    desk.bind(Role::Stack, Way::Out, "out")?;
    print_stack(desk, stack)
}

// The stack of these clauses, each with its first literal.
fn stack_of(alloc: Global, vars: u32, pairs: &[&[i32]]) -> Result<Stack, AllocError> {
    let mut stack = Stack::new(alloc, vars);
    for literals in pairs {
        if let Some(first) = literals.first() {
            let lit = lit_of(*first);
            let clause = clause_of(alloc, literals)?;
            if clause.contains(lit) && clause.is_within(stack.vars) {
                stack.push(Pair::new(lit, clause))?;
            }
        }
    }
    Ok(stack)
}

fn clause_of(alloc: Global, literals: &[i32]) -> Result<Clause, AllocError> {
    let mut lits = Vec::new(alloc);
    for literal in literals {
        lits.push(lit_of(*literal))?;
    }
    Clause::from_lits(alloc, lits.as_slice())
}

fn lit_of(literal: i32) -> Lit {
    let var = literal.unsigned_abs().max(1).min(2_000_000);
    Lit::new(var, literal > 0)
}

// The stack of a text that is fed in pieces of so many bytes.
fn read_in_pieces(
    alloc: Global,
    text: &[u8],
    size: usize,
    limits: Limits,
) -> Result<Stack, StackRefusal>
    requires within { IsWithinStandard limits }
    requires some { 0 < size }
{
    let mut reader = StackReader::new(alloc, limits);
    for piece in text.chunks(size) {
        reader.feed(piece)?;
    }
    reader.finish()
}

#[test]
fn stacks_are_read(rt: HostRuntime) -> Result<(), Fail> {
    let rows = [
        ("p stack 1 0 0\n", "p stack 1 0 0\n"),
        (
            "p stack 1 3 3\n1 2 0\n-1 3 0\n2 3 0\n",
            "p stack 1 3 3\n1 2 0\n-1 3 0\n2 3 0\n",
        ),
        (
            "\n \r\n p\tstack 1 003 02 \n\n3 -1\n 3 2 00 -2\n\n0",
            "p stack 1 3 2\n3 -1 2 0\n-2 0\n",
        ),
        (
            "p stack 1 2000000 1\n2000000 7 -7 6 5 4 0",
            "p stack 1 2000000 1\n2000000 4 5 6 7 -7 0\n",
        ),
    ];
    let limits = Limits::standard();
    for (text, wanted) in rows {
        for size in 1..8 {
            let stack = read_in_pieces(rt.alloc(), text.as_bytes(), size, limits)?;
            let mut desk = desk_of(rt.alloc())?;
            print_of(&mut desk, &stack).ok().ok_or("not printed")?;
            assert_eq!(rt; desk.written(Role::Stack), wanted.as_bytes());
        }
    }
    Ok(())
}

// Whether the text is refused so, whole and in pieces of any size up to seven bytes.
fn all_refuse(alloc: Global, text: &[u8], wanted: StackRefusal) -> bool {
    let limits = Limits::standard();
    let whole = parse_stack(alloc, text, &limits).err();
    let mut same = whole == Some(wanted);
    for size in 1..8 {
        let refusal = read_in_pieces(alloc, text, size, limits).err();
        same = same && refusal == Some(wanted);
    }
    same
}

#[test]
fn bad_headers_are_refused(rt: HostRuntime) -> Result<(), Fail> {
    let rows = [
        ("", 0, StackKind::BadHeader),
        (" \n\n\t", 4, StackKind::BadHeader),
        ("c x\np stack 1 0 0\n", 0, StackKind::BadHeader),
        ("p cnf 1 1\n", 2, StackKind::BadHeader),
        ("p stack 2 1 0\n", 8, StackKind::BadHeader),
        ("p stack 01 1 0\n", 8, StackKind::BadHeader),
        ("p stack 1 -1 0\n", 10, StackKind::BadHeader),
        ("p stack 1 1 -1\n", 12, StackKind::BadHeader),
        ("p stack 1 7\n", 11, StackKind::BadHeader),
        ("p stack 1", 9, StackKind::BadHeader),
        ("p stack 1 1 0 0\n", 14, StackKind::BadHeader),
        (
            "p stack 1 1 18446744073709551616\n",
            12,
            StackKind::BadHeader,
        ),
    ];
    for (text, offset, kind) in rows {
        let wanted = StackRefusal::BadStack { offset, kind };
        assert!(rt; all_refuse(rt.alloc(), text.as_bytes(), wanted), "{text:?}");
    }
    Ok(())
}

#[test]
fn bad_pairs_are_refused(rt: HostRuntime) -> Result<(), Fail> {
    let rows = [
        ("p stack 1 1 1\n+1 0\n", 14, StackKind::BadWord),
        ("p stack 1 1 1\n1 -0\n", 16, StackKind::BadWord),
        ("p stack 1 0 0\nx\n", 14, StackKind::BadWord),
        ("p stack 1 2 1\n1 -3 0\n", 16, StackKind::TooGreat),
        (
            "p stack 1 2 1\n99999999999999999999999 0\n",
            14,
            StackKind::TooGreat,
        ),
        ("p stack 1 1 0\n2\n", 14, StackKind::TooGreat),
        ("p stack 1 2 2\n1 0 0\n", 18, StackKind::EmptyPair),
        ("p stack 1 0 0\n0\n", 14, StackKind::EmptyPair),
        ("p stack 1 2 2\n1 2", 17, StackKind::OpenPair),
        ("p stack 1 3 3\n1 2 0\n", 20, StackKind::Count),
        ("p stack 1 1 18446744073709551615\n", 33, StackKind::Count),
        ("p stack 1 2 1\n1 0 2 0\n", 18, StackKind::Count),
    ];
    for (text, offset, kind) in rows {
        let wanted = StackRefusal::BadStack { offset, kind };
        assert!(rt; all_refuse(rt.alloc(), text.as_bytes(), wanted), "{text:?}");
    }
    Ok(())
}

// What a text is refused with, where no more than so many variables and bytes are read.
fn refusal_within(
    alloc: Global,
    text: &str,
    size: usize,
    variables: u32,
    bytes: u64,
) -> Option<StackRefusal>
    requires { 0 < size }
{
    let standard = Limits::standard();
    let limits = Limits {
        variables: variables.min(standard.variables),
        bytes: bytes.min(standard.bytes),
        ..standard
    };
    read_in_pieces(alloc, text.as_bytes(), size, limits).err()
}

#[test]
fn limits_are_kept(rt: HostRuntime) -> Result<(), Fail> {
    let variables = |offset| {
        Some(StackRefusal::TooLarge {
            limit: Limit::Variables,
            offset,
        })
    };
    let bytes = |offset| {
        Some(StackRefusal::TooLarge {
            limit: Limit::Bytes,
            offset,
        })
    };
    let bad = |offset, kind| Some(StackRefusal::BadStack { offset, kind });
    let rows = [
        ("p stack 1 2000001 x\n", 2_000_000, 99, variables(10)),
        ("p stack 1 2 0\n", 2, 14, None),
        ("p stack 1 3 0\n", 2, 14, variables(10)),
        ("p stack 1 2 0\n", 2, 13, bytes(13)),
        ("p stack 1 2 0\n", 2, 0, bytes(0)),
        ("p stack 1 1 1\nx 1 0\n", 9, 15, bad(14, StackKind::BadWord)),
        ("p stack 1 1 1\nxx 1 0\n", 9, 15, bytes(15)),
        ("p stack 1 1\n", 9, 11, bytes(11)),
        ("p stack 1 1\n\n", 9, 12, bad(11, StackKind::BadHeader)),
        ("p stack 1 1 1\n1 0\nand more", 9, 18, bytes(18)),
    ];
    for (text, most, long, wanted) in rows {
        for size in 1..8 {
            let refusal = refusal_within(rt.alloc(), text, size, most, long);
            assert_eq!(rt; refusal, wanted, "{text:?}");
        }
    }
    Ok(())
}

#[test]
fn kinds_are_printed_by_name(rt: HostRuntime) -> Result<(), Fail> {
    let rows = [
        (StackKind::BadHeader, "BadHeader"),
        (StackKind::BadWord, "BadWord"),
        (StackKind::TooGreat, "TooGreat"),
        (StackKind::EmptyPair, "EmptyPair"),
        (StackKind::OpenPair, "OpenPair"),
        (StackKind::Count, "Count"),
    ];
    for (kind, name) in rows {
        let printed = format!(in rt.alloc(); "{kind}")?;
        assert_eq!(rt; printed.as_str(), name);
    }
    Ok(())
}
