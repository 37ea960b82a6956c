//! Journals that are printed to a desk in memory.

ghost use Rattle.std.specs.Prelude.{◌≡◌, IfOk};
ghost use Rattle.cp_io.specs.Port.{NothingBound};
ghost use Rattle.cp_io.specs.Memory.{memory_port};

use crate::{Form, print_log};
use cp_io::{Desk, Failed, Inputs, MemDesk, Role, Way};
use cp_logic::{Clause, Entry, Journal, Lit, Named, NamedList, Post};
use std::alloc::{AllocError, Global};
use std::test::Fail;

/// An entry by its literals, without the numbers of its clauses, which no log has.
#[derive(Clone, Copy)]
enum Step {
    Taut(&'static [i32]),
    Subsume(&'static [i32], &'static [i32]),
    Strengthen(&'static [i32], &'static [i32], i32, &'static [i32]),
    Block(&'static [i32], i32),
    Eliminate(u32, &'static [&'static [i32]], &'static [&'static [i32]], &'static [&'static [i32]]),
    Look(u32),
}

#[test]
fn journals_are_printed(rt: HostRuntime) -> Result<(), Fail> {
    let rows: [(&[Step], &str); 7] = [
        (&[], ""),
        (&[Step::Strengthen(&[1], &[-1], -1, &[])], "0\n"),
        (&[Step::Subsume(&[1, 2], &[1, 2])], "d 1 2 0\n"),
        (
            &[
                Step::Eliminate(1, &[&[1, 2]], &[&[-1, 3]], &[&[2, 3]]),
                Step::Eliminate(2, &[&[2, 3]], &[], &[]),
            ],
            "2 3 0\nd 1 2 0\nd -1 3 0\nd 2 3 0\n",
        ),
        (
            &[
                Step::Look(7),
                Step::Taut(&[5, -5]),
                Step::Block(&[-2, 1], -2),
            ],
            "d 5 -5 0\nd 1 -2 0\n",
        ),
        (
            &[
                Step::Strengthen(&[-7], &[2_000_000, 7], 7, &[2_000_000]),
                Step::Eliminate(3, &[&[3]], &[&[-3]], &[&[], &[4]]),
                Step::Taut(&[5, -5]),
            ],
            "2000000 0\nd 7 2000000 0\n0\n",
        ),
        (&[Step::Eliminate(3, &[], &[&[-3, 12]], &[])], "d -3 12 0\n"),
    ];
    for (steps, wanted) in rows {
        let journal = journal_of(rt.alloc(), steps)?;
        let mut desk = desk_of(rt.alloc())?;
        print_of(&mut desk, &journal, Form::Text)
            .ok()
            .ok_or("not printed")?;
        assert_eq!(rt; desk.written(Role::Proof), wanted.as_bytes());
    }
    Ok(())
}

#[test]
fn journals_are_printed_in_binary(rt: HostRuntime) -> Result<(), Fail> {
    let rows: [(&[Step], &[u8]); 4] = [
        (&[], &[]),
        (&[Step::Strengthen(&[1], &[-1], -1, &[])], &[0x61, 0]),
        (
            &[
                Step::Eliminate(1, &[&[1, 2]], &[&[-1, 3]], &[&[2, 3]]),
                Step::Eliminate(2, &[&[2, 3]], &[], &[]),
            ],
            &[0x61, 4, 6, 0, 0x64, 2, 4, 0, 0x64, 3, 6, 0, 0x64, 4, 6, 0],
        ),
        (
            &[Step::Block(&[64, -8192, 2_000_000], 64)],
            &[0x64, 0x80, 1, 0x81, 0x80, 1, 0x80, 0x92, 0xf4, 1, 0],
        ),
    ];
    for (steps, wanted) in rows {
        let journal = journal_of(rt.alloc(), steps)?;
        let mut desk = desk_of(rt.alloc())?;
        print_of(&mut desk, &journal, Form::Binary)
            .ok()
            .ok_or("not printed")?;
        assert_eq!(rt; desk.written(Role::Proof), wanted);
    }
    Ok(())
}

// A desk of which no role is bound.
fn desk_of(alloc: Global) -> Result<MemDesk, AllocError>
    ensures { IfOk result (λ desk. NothingBound (memory_port desk)) }
{
    MemDesk::honest(alloc, Inputs::new(alloc))
}

fn print_of<D: Desk>(desk: &mut D, journal: &Journal, form: Form) -> Result<(), Failed>
    requires { NothingBound (D.port desk.old) }
{
    desk.bind(Role::Proof, Way::Out, "out")?;
    print_log(desk, journal, form)
}

fn journal_of(alloc: Global, steps: &[Step]) -> Result<Journal, AllocError> {
    let mut journal = Journal::new(alloc);
    for step in steps {
        let entry = entry_of(alloc, *step)?;
        journal.push(Post {
            worker: 0,
            round: 0,
            entry,
        })?;
    }
    Ok(journal)
}

fn entry_of(alloc: Global, step: Step) -> Result<Entry, AllocError> {
    Ok(match step {
        Step::Taut(gone) => Entry::Taut {
            gone: named(alloc, gone)?,
        },
        Step::Subsume(by, gone) => Entry::Subsume {
            by: named(alloc, by)?,
            gone: named(alloc, gone)?,
        },
        Step::Strengthen(by, on, lit, new) => Entry::Strengthen {
            by: named(alloc, by)?,
            on: named(alloc, on)?,
            lit: lit_of(lit),
            new: named(alloc, new)?,
        },
        Step::Block(gone, lit) => Entry::Block {
            gone: named(alloc, gone)?,
            lit: lit_of(lit),
        },
        Step::Eliminate(var, pos, neg, new) => Entry::Eliminate {
            var,
            pos: named_list(alloc, pos)?,
            neg: named_list(alloc, neg)?,
            new: named_list(alloc, new)?,
        },
        Step::Look(var) => Entry::Look { var },
    })
}

fn named_list(alloc: Global, clauses: &[&[i32]]) -> Result<NamedList, AllocError> {
    let mut list = NamedList::new(alloc);
    for literals in clauses {
        list.push(named(alloc, literals)?)?;
    }
    Ok(list)
}

fn named(alloc: Global, literals: &[i32]) -> Result<Named, AllocError> {
    let mut lits = Vec::new(alloc);
    for literal in literals {
        lits.push(lit_of(*literal))?;
    }
    let clause = Clause::from_lits(alloc, lits.as_slice())?;
    Ok(Named { number: 1, clause })
}

fn lit_of(literal: i32) -> Lit {
    let var = literal.unsigned_abs().max(1).min(2_000_000);
    Lit::new(var, literal > 0)
}
