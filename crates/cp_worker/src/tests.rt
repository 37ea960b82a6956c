//! Visits and shifts on small yards, with ample memory: how each ends, and what it lists.
ghost use Rattle.std.specs.Prelude.{◌≡◌, IfOk};
ghost use Rattle.cp_hood.specs.Hoods.{IsIdle};

use crate::{AtAnswer, OpenGate, WorkerShift, shift, try_at};
use cp_book::Book;
use cp_claim::Claims;
use cp_logic::{Choice, Clause, Formula, Lit, Opts, Rules};
use cp_occ::Cells;
use cp_yard::{Seat, Yard};
use std::alloc::{AllocError, Global};
use std::test::Fail;

const LAST: u64 = 1_099_511_627_775;

// Options for tautologies, strengthening and elimination.
fn opts_of(budget: u64, hood: u32) -> Opts
    ensures { result.workers ≡ 1 }
{
    let choice = Choice {
        t: true,
        s: false,
        x: true,
        b: false,
        e: true,
    };
    let rules = Rules {
        choice,
        bound: 0,
        budget,
    };
    Opts {
        rules,
        workers: 1,
        rounds: 1,
        hood,
    }
}

// A yard over three variables and these clauses, numbered from `next` on, and its seats 1 and 2.
fn yard_of(
    alloc: Global,
    clauses: &[&[i32]],
    next: u64,
    opts: &Opts,
) -> Result<(Yard, Seat, Seat), AllocError>
    ensures yard { IfOk result (λ r. (r.0.base.rules ≡ opts.now.rules) × (r.0.base.formula.variables ≡ 3)) }
    ensures first { IfOk result (λ r. (r.1.table ≡ r.0.table) × (r.1.view.base ≡ r.0.base) × IsIdle r.1.view) }
    ensures second { IfOk result (λ r. (r.2.table ≡ r.0.table) × (r.2.view.base ≡ r.0.base) × IsIdle r.2.view) }
{
    let mut formula = Formula::new(alloc, 3, next.max(1).min(LAST));
    for literals in clauses {
        let clause = clause_of(alloc, literals)?;
        if clause.is_within(3) && formula.next() <= LAST {
            formula.push(clause)?;
        }
    }
    let book = Book::new(alloc, formula, opts.rules)?;
    let cells = Cells::of_formula(alloc, book.clauses())?;
    let (yard, mut zero) = Yard::new(alloc, book, cells)?;
    let first = yard.split(&mut zero);
    let second = yard.split(&mut zero);
    Ok((yard, first, second))
}

fn clause_of(alloc: Global, literals: &[i32]) -> Result<Clause, AllocError> {
    let mut lits = Vec::new(alloc);
    for literal in literals {
        let var = literal.unsigned_abs().max(1).min(3);
        lits.push(Lit::new(var, *literal > 0))?;
    }
    Clause::from_lits(alloc, lits.as_slice())
}

// How a visit of 1 ends.
fn visit(alloc: Global, yard: &Yard, seat: &mut Seat, opts: &Opts) -> Result<String, AllocError>
    requires seat { (seat.old.table ≡ yard.now.table) × (seat.old.view.base ≡ yard.now.base) × IsIdle seat.old.view }
    requires yard { (opts.now.rules ≡ yard.now.base.rules) × (yard.now.base.formula.variables ≡ 3) }
    ensures seat { (seat.new.table ≡ yard.now.table) × (seat.new.view.base ≡ yard.now.base) × IsIdle seat.new.view }
{
    let answer = try_at(alloc, yard, seat, 1, 1, opts, &OpenGate)?;
    ending_of(alloc, &answer)
}

// What stands in brackets are the positions of its commits.
fn ending_of(alloc: Global, answer: &AtAnswer) -> Result<String, AllocError> {
    match answer {
        AtAnswer::Settled { commits } => format!(in alloc; "settled {:?}", commits.as_slice()),
        AtAnswer::Busy { var, by } => format!(in alloc; "{var} is held by {by}"),
        AtAnswer::Wide { count } => format!(in alloc; "{count} variables"),
        AtAnswer::TurnHeld { by, commits } => {
            format!(in alloc; "the turn is held by {by} {:?}", commits.as_slice())
        }
        AtAnswer::Stopped { stop, commits } => {
            format!(in alloc; "{stop:?} {:?}", commits.as_slice())
        }
    }
}

// What a shift in round 1 lists.
fn work(alloc: Global, yard: &Yard, seat: &mut Seat, opts: &Opts) -> Result<String, AllocError>
    requires seat { (seat.old.table ≡ yard.now.table) × (seat.old.view.base ≡ yard.now.base) × IsIdle seat.old.view }
    requires yard { (opts.now.rules ≡ yard.now.base.rules) × (yard.now.base.formula.variables ≡ 3) }
    requires workers { opts.now.workers ≡ 1 }
    ensures seat { (seat.new.table ≡ yard.now.table) × (seat.new.view.base ≡ yard.now.base) × IsIdle seat.new.view }
{
    let (claims, mut claim) = Claims::new(alloc, 3)?;
    let done = shift(alloc, yard, &claims, &mut claim, seat, 1, opts, &OpenGate)?;
    listing_of(alloc, &done)
}

// The worker and the round, what was drawn, the commits, what was busy, late and wide, and why the shift stopped.
fn listing_of(alloc: Global, done: &WorkerShift) -> Result<String, AllocError> {
    format!(in alloc;
        "{}, {}: {:?} {:?} {:?} {:?} {:?} {:?}",
        done.worker,
        done.round,
        done.taken.as_slice(),
        done.commits.as_slice(),
        done.busy.as_slice(),
        done.late.as_slice(),
        done.wide.as_slice(),
        done.stopped
    )
}

#[test]
fn visits(rt: HostRuntime) -> Result<(), Fail> {
    let tautologies: &[&[i32]] = &[&[1, -1, 2], &[1, -1, 3]];
    let rows: [(&[&[i32]], u64, u64, u32, &str); 6] = [
        (tautologies, 1, 0, 512, "settled [0, 1]"),
        (&[&[2, 3]], 1, 0, 512, "settled []"),
        (tautologies, 1, 0, 2, "3 variables"),
        (tautologies, 1, 1, 512, "Spent [0]"),
        (&[&[1, 2], &[-1, 3]], LAST - 1, 0, 512, "Numbers []"),
        (&[&[1], &[-1]], 1, 0, 512, "Refuted [0]"),
    ];
    for (clauses, next, budget, hood, expected) in rows {
        let opts = opts_of(budget, hood);
        let (yard, mut seat, _other) = yard_of(rt.alloc(), clauses, next, &opts)?;
        let ending = visit(rt.alloc(), &yard, &mut seat, &opts)?;
        assert_eq!(rt; ending.as_str(), expected);
    }
    Ok(())
}

#[test]
fn visits_beside_another_seat(rt: HostRuntime) -> Result<(), Fail> {
    let opts = opts_of(0, 512);
    let (yard, mut seat, mut other) = yard_of(rt.alloc(), &[&[1, 2], &[-1, 3]], 1, &opts)?;
    let Ok(three) = yard.try_lock(&mut other, 3) else {
        panic!(rt; "the lock of 3 is free");
    };
    let ending = visit(rt.alloc(), &yard, &mut seat, &opts)?;
    assert_eq!(rt; ending.as_str(), "3 is held by 2");
    yard.unlock(&mut other, 3, three);
    let Ok(book) = yard.try_turn(&mut other) else {
        panic!(rt; "the turn is free");
    };
    let ending = visit(rt.alloc(), &yard, &mut seat, &opts)?;
    assert_eq!(rt; ending.as_str(), "the turn is held by 2 []");
    yard.end_turn(&mut other, book);
    let ending = visit(rt.alloc(), &yard, &mut seat, &opts)?;
    assert_eq!(rt; ending.as_str(), "settled [0]");
    Ok(())
}

#[test]
fn shifts(rt: HostRuntime) -> Result<(), Fail> {
    let rows = [
        (0, 512, "1, 1: [1, 2, 3] [0, 1] [] [] [] None"),
        (1, 512, "1, 1: [1, 2] [0] [] [] [] Some(Spent)"),
        (
            0,
            1,
            "1, 1: [1, 2, 3] [] [] [] [WideAt { at: 1, count: 3 }, WideAt { at: 2, count: 2 }, WideAt { at: 3, count: 2 }] None",
        ),
    ];
    for (budget, hood, expected) in rows {
        let opts = opts_of(budget, hood);
        let (yard, mut seat, _other) = yard_of(rt.alloc(), &[&[1, 2], &[-1, 3]], 1, &opts)?;
        let listed = work(rt.alloc(), &yard, &mut seat, &opts)?;
        assert_eq!(rt; listed.as_str(), expected);
    }
    Ok(())
}
