//! Rounds with ample memory: two workers that meet under their locks, two that follow each other, and two rounds of one worker.
ghost use Rattle.std.specs.Prelude.{◌≡◌, IfOk};
ghost use Rattle.cp_phase.specs.Rounds.{IsFirstSeat};

use crate::rounds;
use cp_book::Book;
use cp_logic::{Choice, Clause, Formula, Lit, Opts, Rules};
use cp_occ::Cells;
use cp_worker::{Gate, GateEvent, OpenGate};
use cp_yard::{Seat, Yard};
use std::alloc::{AllocError, Global};
use std::sync::atomic::{AtomicU64, Ordering};
use std::test::Fail;

// Notes that its worker holds a neighbourhood, and then looks for the other many times.
#[derive(Drop)]
struct Meet {
    came: [AtomicU64; 2],
    met: [AtomicU64; 2],
}

impl Gate for Meet {
    fn at(&self, worker: u32, event: GateEvent) {
        let GateEvent::HoodHeld { .. } = event else {
            return;
        };
        let (mine, other) = if worker == 1 { (0, 1) } else { (1, 0) };
        self.came[mine].store(1, Ordering::SeqCst);
        for _ in 0..LOOKS {
            if self.came[other].load(Ordering::SeqCst) == 1 {
                self.met[mine].store(1, Ordering::SeqCst);
                return;
            }
        }
    }
}

// How often a worker looks for the other before it goes on alone.
const LOOKS: u64 = 200_000_000;

// Lets the worker that draws second wait until the first one has given its locks back, and the first one until the second has its own.
#[derive(Drop)]
struct Follow {
    first: AtomicU64,
    released: AtomicU64,
    followed: AtomicU64,
    told: [AtomicU64; 2],
}

impl Gate for Follow {
    fn at(&self, worker: u32, event: GateEvent) {
        let is_first = self.is_first(u64::from(worker));
        if worker == 1 || worker == 2 {
            self.told[worker as usize - 1].fetch_add(1, Ordering::SeqCst);
        }
        match event {
            GateEvent::Taken { .. } if !is_first => wait_for(&self.released),
            GateEvent::HoodHeld { .. } if !is_first => self.followed.store(1, Ordering::SeqCst),
            GateEvent::Released { .. } if is_first => {
                self.released.store(1, Ordering::SeqCst);
                wait_for(&self.followed);
            }
            _ => {}
        }
    }
}

impl Follow {
    // Whether no other worker came before this one.
    fn is_first(&self, worker: u64) -> bool {
        match self
            .first
            .compare_exchange(0, worker, Ordering::SeqCst, Ordering::SeqCst)
        {
            Ok(_) => true,
            Err(first) => first == worker,
        }
    }
}

// Looks until the flag is set, or too often.
fn wait_for(flag: &AtomicU64) {
    for _ in 0..LOOKS {
        if flag.load(Ordering::SeqCst) == 1 {
            return;
        }
    }
}

// Options for the techniques t and e.
fn opts_of(t: bool, e: bool, workers: u32, rounds: u32) -> Opts
    ensures { (result.workers ≡ workers) × (result.rounds ≡ rounds) }
{
    let choice = Choice {
        t,
        s: false,
        x: false,
        b: false,
        e,
    };
    let rules = Rules {
        choice,
        bound: 0,
        budget: 0,
    };
    Opts {
        rules,
        workers,
        rounds,
        hood: 512,
    }
}

fn yard_of(alloc: Global, formula: Formula, rules: Rules) -> Result<(Yard, Seat), AllocError>
    ensures table { IfOk result (λ r. r.1.table ≡ r.0.table) }
    ensures base { IfOk result (λ r. r.1.view.base ≡ r.0.base) }
    ensures rules { IfOk result (λ r. r.0.base.rules ≡ rules) }
    ensures first { IfOk result (λ r. IsFirstSeat r.1.view) }
{
    let book = Book::new(alloc, formula, rules)?;
    let cells = Cells::of_formula(alloc, book.clauses())?;
    Yard::new(alloc, book, cells)
}

fn add(alloc: Global, formula: &mut Formula, lits: &[Lit]) -> Result<(), AllocError> {
    let clause = Clause::from_lits(alloc, lits)?;
    if clause.is_within(formula.vars()) && formula.next() < 1_099_511_627_776 {
        formula.push(clause)?;
    }
    Ok(())
}

#[test]
fn two_workers_meet(rt: HostRuntime) -> Result<(), Fail> {
    let alloc = rt.alloc();
    let mut formula = Formula::new(alloc, 2, 1);
    add(alloc, &mut formula, &[Lit::new(1, true)])?;
    add(alloc, &mut formula, &[Lit::new(2, true)])?;
    let opts = opts_of(true, false, 2, 1);
    let (yard, seat) = yard_of(alloc, formula, opts.rules)?;
    let gate = Meet {
        came: [AtomicU64::new(0), AtomicU64::new(0)],
        met: [AtomicU64::new(0), AtomicU64::new(0)],
    };
    let phase = rounds(&rt, alloc, yard, seat, &opts, &gate)?;
    assert_eq!(rt; gate.met[0].load(Ordering::SeqCst), 1);
    assert_eq!(rt; gate.met[1].load(Ordering::SeqCst), 1);
    assert_eq!(rt; phase.shifts.len(), 2);
    for shift in phase.shifts.iter() {
        assert_eq!(rt; shift.taken.len(), 1);
    }
    Ok(())
}

#[test]
fn a_worker_follows_the_other(rt: HostRuntime) -> Result<(), Fail> {
    let alloc = rt.alloc();
    let mut formula = Formula::new(alloc, 2, 1);
    add(alloc, &mut formula, &[Lit::new(1, true), Lit::new(2, true)])?;
    let opts = opts_of(true, false, 2, 1);
    let (yard, seat) = yard_of(alloc, formula, opts.rules)?;
    let gate = Follow {
        first: AtomicU64::new(0),
        released: AtomicU64::new(0),
        followed: AtomicU64::new(0),
        told: [AtomicU64::new(0), AtomicU64::new(0)],
    };
    let phase = rounds(&rt, alloc, yard, seat, &opts, &gate)?;
    assert_eq!(rt; gate.followed.load(Ordering::SeqCst), 1);
    assert_eq!(rt; gate.told[0].load(Ordering::SeqCst), 3);
    assert_eq!(rt; gate.told[1].load(Ordering::SeqCst), 3);
    for shift in phase.shifts.iter() {
        assert_eq!(rt; shift.taken.len(), 1);
        assert_eq!(rt; shift.busy.len(), 0);
    }
    Ok(())
}

#[test]
fn one_worker_works_two_rounds(rt: HostRuntime) -> Result<(), Fail> {
    let alloc = rt.alloc();
    let mut formula = Formula::new(alloc, 3, 1);
    add(alloc, &mut formula, &[Lit::new(1, true), Lit::new(2, true)])?;
    add(
        alloc,
        &mut formula,
        &[Lit::new(1, false), Lit::new(3, true)],
    )?;
    let opts = opts_of(false, true, 1, 2);
    let (yard, seat) = yard_of(alloc, formula, opts.rules)?;
    let phase = rounds(&rt, alloc, yard, seat, &opts, &OpenGate)?;
    assert_eq!(rt; phase.ground.book.journal().len(), 2);
    let mut commits = Vec::new(alloc);
    for shift in phase.shifts.iter() {
        commits.push((shift.round, shift.commits.len()))?;
    }
    assert_eq!(rt; commits.as_slice(), [(1, 2), (2, 0)].as_slice());
    Ok(())
}
