//! The work of `simplify`: the rounds of the workers, if there are any, and the sweep behind them.

ghost use Rattle.std.specs.Prelude.{◌≡◌, ◌≤◌, ◌⊎◌, IfOk};
ghost use Rattle.cp_logic.specs.Journals.{number_limit};
ghost use Rattle.cp_top.specs.Steps.{IsResult};

use cp_book::Book;
use cp_logic::{Formula, Opts};
use cp_occ::Cells;
use cp_phase::rounds;
use cp_sweep::{Swept, simplify, sweep};
use cp_worker::{Gate, Shifts};
use cp_yard::{Record, Yard};
use std::alloc::{AllocError, Global};
use std::thread::Threads;

/// What is left of a formula, and what the workers did.
#[derive(Drop)]
pub(crate) struct Simplified {
    pub(crate) swept: Swept,
    pub(crate) shifts: Shifts,
    pub(crate) kept: Option<Record>,
}

/// Simplifies the formula on one thread, by a sweep.
pub(crate) fn simplify_alone(
    alloc: Global,
    formula: Formula,
    opts: &Opts,
) -> Result<Simplified, AllocError>
    requires numbers { formula.formula.next ≤ number_limit }
    ensures { IfOk result (IsResult 0 opts.now.rounds opts.now.hood formula.formula opts.now.rules) }
{
    Ok(Simplified {
        swept: simplify(alloc, formula, &opts.rules)?,
        shifts: Shifts::new(alloc),
        kept: None,
    })
}

/// Simplifies the formula by rounds of workers in threads, and then by a sweep; without a worker or a round by the sweep alone.
pub(crate) fn simplify_by<R: Threads + Sync, G: Gate + Sync>(
    rt: &R,
    alloc: Global,
    formula: Formula,
    opts: &Opts,
    gate: &G,
) -> Result<Simplified, AllocError>
    requires numbers { formula.formula.next ≤ number_limit }
    requires workers { opts.now.workers ≤ 64 }
    ensures { IfOk result (IsResult opts.now.workers opts.now.rounds opts.now.hood formula.formula opts.now.rules) }
{
    if opts.workers == 0 || opts.rounds == 0 {
        return simplify_alone(alloc, formula, opts);
    }
    simplify_with_workers(rt, alloc, formula, opts, gate)
}

fn simplify_with_workers<R: Threads + Sync, G: Gate + Sync>(
    rt: &R,
    alloc: Global,
    formula: Formula,
    opts: &Opts,
    gate: &G,
) -> Result<Simplified, AllocError>
    requires numbers { formula.formula.next ≤ number_limit }
    requires workers { (1 ≤ opts.now.workers) × (opts.now.workers ≤ 64) }
    requires rounds { 1 ≤ opts.now.rounds }
    ensures { IfOk result (IsResult opts.now.workers opts.now.rounds opts.now.hood formula.formula opts.now.rules) }
{
    let cells = Cells::of_formula(alloc, &formula)?;
    let book = Book::new(alloc, formula, opts.rules)?;
    let (yard, seat) = Yard::new(alloc, book, cells)?;
    let phase = rounds(rt, alloc, yard, seat, opts, gate)?;
    Ok(Simplified {
        swept: sweep(alloc, phase.ground)?,
        shifts: phase.shifts,
        kept: Some(phase.kept),
    })
}
