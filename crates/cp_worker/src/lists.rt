//! What a shift lists.
ghost use Rattle.std.specs.Prelude.{◌≡◌, ◌<◌, ◌^◌, ◌++◌, [], length, None, OnOk};
ghost use Rattle.cp_worker.specs.Listing.{IsListing};

use crate::answer::AtAnswer;
use cp_logic::{Items, Stop};
use std::alloc::{AllocError, Global};

/// A candidate that was left because the lock of the variable `var` was held by seat `by`, at its last try.
#[derive(Clone, Copy, PartialEq, Eq, Debug)]
pub struct BusyAt {
    pub at: u32,
    pub var: u32,
    pub by: u32,
}

/// A candidate that was left because the turn was held, last by seat `by`.
#[derive(Clone, Copy, PartialEq, Eq, Debug)]
pub struct LateAt {
    pub at: u32,
    pub by: u32,
}

/// A candidate that was left because its neighbourhood has `count` variables, more than the limit.
#[derive(Clone, Copy, PartialEq, Eq, Debug)]
pub struct WideAt {
    pub at: u32,
    pub count: u32,
}

/// Variables.
pub type VarList = Items<u32>;

/// Positions in the journal, counted from 0.
pub type Positions = Items<u64>;

/// Candidates that were left at a held lock.
pub type BusyList = Items<BusyAt>;

/// Candidates that were left at a held turn.
pub type LateList = Items<LateAt>;

/// Candidates that were left as too wide.
pub type WideList = Items<WideAt>;

/// What one worker did in one round.
#[derive(Drop)]
pub struct WorkerShift {
    /// The number of the worker's seat.
    pub worker: u32,
    /// The round, counted from 1.
    pub round: u32,
    /// The candidates in the order in which they were drawn.
    pub taken: VarList,
    /// The positions of the posts, in order.
    pub commits: Positions,
    /// The candidates that were left, by cause, in the order in which they were drawn.
    pub busy: BusyList,
    pub late: LateList,
    pub wide: WideList,
    /// Why the shift ended before no candidate was left, if so.
    pub stopped: Option<Stop>,
}

/// Shifts, by round and then worker.
pub type Shifts = Items<WorkerShift>;

impl WorkerShift {
    // A shift in which nothing was drawn yet.
    pub(crate) fn new(alloc: Global, worker: u32, round: u32) -> WorkerShift
        ensures who { (result.worker ≡ worker) × (result.round ≡ round) }
        ensures empty { (result.taken.items ≡ []) × (result.commits.items ≡ []) × (result.busy.items ≡ []) × (result.late.items ≡ []) × (result.wide.items ≡ []) }
        ensures stopped { result.stopped ≡ None }
    {
        WorkerShift {
            worker,
            round,
            taken: VarList::new(alloc),
            commits: Positions::new(alloc),
            busy: BusyList::new(alloc),
            late: LateList::new(alloc),
            wide: WideList::new(alloc),
            stopped: None,
        }
    }

    // Lists the candidate, with how its visit ended.
    pub(crate) fn list(&mut self, at: u32, answer: AtAnswer) -> Result<(), AllocError>
        ensures listing { OnOk result (IsListing at answer self.old self.new) }
        ensures few { OnOk result (length self.new.taken.items < 2 ^ 64) }
    {
        self.taken.push(at)?;
        // A list has fewer than 2^64 items, so the draws of a shift come to an end.
        self.taken.len();
        match answer {
            AtAnswer::Settled { commits } => append(&mut self.commits, &commits),
            AtAnswer::Busy { var, by } => self.busy.push(BusyAt { at, var, by }),
            AtAnswer::Wide { count } => self.wide.push(WideAt { at, count }),
            AtAnswer::TurnHeld { by, commits } => {
                append(&mut self.commits, &commits)?;
                self.late.push(LateAt { at, by })
            }
            AtAnswer::Stopped { stop, commits } => {
                self.stopped = Some(stop);
                append(&mut self.commits, &commits)
            }
        }
    }
}

fn append(list: &mut Positions, more: &Positions) -> Result<(), AllocError>
    ensures { OnOk result (list.new.items ≡ list.old.items ++ more.now.items) }
{
    for position in more.as_slice() {
        list.push(*position)?;
    }
    Ok(())
}
