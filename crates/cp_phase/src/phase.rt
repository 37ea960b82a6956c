//! The rounds.
ghost use Rattle.std.specs.Prelude.{◌≡◌, ◌<◌, ◌≤◌, ◌+◌, ℕ, [], length, IfOk};
ghost use Rattle.cp_logic.specs.Journals.{posts_of};
ghost use Rattle.cp_book.specs.Views.{current};
ghost use Rattle.cp_occ.specs.Changes.{AreCellsOf};
ghost use Rattle.cp_yard.specs.Views.{base_of, all_shares};
ghost use Rattle.cp_yard.specs.Rule.{Account};
ghost use Rattle.cp_phase.specs.Rounds.{AreShifts, IsFirstSeat, EndsAt};
ghost use Rattle.cp_phase.specs.Teams.{AreSeats, AreNew, ArePlayed};

use crate::round::play_round;
use crate::team::{join_seats, split_seats};
use cp_logic::Opts;
use cp_worker::{Gate, Shifts};
use cp_yard::{Ground, Record, Seat, Yard};
use std::alloc::{AllocError, Global};
use std::thread::Threads;

/// What the rounds leave.
#[derive(Drop)]
pub struct Phase {
    /// The book with the workers' posts, and the cells of its current clauses.
    pub ground: Ground,
    /// What each seat did, seat 0 and the workers 1 to their number.
    pub kept: Record,
    /// The shifts, by round and then worker.
    pub shifts: Shifts,
}

// The rounds from 1 on, up to the number asked for or that in which a shift stops. The seats after them.
fn play_all<R: Threads + Sync, G: Gate + Sync>(
    rt: &R,
    alloc: Global,
    yard: &Yard,
    seats: Vec<Seat>,
    opts: &Opts,
    gate: &G,
    shifts: &mut Shifts,
) -> Result<Vec<Seat>, AllocError>
    requires rules { opts.now.rules ≡ yard.now.base.rules }
    requires seats { AreSeats yard.now seats.items }
    requires new { AreNew seats.items }
    requires some { 0 < length seats.items }
    requires few { length seats.items ≤ 64 }
    requires team { length seats.items ≡ opts.now.workers }
    requires none { shifts.old.items ≡ [] }
    ensures { IfOk result (λ v. (begun : ℕ) × ArePlayed yard.now opts.now.hood (length seats.items) begun v.items shifts.new.items × EndsAt (length seats.items) opts.now.rounds begun shifts.new.items) }
{
    let mut seats = seats;
    for r in 0..opts.rounds {
        let (after, stopped) = play_round(rt, alloc, yard, seats, r + 1, opts, gate, shifts)?;
        seats = after;
        if stopped {
            return Ok(seats);
        }
    }
    Ok(seats)
}

/// Lets `opts.workers` workers, 1 to 64, work for `opts.rounds` rounds, each in a thread of its own where one can be made, and joins
/// them.
///
/// In a round the workers draw each variable once between them, at the same time mostly variables that are apart; one worker draws
/// them from 1 upwards. After a round in which a shift stopped no further one begins. It may wait for its threads, so its return isn't
/// promised. The error comes only for want of memory; then all is dropped.
pub fn rounds<R: Threads + Sync, G: Gate + Sync>(
    rt: &R,
    alloc: Global,
    yard: Yard,
    seat: Seat,
    opts: &Opts,
    gate: &G,
) -> Result<Phase, AllocError>
    requires table { seat.table ≡ yard.table }
    requires base { seat.view.base ≡ yard.base }
    requires rules { opts.now.rules ≡ yard.base.rules }
    requires first { IsFirstSeat seat.view }
    requires workers { (1 ≤ opts.now.workers) × (opts.now.workers ≤ 64) }

    // The journal is legal over the yard's formula, and the book's cells are those of the clauses that it leaves.
    ensures base { IfOk result (λ p. base_of p.ground.book ≡ yard.base) }
    ensures cells { IfOk result (λ p. AreCellsOf (current p.ground.book) p.ground.cells.items) }

    // The record accounts for the journal: each number's posts, once and in order, and what each of its tries met.
    ensures account { IfOk result (λ p. Account yard.base p.ground.book.posts (all_shares p.kept) (opts.now.workers + 1)) }
    ensures first { IfOk result (λ p. p.kept.own ≡ seat.view.own) }

    ensures shifts { IfOk result (λ p. AreShifts yard.base opts.now.workers opts.now.rounds opts.now.hood p.ground.book.posts (all_shares p.kept) p.shifts.items) }
{
    let mut seat = seat;
    let mut shifts = Shifts::new(alloc);
    let seats = split_seats(alloc, &yard, &mut seat, opts.workers)?;
    let seats = play_all(rt, alloc, &yard, seats, opts, gate, &mut shifts)?;
    join_seats(&yard, &mut seat, seats);
    let (ground, kept) = yard.close(seat);
    Ok(Phase {
        ground,
        kept,
        shifts,
    })
}
