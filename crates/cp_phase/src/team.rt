//! The team: the seats of the workers, and each as a member of one round.
ghost use Rattle.std.specs.Prelude.{◌≡◌, ◌+◌, ◌≤◌, [], length, IfOk, OnOk, None};
ghost use Rattle.cp_hood.specs.Hoods.{IsIdle};
ghost use Rattle.cp_phase.specs.Teams.{AreSeats, AreNew, joined_all, founder_of, members_from, IsReady, HasWorked};

use cp_claim::{ClaimSeat, Claims};
use cp_logic::Opts;
use cp_worker::{Gate, WorkerShift, shift};
use cp_yard::{Seat, Yard};
use std::alloc::{AllocError, Global};

/// A worker in a round.
#[derive(Drop)]
pub(crate) struct Member {
    pub(crate) seat: Seat,
    pub(crate) claim: ClaimSeat,
    /// None before its shift, and after it where memory ran out.
    pub(crate) shift: Option<WorkerShift>,
}

/// What the members of a round share besides the yard.
#[derive(Drop)]
pub(crate) struct Task {
    pub(crate) alloc: Global,
    pub(crate) claims: Claims,
    /// Counted from 1.
    pub(crate) round: u32,
    pub(crate) opts: Opts,
}

impl Member {
    /// Works a shift.
    pub(crate) fn work<G: Gate>(&mut self, yard: &Yard, task: &Task, gate: &G)
        requires ready { IsReady yard.now task.now.claims self.old }
        requires rules { task.now.opts.rules ≡ yard.now.base.rules }
        requires limit { task.now.claims.limit ≡ yard.now.base.formula.variables }
        requires workers { 1 ≤ task.now.opts.workers }
        ensures { HasWorked task.now.opts.workers task.now.opts.hood task.now.round self.old self.new }
    {
        let done = shift(
            task.alloc,
            yard,
            &task.claims,
            &mut self.claim,
            &mut self.seat,
            task.round,
            &task.opts,
            gate,
        );
        self.shift = done.ok();
    }
}

/// The seats 1 to `count`, in order.
pub(crate) fn split_seats(
    alloc: Global,
    yard: &Yard,
    seat: &mut Seat,
    count: u32,
) -> Result<Vec<Seat>, AllocError>
    requires table { seat.old.table ≡ yard.now.table }
    requires base { seat.old.view.base ≡ yard.now.base }
    requires first { (seat.old.view.number ≡ 0) × (seat.old.view.made ≡ 1) }
    requires few { count ≤ 64 }
    ensures table { seat.new.table ≡ seat.old.table }
    ensures seat { OnOk result (seat.new.view ≡ record seat.old.view { made = count + 1 }) }
    ensures count { IfOk result (λ v. length v.items ≡ count) }
    ensures seats { IfOk result (λ v. AreSeats yard.now v.items) }
    ensures new { IfOk result (λ v. AreNew v.items) }
{
    let mut all = Vec::with_capacity(alloc, count as usize)?;
    for k in 0..count {
        let _ = k;
        all.push_reserved(yard.split(seat));
    }
    Ok(all)
}

/// Takes in all seats.
pub(crate) fn join_seats(yard: &Yard, seat: &mut Seat, seats: Vec<Seat>)
    requires table { seat.old.table ≡ yard.now.table }
    requires seats { AreSeats yard.now seats.items }
    ensures table { seat.new.table ≡ seat.old.table }
    ensures seat { seat.new.view ≡ joined_all seat.old.view seats.items }
{
    for other in seats {
        yard.join(seat, other);
    }
}

/// The members of a round: each seat with a new claim seat.
pub(crate) fn members_of(
    alloc: Global,
    claims: &Claims,
    claim: &mut ClaimSeat,
    seats: Vec<Seat>,
) -> Result<Vec<Member>, AllocError>
    requires counter { claim.old.counter ≡ claims.now }
    requires first { claim.old.view ≡ founder_of claims.now.limit 1 }
    requires few { length seats.items ≤ 64 }
    ensures counter { claim.new.counter ≡ claims.now }
    ensures claim { OnOk result (claim.new.view ≡ founder_of claims.now.limit (length seats.items + 1)) }
    ensures members { IfOk result (λ v. v.items ≡ members_from claims.now 1 seats.items) }
{
    let mut members = Vec::with_capacity(alloc, seats.len())?;
    for seat in seats {
        members.push_reserved(Member {
            seat,
            claim: claims.split(claim),
            shift: None,
        });
    }
    Ok(members)
}
