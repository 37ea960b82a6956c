//! A shift: draws candidates and visits each, until none is left or the run has stopped.
ghost use Rattle.std.specs.Prelude.{◌≡◌, ◌≤◌, ◌<◌, ◌^◌, ◌++◌, ℕ, List, length, Some, None, IfOk, OnOk, AllPairs};
ghost use Rattle.cp_logic.specs.Journals.{Post};
ghost use Rattle.cp_claim.specs.Views.{DrawsOnly};
ghost use Rattle.cp_yard.specs.Views.{Note};
ghost use Rattle.cp_hood.specs.Hoods.{IsIdle};
ghost use Rattle.cp_hood.specs.Seats.{GoesOn, Continues};
ghost use Rattle.cp_worker.specs.declared.answer.AtAnswer.{AtAnswer};
ghost use Rattle.cp_worker.specs.Visits.{IsVisit};
ghost use Rattle.cp_worker.specs.Listing.{IsListing};
ghost use Rattle.cp_worker.specs.Shifts.{IsShift};

use crate::apart::candidate_at;
use crate::gate::{Gate, GateEvent};
use crate::lists::WorkerShift;
use crate::visiting::try_with;
use cp_claim::{ClaimSeat, Claims};
use cp_find::Reached;
use cp_logic::Opts;
use cp_yard::{Seat, Yard};
use std::alloc::{AllocError, Global};

/// Draws candidates for the round and visits each, until none is left or a visit finds that the run has stopped.
///
/// The claims are of as many numbers as there are variables. Each number stands for one variable, and numbers that come one after the
/// other for variables that are apart, by the options' number of workers. The numbers that a claim seat draws rise. Afterwards the seat
/// holds nothing, also after the error, which comes only for want of memory; the posts made until then stand.
pub fn shift<G: Gate>(
    alloc: Global,
    yard: &Yard,
    claims: &Claims,
    claim: &mut ClaimSeat,
    seat: &mut Seat,
    round: u32,
    opts: &Opts,
    gate: &G,
) -> Result<WorkerShift, AllocError>
    requires table { seat.old.table ≡ yard.now.table }
    requires base { seat.old.view.base ≡ yard.now.base }
    requires rules { opts.now.rules ≡ yard.now.base.rules }
    requires counter { claim.old.counter ≡ claims.now }
    requires limit { claims.now.limit ≡ yard.now.base.formula.variables }
    requires idle { IsIdle seat.old.view }
    requires workers { 1 ≤ opts.now.workers }
    ensures table { seat.new.table ≡ seat.old.table }
    ensures counter { claim.new.counter ≡ claim.old.counter }
    ensures idle { IsIdle seat.new.view }
    ensures seat { Continues seat.old.view seat.new.view }
    ensures claim { DrawsOnly claim.old.view claim.new.view }
    ensures rising { AllPairs (λ a b. a < b) claim.old.view.drawn → AllPairs (λ a b. a < b) claim.new.view.drawn }
    ensures shift { IfOk result (λ s. (noted : List Note) × (posted : List (ℕ × Post)) × (drawn : List ℕ) × GoesOn seat.old.view seat.new.view noted posted × (claim.new.view.drawn ≡ claim.old.view.drawn ++ drawn) × IsShift seat.old.view.base seat.old.view.number round opts.now.workers opts.now.hood (length seat.old.view.own.posts) noted posted drawn s) }
    ensures ended { IfOk result (λ s. s.stopped ≡ None → (word : ℕ) × (claim.new.view.mine.end ≡ Some word)) }
{
    let mut shift = WorkerShift::new(alloc, seat.number(), round);
    let vars = yard.vars();
    let mut reached = Reached::start(alloc);
    'draws: while let Some(number) = claims.next(claim) {
        let candidate = candidate_at(number, vars, opts.workers);
        visit(
            alloc,
            yard,
            seat,
            candidate,
            opts,
            gate,
            &mut shift,
            &mut reached,
        )?;
        if shift.stopped.is_some() {
            return Ok(shift);
        }
    }
    Ok(shift)
}

// Visits the candidate, and lists it with how the visit ended.
fn visit<G: Gate>(
    alloc: Global,
    yard: &Yard,
    seat: &mut Seat,
    candidate: u32,
    opts: &Opts,
    gate: &G,
    shift: &mut WorkerShift,
    reached: &mut Reached,
) -> Result<(), AllocError>
    requires table { seat.old.table ≡ yard.now.table }
    requires base { seat.old.view.base ≡ yard.now.base }
    requires rules { opts.now.rules ≡ yard.now.base.rules }
    requires low { 1 ≤ candidate }
    requires high { candidate ≤ yard.now.base.formula.variables }
    requires idle { IsIdle seat.old.view }
    ensures table { seat.new.table ≡ seat.old.table }
    ensures idle { IsIdle seat.new.view }
    ensures visit { (noted : List Note) × (posted : List (ℕ × Post)) × GoesOn seat.old.view seat.new.view noted posted × OnOk result ((answer : AtAnswer) × IsVisit seat.old.view.base seat.old.view.number candidate shift.old.round opts.now.hood (length seat.old.view.own.posts) noted posted answer × IsListing candidate answer shift.old shift.new) }
    ensures few { OnOk result (length shift.new.taken.items < 2 ^ 64) }
{
    gate.at(seat.number(), GateEvent::Taken { var: candidate });
    let answer = try_with(
        alloc,
        yard,
        seat,
        candidate,
        shift.round,
        opts,
        gate,
        reached,
    )?;
    shift.list(candidate, answer)
}
