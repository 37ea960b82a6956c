//! One round: every worker works a shift, each in a thread of its own where one can be made.
ghost use Rattle.std.specs.Prelude.{◌≡◌, ◌≢◌, ℕ, ◌+◌, ◌<◌, ◌≤◌, ◌++◌, List, [], map, length, IfOk, OnOk, MatchBool, Some, None, vec_capacity, slice_index_or};
ghost use Rattle.std.specs.List.{All};
ghost use Rattle.cp_worker.specs.declared.lists.WorkerShift.{WorkerShift};
ghost use Rattle.cp_phase.specs.declared.team.Member.{Member};
ghost use Rattle.cp_phase.specs.Rounds.{NoneStopped, OneStopped};
ghost use Rattle.cp_phase.specs.Teams.{AreSeats, claims_joined, IsReady, HasWorked, IsRound};

use crate::team::{Member, Task, members_of};
use cp_claim::{ClaimSeat, Claims};
use cp_logic::Opts;
use cp_worker::{Gate, Shifts};
use cp_yard::{Seat, Yard};
use std::alloc::{AllocError, Global};
use std::thread;
use std::thread::Threads;

// Every member works, each in a thread of its own where one can be made.
fn work_all<R: Threads + Sync, G: Gate + Sync>(
    rt: &R,
    yard: &Yard,
    members: &mut [Member],
    task: &Task,
    gate: &G,
)
    requires some { 0 < length members.old }
    requires ready { All (IsReady yard.now task.now.claims) members.old }
    requires rules { task.now.opts.rules ≡ yard.now.base.rules }
    requires limit { task.now.claims.limit ≡ yard.now.base.formula.variables }
    requires workers { 1 ≤ task.now.opts.workers }
    ensures count { length members.new ≡ length members.old }
    ensures worked { (i : ℕ) (d : Member) → i < length members.old → HasWorked task.now.opts.workers task.now.opts.hood task.now.round (slice_index_or members.old i d) (slice_index_or members.new i d) }
{
    thread::for_each_mut(
        rt,
        members,
        members.len(),
        &|_, member: &mut Member|
            requires { IsReady yard.now task.now.claims member.old × (task.now.opts.rules ≡ yard.now.base.rules) × (task.now.claims.limit ≡ yard.now.base.formula.variables) × (1 ≤ task.now.opts.workers) }
            ensures { HasWorked task.entry.now.opts.workers task.entry.now.opts.hood task.entry.now.round member.entry.now member.exit.now }
        {
            member.work(yard, task, gate);
        },
    );
}

// Takes the members apart: their seats and shifts in order, and whether a shift stopped. The claim seat takes in theirs.
fn gather(
    claims: &Claims,
    claim: &mut ClaimSeat,
    members: Vec<Member>,
    seats: &mut Vec<Seat>,
    shifts: &mut Shifts,
) -> Result<bool, AllocError>
    requires counter { claim.old.counter ≡ claims.now }
    requires counters { All (λ m. (m.claim.counter ≡ claims.now) × (m.claim.view.mine.number ≢ 0)) members.items }
    requires empty { seats.old.items ≡ [] }
    requires seats_room { length members.items ≤ vec_capacity seats.old }
    requires shifts_room { length members.items ≤ shifts.old.spare }
    ensures counter { claim.new.counter ≡ claims.now }
    ensures claim { OnOk result (claim.new.view ≡ claims_joined claim.old.view members.items) }
    ensures seats { OnOk result (seats.new.items ≡ map (λ m. m.seat) members.items) }
    ensures shifts { IfOk result (λ stopped. (ss : List WorkerShift) × (shifts.new.items ≡ shifts.old.items ++ ss) × (map (λ m. m.shift) members.items ≡ map Some ss) × MatchBool stopped (OneStopped ss) (NoneStopped ss)) }
{
    let mut stopped = false;
    for member in members {
        let Member {
            seat,
            claim: theirs,
            shift,
        } = member;
        let Some(shift) = shift else {
            return Err(AllocError);
        };
        stopped |= shift.stopped.is_some();
        claims.join(claim, theirs);
        seats.push_reserved(seat);
        shifts.push_reserved(shift);
    }
    Ok(stopped)
}

/// The round of this number, counted from 1: the seats after it, and whether a shift stopped. Its shifts are appended.
pub(crate) fn play_round<R: Threads + Sync, G: Gate + Sync>(
    rt: &R,
    alloc: Global,
    yard: &Yard,
    seats: Vec<Seat>,
    round: u32,
    opts: &Opts,
    gate: &G,
    shifts: &mut Shifts,
) -> Result<(Vec<Seat>, bool), AllocError>
    requires rules { opts.now.rules ≡ yard.now.base.rules }
    requires seats { AreSeats yard.now seats.items }
    requires some { 0 < length seats.items }
    requires few { length seats.items ≤ 64 }
    requires workers { 1 ≤ opts.now.workers }
    ensures { IfOk result (λ r. (ss : List WorkerShift) × (shifts.new.items ≡ shifts.old.items ++ ss) × IsRound yard.now opts.now.workers opts.now.hood round seats.items r.0.items ss × MatchBool r.1 (OneStopped ss) (NoneStopped ss)) }
{
    let (claims, mut claim) = Claims::new(alloc, u64::from(yard.vars()))?;
    let mut after = Vec::with_capacity(alloc, seats.len())?;
    shifts.reserve(seats.len())?;
    let mut members = members_of(alloc, &claims, &mut claim, seats)?;
    let task = Task {
        alloc,
        claims,
        round,
        opts: *opts,
    };
    work_all(rt, yard, members.as_mut_slice(), &task, gate);
    let claims = task.claims;
    let stopped = gather(&claims, &mut claim, members, &mut after, shifts)?;
    claims.close(claim);
    Ok((after, stopped))
}
