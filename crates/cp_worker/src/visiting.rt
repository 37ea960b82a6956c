//! A visit: the tries of one candidate's neighbourhood, and the commits under its locks.
//!
//! A refused try holds nothing, and after three the candidate is left: the back-off of the rounds, which never waits. Under a whole
//! neighbourhood the worker searches the candidate's cell and commits what it finds, until the search gives nothing.
ghost use Rattle.std.specs.Prelude.{◌≡◌, ◌≤◌, ◌++◌, [], ℕ, List, length, IfOk, IfErr, OnOk, OnErr};
ghost use Rattle.std.specs.List.{All};
ghost use Rattle.cp_logic.specs.Journals.{Post};
ghost use Rattle.cp_logic.specs.Views.{entry_of};
ghost use Rattle.cp_yard.specs.Views.{Note};
ghost use Rattle.cp_hood.specs.Hoods.{HoldsJust, IsIdle, IsLegalAt, centre_clauses};
ghost use Rattle.cp_hood.specs.Seats.{GoesOn};
ghost use Rattle.cp_hood.specs.Tries.{IsTry};
ghost use Rattle.cp_worker.specs.Visits.{AreCommits, IsHeld, IsVisit, commits_of, notes_of};
ghost use Rattle.cp_worker.specs.Posting.{HasPosted, IsRefusal, IsCauseOf, IsEnough, IsLeft};

use crate::answer::AtAnswer;
use crate::gate::{Gate, GateEvent};
use crate::lists::Positions;
use cp_eliminate::search;
use cp_find::Reached;
use cp_hood::{CommitAnswer, Hood, HoodAnswer, commit, release, try_hood};
use cp_logic::{Entry, Opts, Rules, Stop};
use cp_yard::{Seat, Yard};
use std::alloc::{AllocError, Global};

// How often a visit tries the neighbourhood, and a commit the turn.
const HOOD_TRIES: u32 = 3;

const TURN_TRIES: u32 = 64;

/// Visits the variable `x` in the round: tries its neighbourhood at most three times, and under its locks posts what the search
/// gives, until it gives nothing. Each post tries the turn at most 64 times.
///
/// Afterwards the seat holds nothing, also after the error, which comes only for want of memory; the posts made until then stand.
pub fn try_at<G: Gate>(
    alloc: Global,
    yard: &Yard,
    seat: &mut Seat,
    x: u32,
    round: u32,
    opts: &Opts,
    gate: &G,
) -> Result<AtAnswer, AllocError>
    requires table { seat.old.table ≡ yard.now.table }
    requires base { seat.old.view.base ≡ yard.now.base }
    requires rules { opts.now.rules ≡ yard.now.base.rules }
    requires low { 1 ≤ x }
    requires high { x ≤ yard.now.base.formula.variables }
    requires idle { IsIdle seat.old.view }
    ensures table { seat.new.table ≡ seat.old.table }
    ensures visit { (noted : List Note) × (posted : List (ℕ × Post)) × GoesOn seat.old.view seat.new.view noted posted × IfOk result (IsVisit seat.old.view.base seat.old.view.number x round opts.now.hood (length seat.old.view.own.posts) noted posted) }
    ensures idle { IsIdle seat.new.view }
{
    let mut reached = Reached::start(alloc);
    try_with(alloc, yard, seat, x, round, opts, gate, &mut reached)
}

// The same as `try_at`, with the memory of the searches that came before. What it says of them is forgotten first.
pub(crate) fn try_with<G: Gate>(
    alloc: Global,
    yard: &Yard,
    seat: &mut Seat,
    x: u32,
    round: u32,
    opts: &Opts,
    gate: &G,
    reached: &mut Reached,
) -> Result<AtAnswer, AllocError>
    requires table { seat.old.table ≡ yard.now.table }
    requires base { seat.old.view.base ≡ yard.now.base }
    requires rules { opts.now.rules ≡ yard.now.base.rules }
    requires low { 1 ≤ x }
    requires high { x ≤ yard.now.base.formula.variables }
    requires idle { IsIdle seat.old.view }
    ensures table { seat.new.table ≡ seat.old.table }
    ensures visit { (noted : List Note) × (posted : List (ℕ × Post)) × GoesOn seat.old.view seat.new.view noted posted × IfOk result (IsVisit seat.old.view.base seat.old.view.number x round opts.now.hood (length seat.old.view.own.posts) noted posted) }
    ensures idle { IsIdle seat.new.view }
{
    match try_again(alloc, yard, seat, x, opts.hood) {
        Ok(hood) => visit_under(alloc, yard, seat, hood, round, opts, gate, reached),
        Err(answer) => left(answer),
    }
}

// How a visit ends whose last try got no neighbourhood.
fn left(answer: HoodAnswer) -> Result<AtAnswer, AllocError>
    ensures { IfOk result (IsLeft answer) }
{
    match answer {
        HoodAnswer::Busy { var, by } => Ok(AtAnswer::Busy { var, by }),
        HoodAnswer::Wide { count } => Ok(AtAnswer::Wide { count }),
        HoodAnswer::NoMemory => Err(AllocError),
    }
}

// Tries the neighbourhood until a try meets no held lock, at most three times.
fn try_again(
    alloc: Global,
    yard: &Yard,
    seat: &mut Seat,
    x: u32,
    limit: u32,
) -> Result<Hood, HoodAnswer>
    requires table { seat.old.table ≡ yard.now.table }
    requires base { seat.old.view.base ≡ yard.now.base }
    requires low { 1 ≤ x }
    requires high { x ≤ yard.now.base.formula.variables }
    requires idle { IsIdle seat.old.view }
    ensures table { seat.new.table ≡ seat.old.table }
    ensures tries { (held : List (List Note)) × (last : List Note) × GoesOn seat.old.view seat.new.view (notes_of held ++ last) [] × All (IsHeld x limit (length seat.old.view.own.posts)) held × IsTry x limit (length seat.old.view.own.posts) last result × IsEnough (length held) result }
    ensures holds { IfOk result (λ h. HoldsJust seat.new.view h.cells) }
    ensures idle { OnErr result (IsIdle seat.new.view) }
{
    for k in 1..HOOD_TRIES {
        let _ = k;
        match try_hood(alloc, yard, seat, x, limit) {
            Err(HoodAnswer::Busy { .. }) => {}
            answer => return answer,
        }
    }
    try_hood(alloc, yard, seat, x, limit)
}

// The visit under the locks of the neighbourhood, which are given back.
fn visit_under<G: Gate>(
    alloc: Global,
    yard: &Yard,
    seat: &mut Seat,
    hood: Hood,
    round: u32,
    opts: &Opts,
    gate: &G,
    reached: &mut Reached,
) -> Result<AtAnswer, AllocError>
    requires table { seat.old.table ≡ yard.now.table }
    requires base { seat.old.view.base ≡ yard.now.base }
    requires rules { opts.now.rules ≡ yard.now.base.rules }
    requires holds { HoldsJust seat.old.view hood.cells }
    ensures table { seat.new.table ≡ seat.old.table }
    ensures visit { (noted : List Note) × (posted : List (ℕ × Post)) × GoesOn seat.old.view seat.new.view noted posted × IfOk result (AreCommits seat.old.view.base seat.old.view.number hood.centre round (centre_clauses hood) noted posted) }
    ensures idle { IsIdle seat.new.view }
{
    let mut hood = hood;
    let var = hood.centre().var();
    gate.at(seat.number(), GateEvent::HoodHeld { var });
    let answer = commit_unless_silent(alloc, yard, seat, &mut hood, round, &opts.rules, reached);
    release(yard, seat, hood);
    gate.at(seat.number(), GateEvent::Released { var });
    answer
}

// Posts what the searches at the centre give. Where its cell keeps that a search gives nothing there is none.
fn commit_unless_silent(
    alloc: Global,
    yard: &Yard,
    seat: &mut Seat,
    hood: &mut Hood,
    round: u32,
    rules: &Rules,
    reached: &mut Reached,
) -> Result<AtAnswer, AllocError>
    requires table { seat.old.table ≡ yard.now.table }
    requires base { seat.old.view.base ≡ yard.now.base }
    requires rules { rules.now ≡ yard.now.base.rules }
    requires holds { HoldsJust seat.old.view hood.old.cells }
    ensures table { seat.new.table ≡ seat.old.table }
    ensures visit { (noted : List Note) × (posted : List (ℕ × Post)) × GoesOn seat.old.view seat.new.view noted posted × IfOk result (AreCommits seat.old.view.base seat.old.view.number hood.old.centre round (centre_clauses hood.old) noted posted) }
    ensures holds { HoldsJust seat.new.view hood.new.cells }
{
    if hood.centre().is_silent(rules) {
        let commits = Positions::new(alloc);
        return Ok(AtAnswer::Settled { commits });
    }
    commit_all(alloc, yard, seat, hood, round, rules, reached)
}

// Posts what the search at the centre gives, until it gives nothing or an entry is refused. Each search goes on behind what the last
// one found, and where the last one gave nothing the centre's cell keeps that.
fn commit_all(
    alloc: Global,
    yard: &Yard,
    seat: &mut Seat,
    hood: &mut Hood,
    round: u32,
    rules: &Rules,
    reached: &mut Reached,
) -> Result<AtAnswer, AllocError>
    requires table { seat.old.table ≡ yard.now.table }
    requires base { seat.old.view.base ≡ yard.now.base }
    requires rules { rules.now ≡ yard.now.base.rules }
    requires holds { HoldsJust seat.old.view hood.old.cells }
    ensures table { seat.new.table ≡ seat.old.table }
    ensures visit { (noted : List Note) × (posted : List (ℕ × Post)) × GoesOn seat.old.view seat.new.view noted posted × IfOk result (AreCommits seat.old.view.base seat.old.view.number hood.old.centre round (centre_clauses hood.old) noted posted) }
    ensures holds { HoldsJust seat.new.view hood.new.cells }
{
    let mut commits = Positions::new(alloc);
    reached.restart();
    'commits: while let Some(entry) = search(alloc, hood.centre(), rules, 1, reached)? {
        reached.follow(&entry, hood.centre().var());
        if let Err(answer) = commit_listed(alloc, yard, seat, hood, entry, round, &mut commits) {
            return refused(answer, commits);
        }
    }
    hood.settle(rules);
    Ok(AtAnswer::Settled { commits })
}

// Posts the entry and lists its position. All memory is taken before the post, so that no post goes unlisted.
fn commit_listed(
    alloc: Global,
    yard: &Yard,
    seat: &mut Seat,
    hood: &mut Hood,
    entry: Entry,
    round: u32,
    commits: &mut Positions,
) -> Result<(), CommitAnswer>
    requires table { seat.old.table ≡ yard.now.table }
    requires base { seat.old.view.base ≡ yard.now.base }
    requires holds { HoldsJust seat.old.view hood.old.cells }
    requires legal { IsLegalAt yard.now.base.rules hood.old (entry_of entry) }
    ensures table { seat.new.table ≡ seat.old.table }
    ensures post { (noted : List Note) × (posted : List (ℕ × Post)) × GoesOn seat.old.view seat.new.view noted posted × OnOk result (HasPosted seat.old.view.base seat.old.view.number round (entry_of entry) hood.old hood.new commits.old.items commits.new.items noted posted) × IfErr result (λ answer. (posted ≡ []) × IsRefusal seat.old.view.base hood.old.centre (centre_clauses hood.old) (entry_of entry) noted answer) }
    ensures same { OnErr result (commits.new.items ≡ commits.old.items) }
    ensures holds { HoldsJust seat.new.view hood.new.cells }
{
    if commits.reserve(1).is_err() {
        return Err(CommitAnswer::NoMemory);
    }
    let Ok(prepared) = hood.prepare(alloc, &entry) else {
        return Err(CommitAnswer::NoMemory);
    };
    let receipt = commit(yard, seat, hood, prepared, entry, round, TURN_TRIES)?;
    commits.push_reserved(receipt.position);
    Ok(())
}

// How a visit ends whose last entry was not posted.
fn refused(answer: CommitAnswer, commits: Positions) -> Result<AtAnswer, AllocError>
    ensures { IfOk result (λ a. (commits_of a ≡ commits.items) × IsCauseOf answer a) }
{
    let stop = match answer {
        CommitAnswer::TurnHeld { by } => return Ok(AtAnswer::TurnHeld { by, commits }),
        CommitAnswer::NoMemory => return Err(AllocError),
        CommitAnswer::Refuted { .. } => Stop::Refuted,
        CommitAnswer::Spent { .. } => Stop::Spent,
        CommitAnswer::Numbers { .. } => Stop::Numbers,
    };
    Ok(AtAnswer::Stopped { stop, commits })
}
