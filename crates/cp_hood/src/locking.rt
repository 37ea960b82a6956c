//! The locks of a neighbourhood, got by one try each, or none of them.
ghost use Rattle.std.specs.Prelude.{◌≡◌, ◌≤◌, ◌<◌, ◌+◌, ℕ, [], ◌∷◌, List, length, take, drop, slice_index, None, IfOk, OnOk, IfErr, OnErr, IsTrue};
ghost use Rattle.std.specs.List.{All};
ghost use Rattle.cp_logic.specs.Clauses.{contains, IsAscending};
ghost use Rattle.cp_logic.specs.Formulas.{neighbourhood};
ghost use Rattle.cp_occ.specs.Cells.{variables_of};
ghost use Rattle.cp_yard.specs.Views.{Note, Got, held_of};
ghost use Rattle.cp_hood.specs.Hoods.{HoldsJust, IsIdle};
ghost use Rattle.cp_hood.specs.Seats.{GoesOn};
ghost use Rattle.cp_hood.specs.Rows.{IsRow, IsRowAnswer};
ghost use Rattle.cp_hood.specs.Tries.{IsTry};

use crate::answers::HoodAnswer;
use crate::hood::Hood;
use crate::neighbourhood::plan;
use cp_occ::{Cell, Cells};
use cp_yard::{Seat, Yard};
use std::alloc::Global;

/// One try of the neighbourhood of the variable `x`: its lock, and then those of the other variables of its clauses, upwards.
///
/// The refusals come in this order, and want of memory at any time: `Busy` where `x` is held; `Wide` where the neighbourhood has more
/// than `limit` variables, `x` among them; `Busy` for the first of the others that is held. After each the seat holds nothing.
pub fn try_hood(
    alloc: Global,
    yard: &Yard,
    seat: &mut Seat,
    x: u32,
    limit: u32,
) -> Result<Hood, HoodAnswer>
    requires table { seat.old.table ≡ yard.now.table }
    requires base { seat.old.view.base ≡ yard.now.base }
    requires low { 1 ≤ x }
    requires high { x ≤ yard.now.base.formula.variables }
    requires idle { IsIdle seat.old.view }
    ensures table { seat.new.table ≡ seat.old.table }
    ensures tries { (notes : List Note) × GoesOn seat.old.view seat.new.view notes [] × IsTry x limit (length seat.old.view.own.posts) notes result }
    ensures holds { IfOk result (λ h. HoldsJust seat.new.view h.cells) }
    ensures idle { OnErr result (IsIdle seat.new.view) }
{
    let centre = match yard.try_lock(seat, x) {
        Ok(cell) => cell,
        Err(met) => return Err(HoodAnswer::Busy { var: x, by: met.by }),
    };
    match plan(alloc, &centre, limit) {
        Ok((vars, room)) => lock_others(yard, seat, centre, vars.as_slice(), room),
        Err(answer) => {
            yard.unlock(seat, x, centre);
            Err(answer)
        }
    }
}

/// Gives all locks of the hood back. It takes no memory.
pub fn release(yard: &Yard, seat: &mut Seat, hood: Hood)
    requires table { seat.old.table ≡ yard.now.table }
    requires base { seat.old.view.base ≡ yard.now.base }
    requires holds { HoldsJust seat.old.view hood.cells }
    ensures table { seat.new.table ≡ seat.old.table }
    ensures same { GoesOn seat.old.view seat.new.view [] [] }
    ensures idle { IsIdle seat.new.view }
{
    give_back(yard, seat, hood.cells);
}

// Gives the locks of the cells back, the last one first.
fn give_back(yard: &Yard, seat: &mut Seat, cells: Cells)
    requires table { seat.old.table ≡ yard.now.table }
    requires base { seat.old.view.base ≡ yard.now.base }
    requires ascending { IsAscending (variables_of cells.items) }
    requires holds { HoldsJust seat.old.view cells.items }
    ensures table { seat.new.table ≡ seat.old.table }
    ensures same { GoesOn seat.old.view seat.new.view [] [] }
    ensures idle { IsIdle seat.new.view }
{
    let mut cells = cells;
    while let Some(cell) = cells.pop() {
        let var = cell.var();
        yard.unlock(seat, var, cell);
    }
}

// Under the lock of the centre tries those of its other neighbours, upwards.
fn lock_others(
    yard: &Yard,
    seat: &mut Seat,
    centre: Cell,
    vars: &[u32],
    room: Cells,
) -> Result<Hood, HoodAnswer>
    requires table { seat.old.table ≡ yard.now.table }
    requires base { seat.old.view.base ≡ yard.now.base }
    requires holds { HoldsJust seat.old.view (centre ∷ []) }
    requires variables { vars.now ≡ neighbourhood centre.clauses centre.variable }
    requires range { All (λ y. (1 ≤ y) × (y ≤ yard.now.base.formula.variables)) vars.now }
    requires room { (room.items ≡ []) × (length vars.now ≤ room.spare) }
    ensures table { seat.new.table ≡ seat.old.table }
    ensures tries { let n = length seat.old.view.own.posts in (notes : List Note) × GoesOn seat.old.view seat.new.view notes [] × ((limit : ℕ) → length vars.now ≤ limit → IsTry centre.variable limit n (Got centre.variable centre.clauses n ∷ notes) result) }
    ensures holds { IfOk result (λ h. HoldsJust seat.new.view h.cells) }
    ensures idle { OnErr result (IsIdle seat.new.view) }
{
    let x = centre.var();
    let at = position(vars, x);
    let mut cells = room;
    let below = lock_row(yard, seat, &vars[..at], &mut cells);
    cells.push_reserved(centre);
    if let Err(answer) = below {
        give_back(yard, seat, cells);
        return Err(answer);
    }
    if let Err(answer) = lock_row(yard, seat, &vars[at + 1..], &mut cells) {
        give_back(yard, seat, cells);
        return Err(answer);
    }
    Ok(Hood {
        centre: x,
        at,
        cells,
    })
}

// The position of the variable, which is one of these.
fn position(vars: &[u32], x: u32) -> usize
    requires ascending { IsAscending vars.now }
    requires there { IsTrue (contains vars.now x) }
    ensures within { result < length vars.now }
    ensures value { slice_index vars.now result ≡ x }
{
    match vars.binary_search(&x) {
        Ok(at) => at,
        Err(_) => unreachable!(),
    }
}

// Tries the locks in order, up to the first that is held, and appends the cells of those that it got.
fn lock_row(yard: &Yard, seat: &mut Seat, vars: &[u32], cells: &mut Cells) -> Result<(), HoodAnswer>
    requires table { seat.old.table ≡ yard.now.table }
    requires ascending { IsAscending vars.now }
    requires range { All (λ y. (1 ≤ y) × (y ≤ yard.now.base.formula.variables)) vars.now }
    requires free { (y : ℕ) → IsTrue (contains vars.now y) → held_of y seat.old.view.held ≡ None }
    requires room { length vars.now ≤ cells.old.spare }
    ensures table { seat.new.table ≡ seat.old.table }
    ensures room { cells.old.spare ≤ cells.new.spare + length vars.now }
    ensures ok { OnOk result (IsRow vars.now seat.old.view seat.new.view cells.old.items cells.new.items) }
    ensures answer { IfErr result (IsRowAnswer vars.now seat.old.view seat.new.view cells.old.items cells.new.items) }
{
    for var in vars {
        match yard.try_lock(seat, *var) {
            Ok(cell) => cells.push_reserved(cell),
            Err(met) => {
                return Err(HoodAnswer::Busy {
                    var: *var,
                    by: met.by,
                });
            }
        }
    }
    Ok(())
}
