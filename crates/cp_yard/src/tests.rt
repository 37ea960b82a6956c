//! A yard over three variables, with ample memory: whose the locks and the turn are, and what the last seat leaves.
ghost use Rattle.std.specs.Prelude.{◌≡◌, ℕ, ◌+◌, ◌≤◌, [], length, None, Some, IfOk, IfSome, IsTrue};
ghost use Rattle.cp_yard.specs.Views.{base_of, unlocked};
ghost use Rattle.cp_yard.specs.Rows.{HasThree, Fits, IsSameSeat};

use crate::{Receipt, Seat, Yard};
use cp_book::Book;
use cp_logic::{Choice, Clause, Entry, Formula, Lit, Named, Rules};
use cp_occ::Cells;
use std::alloc::{AllocError, Global};
use std::process::Abort;
use std::test::Fail;

const RULES: Rules = Rules {
    choice: Choice {
        t: true,
        s: false,
        x: false,
        b: false,
        e: false,
    },
    bound: 0,
    budget: 0,
};

// Adds the clause under the next number, where that and its variables are in range.
fn add(formula: &mut Formula, clause: Clause) -> Result<(), AllocError>
    ensures { formula.new.formula.variables ≡ formula.old.formula.variables }
{
    if clause.is_within(formula.vars()) && formula.next() < 1_099_511_627_776 {
        formula.push(clause)?;
    }
    Ok(())
}

// The clauses {1, 2}, {-1, 3} and {1, -1, 2, 3}.
fn formula_of(alloc: Global) -> Result<Formula, AllocError>
    ensures { IfOk result (λ f. f.formula.variables ≡ 3) }
{
    let (one, two, three) = (Lit::new(1, true), Lit::new(2, true), Lit::new(3, true));
    let mut formula = Formula::new(alloc, 3, 1);
    add(
        &mut formula,
        Clause::from_lits(alloc, [one, two].as_slice())?,
    )?;
    add(
        &mut formula,
        Clause::from_lits(alloc, [one.negated(), three].as_slice())?,
    )?;
    add(
        &mut formula,
        Clause::from_lits(alloc, [one, one.negated(), two, three].as_slice())?,
    )?;
    Ok(formula)
}

fn yard_of(alloc: Global) -> Result<(Yard, Seat), AllocError>
    ensures table { IfOk result (λ r. r.1.table ≡ r.0.table) }
    ensures base { IfOk result (λ r. r.1.view.base ≡ r.0.base) }
    ensures variables { IfOk result (λ r. r.0.base.formula.variables ≡ 3) }
    ensures number { IfOk result (λ r. (r.1.view.number ≡ 0) × (r.1.view.made ≡ 1)) }
    ensures nothing { IfOk result (λ r. (r.1.view.held ≡ []) × (r.1.view.turn ≡ None)) }
    ensures shares { IfOk result (λ r. (r.1.view.own.number ≡ 0) × (r.1.view.others ≡ [])) }
{
    let book = Book::new(alloc, formula_of(alloc)?, RULES)?;
    let cells = Cells::of_formula(alloc, book.clauses())?;
    Yard::new(alloc, book, cells)
}

// Tries the locks of 1, 2 and 3.
fn lock_all(yard: &Yard, seat: &mut Seat) -> bool
    requires table { seat.old.table ≡ yard.now.table }
    requires variables { yard.now.base.formula.variables ≡ 3 }
    requires nothing { seat.old.view.held ≡ [] }
    ensures table { seat.new.table ≡ seat.old.table }
    ensures same { IsSameSeat seat.old.view seat.new.view }
    ensures turn { seat.new.view.turn ≡ seat.old.view.turn }
    ensures all { IsTrue result → HasThree seat.new.view.held }
{
    let Ok(_first) = yard.try_lock(seat, 1) else {
        return false;
    };
    let Ok(_second) = yard.try_lock(seat, 2) else {
        return false;
    };
    yard.try_lock(seat, 3).is_ok()
}

// Gives the lock of the last cell back.
fn unlock_last(yard: &Yard, seat: &mut Seat, cells: &mut Cells, var: u32) -> bool
    requires table { seat.old.table ≡ yard.now.table }
    requires variables { (1 ≤ var) × (var ≤ yard.now.base.formula.variables) }
    requires cells { (length cells.old.items ≡ var) × Fits cells.old.items seat.old.view.held }
    ensures table { seat.new.table ≡ seat.old.table }
    ensures unlocked { IsTrue result → seat.new.view ≡ unlocked var seat.old.view }
    ensures cells { IsTrue result → (length cells.new.items + 1 ≡ var) × Fits cells.new.items seat.new.view.held }
{
    let Some(cell) = cells.pop() else {
        return false;
    };
    yard.unlock(seat, var, cell);
    true
}

fn unlock_all(yard: &Yard, seat: &mut Seat, cells: &mut Cells) -> bool
    requires table { seat.old.table ≡ yard.now.table }
    requires variables { yard.now.base.formula.variables ≡ 3 }
    requires cells { (length cells.old.items ≡ 3) × Fits cells.old.items seat.old.view.held }
    requires held { HasThree seat.old.view.held }
    ensures table { seat.new.table ≡ seat.old.table }
    ensures unlocked { IsTrue result → seat.new.view ≡ unlocked 1 (unlocked 2 (unlocked 3 seat.old.view)) }
{
    unlock_last(yard, seat, cells, 3)
        && unlock_last(yard, seat, cells, 2)
        && unlock_last(yard, seat, cells, 1)
}

// Posts that the third clause is a tautology, if it is one, ends the turn, and gives the locks back with the cells of the book's clauses.
fn post_and_unlock(
    alloc: Global,
    yard: &Yard,
    seat: &mut Seat,
    book: Book,
) -> Result<Option<Receipt>, AllocError>
    requires table { seat.old.table ≡ yard.now.table }
    requires variables { (yard.now.base.formula.variables ≡ 3) × (seat.old.view.base ≡ yard.now.base) }
    requires turn { (base_of book ≡ seat.old.view.base) × (seat.old.view.turn ≡ Some book.posts) }
    requires held { HasThree seat.old.view.held }
    ensures table { IfOk result (λ o. IfSome o (λ r. seat.new.table ≡ seat.old.table)) }
    ensures same { IfOk result (λ o. IfSome o (λ r. IsSameSeat seat.old.view seat.new.view)) }
    ensures nothing { IfOk result (λ o. IfSome o (λ r. (seat.new.view.held ≡ []) × (seat.new.view.turn ≡ None))) }
{
    let mut book = book;
    if !book.rules().choice.t {
        return Ok(None);
    }
    let Some(clause) = book.clauses().get(3) else {
        return Ok(None);
    };
    if !clause.is_tautology() {
        return Ok(None);
    }
    if !clause.is_within(3) {
        return Ok(None);
    }
    let clause = clause.again()?;
    let entry = Entry::Taut {
        gone: Named { number: 3, clause },
    };
    book.prepare(&entry)?;
    let Ok(_position) = book.post(seat.number(), 1, entry) else {
        return Ok(None);
    };
    book.is_legal();
    let mut cells = Cells::of_formula(alloc, book.clauses())?;
    let receipt = yard.end_turn_with(seat, book);
    if unlock_all(yard, seat, &mut cells) {
        Ok(Some(receipt))
    } else {
        Ok(None)
    }
}

fn assert_number(rt: &impl Abort, number: u32, want: u32) {
    assert_eq!(rt; number, want);
}

fn assert_count(rt: &impl Abort, count: usize, want: usize) {
    assert_eq!(rt; count, want);
}

fn assert_receipt(rt: &impl Abort, receipt: Receipt, position: u64) {
    assert_eq!(rt; receipt, Receipt { position });
}

#[test]
fn the_turn_goes_from_seat_to_seat(rt: HostRuntime) -> Result<(), Fail> {
    let (yard, mut zero) = yard_of(rt.alloc())?;
    let mut first = yard.split(&mut zero);
    let mut second = yard.split(&mut zero);
    assert_number(&rt, first.number(), 1);
    assert_number(&rt, second.number(), 2);
    assert_number(&rt, zero.made(), 3);
    assert_number(&rt, yard.vars(), 3);
    if !lock_all(&yard, &mut first) {
        panic!(rt; "the locks are free");
    }
    let Ok(book) = yard.try_turn(&mut first) else {
        panic!(rt; "the turn is free");
    };
    let Err(met) = yard.try_turn(&mut second) else {
        panic!(rt; "the first seat has the turn");
    };
    assert_number(&rt, met.by, 1);
    let Some(receipt) = post_and_unlock(rt.alloc(), &yard, &mut first, book)? else {
        panic!(rt; "the entry is legal");
    };
    assert_receipt(&rt, receipt, 0);
    let Ok(book) = yard.try_turn(&mut second) else {
        panic!(rt; "the turn is free again");
    };
    assert_count(&rt, book.journal().len(), 1);
    yard.end_turn(&mut second, book);
    yard.join(&mut zero, first);
    yard.join(&mut zero, second);
    let (ground, _record) = yard.close(zero);
    assert_count(&rt, ground.book.journal().len(), 1);
    assert_count(&rt, ground.cells.len(), 3);
    Ok(())
}

#[test]
fn locks_are_met_until_they_are_given_back(rt: HostRuntime) -> Result<(), Fail> {
    let (yard, mut zero) = yard_of(rt.alloc())?;
    let mut first = yard.split(&mut zero);
    let mut second = yard.split(&mut zero);
    let Ok(three) = yard.try_lock(&mut second, 3) else {
        panic!(rt; "the lock of 3 is free");
    };
    let Err(met) = yard.try_lock(&mut first, 3) else {
        panic!(rt; "the second seat holds 3");
    };
    assert_number(&rt, met.by, 2);
    let Ok(one) = yard.try_lock(&mut second, 1) else {
        panic!(rt; "the lock of 1 is free");
    };
    assert_number(&rt, one.var(), 1);
    assert_count(&rt, one.len(), 3);
    assert_count(&rt, three.len(), 2);
    yard.unlock(&mut second, 1, one);
    yard.unlock(&mut second, 3, three);
    let Ok(centre) = yard.try_lock(&mut first, 1) else {
        panic!(rt; "the lock of 1 is free again");
    };
    assert_count(&rt, centre.len(), 3);
    yard.unlock(&mut first, 1, centre);
    yard.join(&mut zero, first);
    yard.join(&mut zero, second);
    let (ground, _record) = yard.close(zero);
    assert_count(&rt, ground.book.journal().len(), 0);
    Ok(())
}
