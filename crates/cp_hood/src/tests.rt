//! A neighbourhood of three variables, with ample memory: whom a try of it meets, what is free after a refusal, and what commits
//! under its locks answer and leave.
ghost use Rattle.std.specs.Prelude.{◌≡◌, ◌≤◌, [], ◌∷◌, None, IfOk, IfSome, OnOk, OnErr, IsTrue};
ghost use Rattle.cp_logic.specs.Views.{entry_of};
ghost use Rattle.cp_hood.specs.Hoods.{HoldsJust, IsIdle};
ghost use Rattle.cp_hood.specs.Examples.{Eliminates, IsLegalFor};

use crate::{CommitAnswer, Hood, HoodAnswer, commit, release, try_hood};
use cp_book::Book;
use cp_logic::{Choice, Clause, Entry, Formula, Lit, Named, NamedList, Rules};
use cp_occ::{Cell, Cells};
use cp_yard::{Receipt, Seat, Yard};
use std::alloc::{AllocError, Global};
use std::process::Abort;
use std::test::Fail;

const CHOICE: Choice = Choice {
    t: false,
    s: false,
    x: false,
    b: false,
    e: true,
};

// Adds the clause under the next number, where that and its variables are in range.
fn add(alloc: Global, formula: &mut Formula, lits: &[Lit]) -> Result<(), AllocError>
    ensures { formula.new.formula.variables ≡ formula.old.formula.variables }
{
    let clause = Clause::from_lits(alloc, lits)?;
    if clause.is_within(formula.vars()) && formula.next() < 1_099_511_627_776 {
        formula.push(clause)?;
    }
    Ok(())
}

// The clauses {1, 2} and {-1, 3}, of which the first has the number, and after them an empty one, if so.
fn formula_of(alloc: Global, first: u64, empty: bool) -> Result<Formula, AllocError>
    ensures { IfOk result (λ f. f.formula.variables ≡ 3) }
{
    let mut formula = Formula::new(alloc, 3, first.clamp(1, 1_099_511_627_776));
    add(alloc, &mut formula, &[Lit::new(1, true), Lit::new(2, true)])?;
    add(
        alloc,
        &mut formula,
        &[Lit::new(1, false), Lit::new(3, true)],
    )?;
    if empty {
        add(alloc, &mut formula, &[])?;
    }
    Ok(formula)
}

// A yard over the formula, with a budget, for eliminations alone.
fn yard_of(alloc: Global, formula: Formula, budget: u64) -> Result<(Yard, Seat), AllocError>
    requires variables { formula.formula.variables ≡ 3 }
    ensures table { IfOk result (λ r. r.1.table ≡ r.0.table) }
    ensures base { IfOk result (λ r. r.1.view.base ≡ r.0.base) }
    ensures variables { IfOk result (λ r. r.0.base.formula.variables ≡ 3) }
    ensures rules { IfOk result (λ r. Eliminates r.0.base.rules) }
    ensures number { IfOk result (λ r. (r.1.view.number ≡ 0) × (r.1.view.made ≡ 1)) }
    ensures nothing { IfOk result (λ r. (r.1.view.held ≡ []) × (r.1.view.turn ≡ None)) }
{
    let rules = Rules {
        choice: CHOICE,
        bound: 0,
        budget,
    };
    let book = Book::new(alloc, formula, rules)?;
    let cells = Cells::of_formula(alloc, book.clauses())?;
    Yard::new(alloc, book, cells)
}

// Tries the neighbourhood of 1.
fn try_one(alloc: Global, yard: &Yard, seat: &mut Seat, limit: u32) -> Result<Hood, HoodAnswer>
    requires table { seat.old.table ≡ yard.now.table }
    requires base { seat.old.view.base ≡ yard.now.base }
    requires variables { yard.now.base.formula.variables ≡ 3 }
    requires idle { IsIdle seat.old.view }
    ensures table { seat.new.table ≡ seat.old.table }
    ensures base { seat.new.view.base ≡ seat.old.view.base }
    ensures holds { IfOk result (λ h. HoldsJust seat.new.view h.cells) }
    ensures idle { OnErr result (IsIdle seat.new.view) }
{
    try_hood(alloc, yard, seat, 1, limit)
}

fn assert_answer(rt: &impl Abort, answer: HoodAnswer, want: HoodAnswer) {
    assert_eq!(rt; answer, want);
}

// The variable of the centre, and the number of its clauses.
fn assert_centre(rt: &impl Abort, hood: &Hood, want: (u32, usize)) {
    assert_eq!(rt; (hood.centre().var(), hood.centre().len()), want);
}

#[test]
fn a_refused_try_holds_nothing(rt: HostRuntime) -> Result<(), Fail> {
    let formula = formula_of(rt.alloc(), 1, false)?;
    let (yard, mut zero) = yard_of(rt.alloc(), formula, 0)?;
    let mut first = yard.split(&mut zero);
    let mut second = yard.split(&mut zero);
    let Ok(three) = yard.try_lock(&mut second, 3) else {
        panic!(rt; "the lock of 3 is free");
    };
    let Err(answer) = try_one(rt.alloc(), &yard, &mut first, 512) else {
        panic!(rt; "the second seat holds 3");
    };
    assert_answer(&rt, answer, HoodAnswer::Busy { var: 3, by: 2 });
    let Ok(one) = yard.try_lock(&mut second, 1) else {
        panic!(rt; "the lock of 1 is free again");
    };
    let Ok(two) = yard.try_lock(&mut second, 2) else {
        panic!(rt; "the lock of 2 is free again");
    };
    yard.unlock(&mut second, 2, two);
    yard.unlock(&mut second, 1, one);
    yard.unlock(&mut second, 3, three);
    let Ok(hood) = try_one(rt.alloc(), &yard, &mut first, 512) else {
        panic!(rt; "all locks are free");
    };
    assert_centre(&rt, &hood, (1, 2));
    release(&yard, &mut first, hood);
    Ok(())
}

#[test]
fn a_neighbourhood_above_the_limit_is_not_locked(rt: HostRuntime) -> Result<(), Fail> {
    let formula = formula_of(rt.alloc(), 1, false)?;
    let (yard, mut zero) = yard_of(rt.alloc(), formula, 0)?;
    let Err(answer) = try_one(rt.alloc(), &yard, &mut zero, 2) else {
        panic!(rt; "the neighbourhood has three variables");
    };
    assert_answer(&rt, answer, HoodAnswer::Wide { count: 3 });
    let Ok(hood) = try_one(rt.alloc(), &yard, &mut zero, 3) else {
        panic!(rt; "three are within the limit");
    };
    release(&yard, &mut zero, hood);
    Ok(())
}

// Whether the clause has just the literals of these codes.
fn is_pair(clause: &Clause, first: u32, second: u32) -> bool
    ensures { IsTrue result → clause.now ≡ first ∷ second ∷ [] }
{
    let lits = clause.lits();
    lits.len() == 2 && lits[0].code() == first && lits[1].code() == second
}

// The clause alone, under its number.
fn one(alloc: Global, number: u64, clause: &Clause) -> Result<NamedList, AllocError>
    ensures { IfOk result (λ l. l.items ≡ record { number = number; clause = clause.now } ∷ []) }
{
    let mut list = NamedList::new(alloc);
    let clause = clause.again()?;
    list.push(Named { number, clause })?;
    Ok(list)
}

// The elimination of 1, where the cell is that of 1 with the clauses {1, 2} and {-1, 3}.
fn elimination_of_one(alloc: Global, cell: &Cell) -> Result<Option<Entry>, AllocError>
    ensures { IfOk result (λ o. IfSome o (λ e. IsLegalFor cell.now (entry_of e))) }
{
    let (Some((m, left)), Some((n, right))) = (cell.get(0), cell.get(1)) else {
        return Ok(None);
    };
    if cell.var() != 1 || cell.len() != 2 || !is_pair(left, 2, 4) || !is_pair(right, 3, 6) {
        return Ok(None);
    }
    let lits = [Lit::new(2, true), Lit::new(3, true)];
    let resolvent = Clause::from_lits(alloc, lits.as_slice())?;
    Ok(Some(Entry::Eliminate {
        var: 1,
        pos: one(alloc, m, left)?,
        neg: one(alloc, n, right)?,
        new: one(alloc, 1, &resolvent)?,
    }))
}

// The elimination of 2, where the cell is that of 2 with the clause {2, 3}.
fn elimination_of_two(alloc: Global, cell: &Cell) -> Result<Option<Entry>, AllocError>
    ensures { IfOk result (λ o. IfSome o (λ e. IsLegalFor cell.now (entry_of e))) }
{
    let Some((n, clause)) = cell.get(0) else {
        return Ok(None);
    };
    if cell.var() != 2 || cell.len() != 1 || !is_pair(clause, 4, 6) {
        return Ok(None);
    }
    Ok(Some(Entry::Eliminate {
        var: 2,
        pos: one(alloc, n, clause)?,
        neg: NamedList::new(alloc),
        new: NamedList::new(alloc),
    }))
}

// The elimination of the cell's variable, where it is one of the two.
fn elimination_of(alloc: Global, cell: &Cell) -> Result<Option<Entry>, AllocError>
    ensures { IfOk result (λ o. IfSome o (λ e. IsLegalFor cell.now (entry_of e))) }
{
    if cell.var() == 1 {
        elimination_of_one(alloc, cell)
    } else {
        elimination_of_two(alloc, cell)
    }
}

// How a commit was answered, or that there was nothing to commit.
#[derive(Clone, Copy, PartialEq, Eq, Debug)]
enum How {
    Nothing,
    Posted { position: u64 },
    Refused { answer: CommitAnswer },
}

fn how_of(answer: Result<Receipt, CommitAnswer>) -> How {
    match answer {
        Ok(receipt) => How::Posted {
            position: receipt.position,
        },
        Err(answer) => How::Refused { answer },
    }
}

// Commits the elimination of the centre, where that is one of the two.
fn eliminate(
    alloc: Global,
    yard: &Yard,
    seat: &mut Seat,
    hood: &mut Hood,
    tries: u32,
) -> Result<How, AllocError>
    requires table { seat.old.table ≡ yard.now.table }
    requires base { seat.old.view.base ≡ yard.now.base }
    requires rules { Eliminates yard.now.base.rules }
    requires holds { HoldsJust seat.old.view hood.old.cells }
    requires tries { 1 ≤ tries }
    ensures table { seat.new.table ≡ seat.old.table }
    ensures base { seat.new.view.base ≡ seat.old.view.base }
    ensures holds { HoldsJust seat.new.view hood.new.cells }
{
    let Some(entry) = elimination_of(alloc, hood.centre())? else {
        return Ok(How::Nothing);
    };
    let prepared = hood.prepare(alloc, &entry)?;
    let answer = commit(yard, seat, hood, prepared, entry, 1, tries);
    Ok(how_of(answer))
}

// Appends the variable of the cell with the number of each of its clauses.
fn list_cell(cell: &Cell, list: &mut Vec<(u32, u64)>) -> Result<(), AllocError> {
    for (number, _clause) in cell.iter() {
        list.push((cell.var(), number))?;
    }
    Ok(())
}

// The variables of the hood's cells, each with the number of each of its clauses.
fn listed(alloc: Global, hood: &Hood) -> Result<Vec<(u32, u64)>, AllocError> {
    let mut list = Vec::new(alloc);
    for cell in hood.cells.iter() {
        list_cell(cell, &mut list)?;
    }
    Ok(list)
}

// Commits the elimination of the centre, with three tries of the turn, while another seat has it.
fn eliminate_beside(
    alloc: Global,
    yard: &Yard,
    seat: &mut Seat,
    other: &mut Seat,
    hood: &mut Hood,
) -> Result<How, AllocError>
    requires tables { (seat.old.table ≡ yard.now.table) × (other.old.table ≡ yard.now.table) }
    requires bases { (seat.old.view.base ≡ yard.now.base) × (other.old.view.base ≡ yard.now.base) }
    requires rules { Eliminates yard.now.base.rules }
    requires holds { HoldsJust seat.old.view hood.old.cells }
    requires idle { IsIdle other.old.view }
    ensures tables { (seat.new.table ≡ seat.old.table) × (other.new.table ≡ other.old.table) }
    ensures bases { (seat.new.view.base ≡ seat.old.view.base) × (other.new.view.base ≡ other.old.view.base) }
    ensures holds { HoldsJust seat.new.view hood.new.cells }
    ensures idle { IsIdle other.new.view }
{
    let Ok(book) = yard.try_turn(other) else {
        return Ok(How::Nothing);
    };
    let how = eliminate(alloc, yard, seat, hood, 3);
    yard.end_turn(other, book);
    how
}

// The length of the journal, where the turn is free.
fn journal_len(yard: &Yard, seat: &mut Seat) -> Option<usize>
    requires table { seat.old.table ≡ yard.now.table }
    requires base { seat.old.view.base ≡ yard.now.base }
    requires idle { IsIdle seat.old.view }
    ensures table { seat.new.table ≡ seat.old.table }
    ensures base { seat.new.view.base ≡ seat.old.view.base }
    ensures idle { IsIdle seat.new.view }
{
    let Ok(book) = yard.try_turn(seat) else {
        return None;
    };
    let len = book.journal().len();
    yard.end_turn(seat, book);
    Some(len)
}

// A yard over the clauses {1, 2} and {-1, 3} with its second and third seats.
fn two_seats(alloc: Global) -> Result<(Yard, Seat, Seat), AllocError>
    ensures tables { IfOk result (λ r. (r.1.table ≡ r.0.table) × (r.2.table ≡ r.0.table)) }
    ensures bases { IfOk result (λ r. (r.1.view.base ≡ r.0.base) × (r.2.view.base ≡ r.0.base)) }
    ensures variables { IfOk result (λ r. r.0.base.formula.variables ≡ 3) }
    ensures rules { IfOk result (λ r. Eliminates r.0.base.rules) }
    ensures idle { IfOk result (λ r. IsIdle r.1.view × IsIdle r.2.view) }
{
    let formula = formula_of(alloc, 1, false)?;
    let (yard, mut zero) = yard_of(alloc, formula, 0)?;
    let first = yard.split(&mut zero);
    let second = yard.split(&mut zero);
    Ok((yard, first, second))
}

fn assert_how(rt: &impl Abort, how: How, want: How) {
    assert_eq!(rt; how, want);
}

fn assert_len(rt: &impl Abort, len: Option<usize>, want: usize) {
    assert_eq!(rt; len, Some(want));
}

fn assert_listed(rt: &impl Abort, alloc: Global, hood: &Hood, want: &[(u32, u64)]) {
    let Ok(list) = listed(alloc, hood) else {
        panic!(rt; "memory is ample");
    };
    assert_eq!(rt; list.as_slice(), want);
}

#[test]
fn a_commit_meets_the_turn_until_it_ends(rt: HostRuntime) -> Result<(), Fail> {
    let alloc = rt.alloc();
    let (yard, mut first, mut second) = two_seats(alloc)?;
    let Ok(mut hood) = try_one(alloc, &yard, &mut first, 512) else {
        panic!(rt; "all locks are free");
    };
    let answer = CommitAnswer::TurnHeld { by: 2 };
    let met = eliminate_beside(alloc, &yard, &mut first, &mut second, &mut hood)?;
    assert_how(&rt, met, How::Refused { answer });
    assert_listed(&rt, alloc, &hood, &[(1, 1), (1, 2), (2, 1), (3, 2)]);
    let posted = eliminate(alloc, &yard, &mut first, &mut hood, 3)?;
    assert_how(&rt, posted, How::Posted { position: 0 });
    assert_listed(&rt, alloc, &hood, &[(2, 3), (3, 3)]);
    assert_len(&rt, journal_len(&yard, &mut second), 1);
    let Err(answer) = try_one(alloc, &yard, &mut second, 512) else {
        panic!(rt; "the first seat holds 1");
    };
    assert_answer(&rt, answer, HoodAnswer::Busy { var: 1, by: 1 });
    release(&yard, &mut first, hood);
    Ok(())
}

// Commits the elimination of the variable under its hood, which is then released: how it was answered, and whether the cells list
// what they listed.
fn eliminate_at(
    alloc: Global,
    yard: &Yard,
    seat: &mut Seat,
    x: u32,
) -> Result<(How, bool), AllocError>
    requires table { seat.old.table ≡ yard.now.table }
    requires base { seat.old.view.base ≡ yard.now.base }
    requires rules { Eliminates yard.now.base.rules }
    requires low { 1 ≤ x }
    requires high { x ≤ yard.now.base.formula.variables }
    requires idle { IsIdle seat.old.view }
    ensures table { OnOk result (seat.new.table ≡ seat.old.table) }
    ensures base { OnOk result (seat.new.view.base ≡ seat.old.view.base) }
    ensures idle { OnOk result (IsIdle seat.new.view) }
{
    let Ok(mut hood) = try_hood(alloc, yard, seat, x, 512) else {
        return Err(AllocError);
    };
    let before = listed(alloc, &hood)?;
    let how = eliminate(alloc, yard, seat, &mut hood, 1)?;
    let same = listed(alloc, &hood)?.as_slice() == before.as_slice();
    release(yard, seat, hood);
    Ok((how, same))
}

// The number of the first clause, whether an empty clause follows, and the budget; then what comes of the eliminations of 1 and of 2,
// and the length of the journal that they leave.
type Row = (u64, bool, u64, (How, bool), (How, bool), usize);

fn assert_row(rt: &impl Abort, alloc: Global, row: &Row) -> Result<(), AllocError> {
    let (first, empty, budget, one, two, len) = *row;
    let formula = formula_of(alloc, first, empty)?;
    let (yard, mut seat) = yard_of(alloc, formula, budget)?;
    assert_end(rt, eliminate_at(alloc, &yard, &mut seat, 1)?, one);
    assert_end(rt, eliminate_at(alloc, &yard, &mut seat, 2)?, two);
    assert_len(rt, journal_len(&yard, &mut seat), len);
    Ok(())
}

fn assert_end(rt: &impl Abort, end: (How, bool), want: (How, bool)) {
    assert_eq!(rt; end, want);
}

fn posted(position: u64) -> (How, bool) {
    (How::Posted { position }, false)
}

fn refused(answer: CommitAnswer) -> (How, bool) {
    (How::Refused { answer }, true)
}

#[test]
fn a_refused_commit_changes_nothing(rt: HostRuntime) -> Result<(), Fail> {
    let nothing = (How::Nothing, true);
    let next = 1_099_511_627_776;
    let rows: [Row; 4] = [
        (1, false, 0, posted(0), posted(1), 2),
        (
            1,
            false,
            1,
            posted(0),
            refused(CommitAnswer::Spent { len: 1 }),
            1,
        ),
        (
            1,
            true,
            0,
            refused(CommitAnswer::Refuted { empty: 3 }),
            nothing,
            0,
        ),
        (
            next - 2,
            false,
            0,
            refused(CommitAnswer::Numbers { next }),
            nothing,
            0,
        ),
    ];
    for row in &rows {
        assert_row(&rt, rt.alloc(), row)?;
    }
    Ok(())
}
