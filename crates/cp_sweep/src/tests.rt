//! Sweeps of small formulas, from the start and after a post, with their entries and what is left.

ghost use Rattle.std.specs.Prelude.{◌≡◌, ◌≤◌, ◌^◌, nat_lt};
ghost use Rattle.std.specs.List.{list_all};
ghost use Rattle.cp_logic.specs.Literals.{variable_of};
ghost use Rattle.cp_logic.specs.Journals.{number_limit};

use crate::{Swept, simplify, sweep};
use cp_book::Book;
use cp_logic::{Choice, Clause, Entry, Formula, Journal, Lit, Named, Rules, Stop};
use cp_occ::Cells;
use cp_yard::Ground;
use std::alloc::{AllocError, Global};
use std::fmt::Write;
use std::process::Abort;
use std::test::Fail;

const CHOICE: Choice = Choice {
    t: true,
    s: true,
    x: true,
    b: false,
    e: false,
};

// The literal of a variable from 1 to 3.
fn lit(code: u8) -> Lit {
    match code {
        2 => Lit::new(1, true),
        3 => Lit::new(1, false),
        4 => Lit::new(2, true),
        5 => Lit::new(2, false),
        6 => Lit::new(3, true),
        _ => Lit::new(3, false),
    }
}

fn clause(alloc: Global, codes: &[u8]) -> Result<Clause, AllocError> {
    let mut lits = Vec::new(alloc);
    for code in codes {
        lits.push(lit(*code))?;
    }
    Clause::from_lits(alloc, &lits)
}

fn are_above_zero(clause: &Clause) -> bool
    ensures { result ≡ list_all (λ l. nat_lt 0 (variable_of l)) clause.now }
{
    clause.lits().iter().all(|lit| 0 < lit.var())
}

fn are_below(clause: &Clause, end: u32) -> bool
    ensures { result ≡ list_all (λ l. nat_lt (variable_of l) end) clause.now }
{
    clause.lits().iter().all(|lit| lit.var() < end)
}

// Adds the clause under the next number, where that and its variables are in range.
fn add(alloc: Global, formula: &mut Formula, codes: &[u8]) -> Result<(), Fail> {
    let clause = clause(alloc, codes)?;
    let vars = formula.vars();
    if vars <= 2_000_000
        && are_above_zero(&clause)
        && are_below(&clause, vars + 1)
        && formula.next() < 1_099_511_627_776
    {
        formula.push(clause)?;
    }
    Ok(())
}

// The entries of a journal, each as its letter and the numbers of its clauses.
fn letters_of(alloc: Global, journal: &Journal) -> Result<String, Fail> {
    let mut text = String::new(alloc);
    for post in journal.as_slice() {
        push_entry(&mut text, &post.entry)?;
    }
    Ok(text)
}

// The entry as its letter and the numbers of its clauses, with a space behind it.
fn push_entry(text: &mut String, entry: &Entry) -> Result<(), Fail> {
    match entry {
        Entry::Taut { gone } => write!(text, "t{} ", gone.number)?,
        Entry::Subsume { by, gone } => write!(text, "s{},{} ", by.number, gone.number)?,
        Entry::Strengthen { by, on, new, .. } => {
            write!(text, "x{},{}:{} ", by.number, on.number, new.number)?
        }
        _ => text.push_str("? ")?,
    }
    Ok(())
}

// The formula over three variables of these clauses, whose first number is this.
fn formula_of(alloc: Global, clauses: &[&[u8]], first: u64) -> Result<Formula, Fail>
    requires low { 1 ≤ first }
    requires high { first ≤ 2 ^ 40 }
{
    let mut formula = Formula::new(alloc, 3, first);
    for codes in clauses {
        add(alloc, &mut formula, codes)?;
    }
    Ok(formula)
}

// What a sweep tells: the letters of its posts, how many clauses are left, and its stop.
fn assert_swept(
    rt: &impl Abort,
    alloc: Global,
    swept: &Swept,
    posts: &str,
    left: usize,
    stop: Option<Stop>,
) -> Result<(), Fail> {
    let letters = letters_of(alloc, &swept.journal)?;
    assert_eq!(rt; letters.as_str(), posts);
    assert_eq!(rt; swept.formula.len(), left);
    assert_eq!(rt; swept.stopped, stop);
    Ok(())
}

// The codes of the clauses, the budget, and then the posts, the clauses that are left and the stop.
type Row = (
    &'static [&'static [u8]],
    u64,
    &'static str,
    usize,
    Option<Stop>,
);

fn assert_row(rt: &impl Abort, alloc: Global, row: &Row, first: u64) -> Result<(), Fail>
    requires low { 1 ≤ first }
    requires high { first ≤ 2 ^ 40 }
{
    let (clauses, budget, posts, left, stop) = row;
    let formula = formula_of(alloc, *clauses, first)?;
    let rules = Rules {
        choice: CHOICE,
        bound: 0,
        budget: *budget,
    };
    if formula.next() > 1_099_511_627_776 {
        return Ok(());
    }
    let swept = simplify(alloc, formula, &rules)?;
    assert_swept(rt, alloc, &swept, *posts, *left, *stop)
}

#[test]
fn formulas_are_swept(rt: HostRuntime) -> Result<(), Fail> {
    let rows: [Row; 6] = [
        (&[], 0, "", 0, None),
        (&[&[2], &[3]], 0, "x1,2:3 ", 2, Some(Stop::Refuted)),
        (&[&[2], &[3, 4], &[5, 6]], 0, "x1,2:4 x4,3:5 ", 3, None),
        (
            &[&[2], &[3, 4], &[5, 6]],
            1,
            "x1,2:4 ",
            3,
            Some(Stop::Spent),
        ),
        (
            &[&[2, 3, 4], &[4, 6], &[6, 4], &[6]],
            0,
            "t1 s2,3 s4,2 ",
            1,
            None,
        ),
        (
            &[&[2, 4], &[3, 4], &[5, 6]],
            0,
            "x1,2:4 s4,1 x4,3:5 ",
            2,
            None,
        ),
    ];
    for row in &rows {
        assert_row(&rt, rt.alloc(), row, 1)?;
    }
    Ok(())
}

#[test]
fn numbers_end(rt: HostRuntime) -> Result<(), Fail> {
    let row: Row = (&[&[2], &[3]], 0, "", 2, Some(Stop::Numbers));
    assert_row(&rt, rt.alloc(), &row, 1_099_511_627_774)
}

// Posts the clause under the number, as worker 1 in round 1, if it is a tautology.
fn post_tautology(book: &mut Book, number: u64) -> Result<bool, AllocError>
    requires { book.old.first.next ≤ number_limit }
    ensures { book.new.first.next ≤ number_limit }
{
    if !book.rules().choice.t {
        return Ok(false);
    }
    let Some(clause) = book.clauses().get(number) else {
        return Ok(false);
    };
    if !clause.is_tautology() {
        return Ok(false);
    }
    let clause = clause.again()?;
    let entry = Entry::Taut {
        gone: Named { number, clause },
    };
    book.prepare(&entry)?;
    Ok(book.post(1, 1, entry).is_ok())
}

// What a sweep does after the tautology.
fn assert_gone_on(rt: &impl Abort, alloc: Global, book: Book) -> Result<(), Fail>
    requires { book.first.next ≤ number_limit }
{
    let cells = Cells::of_formula(alloc, book.clauses())?;
    let swept = sweep(alloc, Ground { book, cells })?;
    assert_swept(rt, alloc, &swept, "t3 s1,2 s4,1 ", 1, None)
}

#[test]
fn a_journal_is_gone_on_from(rt: HostRuntime) -> Result<(), Fail> {
    let clauses: [&[u8]; 4] = [&[4, 6], &[6, 4], &[2, 3, 4], &[6]];
    let formula = formula_of(rt.alloc(), &clauses, 1)?;
    if formula.next() > 1_099_511_627_776 {
        return Ok(());
    }
    let rules = Rules {
        choice: CHOICE,
        bound: 0,
        budget: 0,
    };
    let mut book = Book::new(rt.alloc(), formula, rules)?;
    assert!(rt; post_tautology(&mut book, 3)?);
    assert_gone_on(&rt, rt.alloc(), book)
}
