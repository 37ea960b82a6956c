//! A book on small formulas: the answer to each post, and the clauses that are left, with ample memory.
//!
//! Only tautologies are posted: that such an entry is legal is seen in the clause. The layers above post entries of each kind.
use crate::{Book, PostAnswer};
use cp_logic::{Choice, Clause, Entry, Formula, Lit, Named, Rules, Stop};
use std::alloc::{AllocError, Global};
use std::test::Fail;

const CHOICE: Choice = Choice {
    t: true,
    s: true,
    x: true,
    b: true,
    e: true,
};

const NOTHING: &[(u32, bool)] = &[];

// How a post ended: at which position, or why not, with the number of the clause that was handed back.
#[derive(Clone, Copy, PartialEq, Eq, Debug)]
enum How {
    NoTautology,
    Posted(u64),
    Refuted { empty: u64, gone: u64 },
    Spent { len: u64, gone: u64 },
    Numbers { next: u64, gone: u64 },
}

fn clause(alloc: Global, lits: &[(u32, bool)]) -> Result<Clause, AllocError> {
    let mut list = Vec::new(alloc);
    for (var, sign) in lits {
        list.push(Lit::new((*var).clamp(1, 3), *sign))?;
    }
    Clause::from_lits(alloc, &list)
}

// Adds the clause under the next number, if its variables are in range.
fn add(formula: &mut Formula, clause: Clause) -> Result<(), AllocError> {
    if clause.is_within(formula.vars()) && formula.next() < 1_099_511_627_776 {
        formula.push(clause)?;
    }
    Ok(())
}

// A book over three variables and these clauses, with all techniques.
fn book_of(alloc: Global, clauses: &[&[(u32, bool)]], budget: u64) -> Result<Book, AllocError> {
    let mut formula = Formula::new(alloc, 3, 1);
    for lits in clauses {
        add(&mut formula, clause(alloc, lits)?)?;
    }
    let rules = Rules {
        choice: CHOICE,
        bound: 0,
        budget,
    };
    Book::new(alloc, formula, rules)
}

// The number of the clause that a tautology's entry takes out.
fn gone_number(entry: &Entry) -> u64 {
    match entry {
        Entry::Taut { gone } => gone.number,
        _ => 0,
    }
}

fn how_of(answer: Result<u64, PostAnswer>) -> How {
    match answer {
        Ok(position) => How::Posted(position),
        Err(PostAnswer::Refuted { empty, entry }) => How::Refuted {
            empty,
            gone: gone_number(&entry),
        },
        Err(PostAnswer::Spent { len, entry }) => How::Spent {
            len,
            gone: gone_number(&entry),
        },
        Err(PostAnswer::Numbers { next, entry }) => How::Numbers {
            next,
            gone: gone_number(&entry),
        },
    }
}

// Posts the clause under the number as a tautology, if it is one.
fn post_tautology(book: &mut Book, number: u64) -> Result<How, AllocError> {
    if !book.rules().choice.t {
        return Ok(How::NoTautology);
    }
    let Some(clause) = book.clauses().get(number) else {
        return Ok(How::NoTautology);
    };
    if !clause.is_tautology() {
        return Ok(How::NoTautology);
    }
    let clause = clause.again()?;
    let entry = Entry::Taut {
        gone: Named { number, clause },
    };
    book.prepare(&entry)?;
    Ok(how_of(book.post(0, 0, entry)))
}

// The numbers of the current clauses.
fn numbers(alloc: Global, book: &Book) -> Result<Vec<u64>, AllocError> {
    let mut numbers = Vec::new(alloc);
    for (number, _) in book.clauses().iter() {
        numbers.push(number)?;
    }
    Ok(numbers)
}

// The clauses and the budget; what the posts of the clauses 1 and 2 come to; why no more is posted then, and the numbers that are left.
struct Row<'a> {
    clauses: &'a [&'a [(u32, bool)]],
    budget: u64,
    one: How,
    two: How,
    stopped: Option<Stop>,
    left: &'a [u64],
}

const TAUTOLOGY: &[(u32, bool)] = &[(2, true), (1, false), (1, true)];

const ROWS: &[Row<'static>] = &[
    Row {
        clauses: &[TAUTOLOGY, TAUTOLOGY, &[(3, true)]],
        budget: 0,
        one: How::Posted(0),
        two: How::Posted(1),
        stopped: None,
        left: &[3],
    },
    // A budget that is spent.
    Row {
        clauses: &[TAUTOLOGY, TAUTOLOGY],
        budget: 1,
        one: How::Posted(0),
        two: How::Spent { len: 1, gone: 2 },
        stopped: Some(Stop::Spent),
        left: &[2],
    },
    // Two empty clauses, of which the first is told.
    Row {
        clauses: &[TAUTOLOGY, &[(1, true), (2, false)], NOTHING, NOTHING],
        budget: 0,
        one: How::Refuted { empty: 3, gone: 1 },
        two: How::NoTautology,
        stopped: Some(Stop::Refuted),
        left: &[1, 2, 3, 4],
    },
];

fn passes(alloc: Global, row: &Row<'_>) -> Result<bool, AllocError> {
    let mut book = book_of(alloc, row.clauses, row.budget)?;
    let one = post_tautology(&mut book, 1)?;
    let two = post_tautology(&mut book, 2)?;
    let left = numbers(alloc, &book)?;
    let ends = one == row.one && two == row.two && book.stopped() == row.stopped;
    Ok(ends && left.as_slice() == row.left)
}

#[test]
fn books_come_to_these_ends(rt: HostRuntime) -> Result<(), Fail> {
    for row in ROWS {
        assert!(rt; passes(rt.alloc(), row)?);
    }
    Ok(())
}
