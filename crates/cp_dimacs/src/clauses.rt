//! Reading the number words of clauses.
//!
//! The literals of all clauses go through one list, so that a short clause takes no memory of its own while it is read.

ghost use Rattle.std.specs.Prelude.{◌≡◌, ◌^◌, ◌<◌, ◌≤◌, [], max, OnOk};
ghost use Rattle.cp_logic.specs.Formulas.{IsWithin};
ghost use Rattle.cp_io.specs.Limits.{IsWithinStandard};
ghost use Rattle.cp_dimacs.specs.Written.{greatest_of, with_clause};
ghost use Rattle.cp_dimacs.specs.Resume.{IsStep, IsEnd, IsClosed};

use crate::refusal::{CnfRefusal, InputKind};
use cp_io::{Limit, Limits};
use cp_logic::{Clause, Formula, Lit};
use cp_text::parse_number;
use std::alloc::{AllocError, Global};

/// The formula of the clauses that were ended, the literals of the clause that is open, and how many literals were read in all.
#[derive(Drop)]
pub(crate) struct Reading {
    pub formula: Formula,
    pub open_clause: Vec<Lit>,
    pub literals: u64,
}

/// Takes the next word of the clauses.
pub(crate) fn take_word(
    alloc: Global,
    reading: &mut Reading,
    at: u64,
    word: &[u8],
    limits: &Limits,
) -> Result<(), CnfRefusal>
    requires { IsWithinStandard limits.now }
    ensures { IsStep limits.now reading.old (record { at = at; bytes = word.now }) result reading.new }
{
    let Some(number) = parse_number(word) else {
        return Err(CnfRefusal::BadInput {
            offset: at,
            kind: InputKind::BadWord,
        });
    };
    // What is too large for the type is too large for the limit.
    let size = number.size.unwrap_or(u64::MAX);
    if size == 0 {
        return end_clause(alloc, reading, at, limits);
    }
    if size > u64::from(limits.variables) {
        return Err(CnfRefusal::TooLarge {
            limit: Limit::Variables,
            offset: at,
        });
    }
    if reading.literals >= limits.literals {
        return Err(CnfRefusal::TooLarge {
            limit: Limit::Literals,
            offset: at,
        });
    }
    reading
        .open_clause
        .push(Lit::new(size as u32, number.positive))?;
    reading.literals += 1;
    Ok(())
}

fn end_clause(
    alloc: Global,
    reading: &mut Reading,
    at: u64,
    limits: &Limits,
) -> Result<(), CnfRefusal>
    requires { IsWithinStandard limits.now }
    ensures { IsEnd limits.now reading.old at result reading.new }
{
    if reading.formula.next() > limits.clauses {
        return Err(CnfRefusal::TooLarge {
            limit: Limit::Clauses,
            offset: at,
        });
    }
    add_clause(alloc, &mut reading.formula, &reading.open_clause)?;
    reading.open_clause.clear();
    Ok(())
}

// Adds the clause of these literals, and as many variables as it needs.
fn add_clause(alloc: Global, formula: &mut Formula, lits: &[Lit]) -> Result<(), AllocError>
    requires { formula.old.formula.next < 2 ^ 40 }
    ensures { OnOk result (formula.new.formula ≡ with_clause formula.old.formula lits.now) }
{
    let greatest = greatest_variable(lits, formula.vars());
    formula.raise(greatest);
    let clause = Clause::from_lits(alloc, lits)?;
    formula.push(clause)?;
    Ok(())
}

// The greatest variable of these literals, or this one where it is greater.
fn greatest_variable(lits: &[Lit], least: u32) -> u32
    requires { least ≤ 2000000 }
    ensures greatest { result ≡ max least (greatest_of lits.now) }
    ensures high { result ≤ 2000000 }
    ensures within { IsWithin result lits.now }
{
    let mut greatest = least;
    for lit in lits {
        greatest = greatest.max(lit.var());
    }
    greatest
}

/// Refuses an input that ends at a place within a clause.
pub(crate) fn close(reading: &Reading, end: u64) -> Result<(), CnfRefusal>
    ensures { IsClosed reading.now end result }
{
    if reading.open_clause.is_empty() {
        Ok(())
    } else {
        Err(CnfRefusal::BadInput {
            offset: end,
            kind: InputKind::OpenClause,
        })
    }
}
