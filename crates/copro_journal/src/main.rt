//! For tests alone: makes the call that the program makes, and then prints on standard output what the program keeps to itself of a run
//! of `simplify`: its journal, the shifts of its workers and why it stopped. It promises nothing, so no contract stands here.
//!
//! These are its lines. A clause is its number, its literals as DIMACS writes them, and 0.
//!
//! - `post WORKER ROUND ENTRY` for each post, in the order of the journal. The entries are
//!   `t gone CLAUSE`, `s by CLAUSE gone CLAUSE`, `x LITERAL by CLAUSE on CLAUSE new CLAUSE`, `b LITERAL gone CLAUSE`, and
//!   `e VARIABLE` with `pos CLAUSE`, `neg CLAUSE` and `new CLAUSE` for each of its clauses.
//! - `shift WORKER ROUND STOP taken VARIABLE.. commits POSITION..` for each shift, by round and then worker. Behind it stand
//!   `busy AT VARIABLE BY`, `late AT BY` and `wide AT COUNT` for each candidate that was left.
//! - `stopped STOP`, where the stop is `spent`, `numbers`, `refuted` or `none`.
#![tactic(auto)]

use cp_io::{StdDesk, program_words};
use cp_logic::{Entry, Named, NamedList, Stop};
use cp_top::{Outcome, Refusal, run};
use cp_worker::{OpenGate, WorkerShift};
use std::alloc::AllocError;
use std::fmt::Write;
use std::io;
use std::process::ExitCode;

fn push_clause(text: &mut String, role: &str, named: &Named) -> Result<(), AllocError> {
    write!(text, " {role} {}", named.number)?;
    for lit in named.clause.lits() {
        write!(text, " {}", lit.to_i64())?;
    }
    text.push_str(" 0")
}

fn push_clauses(text: &mut String, role: &str, list: &NamedList) -> Result<(), AllocError> {
    for named in list.as_slice() {
        push_clause(text, role, named)?;
    }
    Ok(())
}

fn push_entry(text: &mut String, entry: &Entry) -> Result<(), AllocError> {
    match entry {
        Entry::Taut { gone } => {
            text.push_str(" t")?;
            push_clause(text, "gone", gone)
        }
        Entry::Subsume { by, gone } => {
            text.push_str(" s")?;
            push_clause(text, "by", by)?;
            push_clause(text, "gone", gone)
        }
        Entry::Strengthen { by, on, lit, new } => {
            write!(text, " x {}", lit.to_i64())?;
            push_clause(text, "by", by)?;
            push_clause(text, "on", on)?;
            push_clause(text, "new", new)
        }
        Entry::Block { gone, lit } => {
            write!(text, " b {}", lit.to_i64())?;
            push_clause(text, "gone", gone)
        }
        Entry::Eliminate { var, pos, neg, new } => {
            write!(text, " e {var}")?;
            push_clauses(text, "pos", pos)?;
            push_clauses(text, "neg", neg)?;
            push_clauses(text, "new", new)
        }
        Entry::Look { var } => write!(text, " look {var}"),
    }
}

fn name_of(stopped: Option<Stop>) -> &'static str {
    match stopped {
        None => "none",
        Some(Stop::Spent) => "spent",
        Some(Stop::Numbers) => "numbers",
        Some(Stop::Refuted) => "refuted",
    }
}

fn push_shift(text: &mut String, shift: &WorkerShift) -> Result<(), AllocError> {
    let stop = name_of(shift.stopped);
    write!(text, "shift {} {} {stop} taken", shift.worker, shift.round)?;
    for var in shift.taken.as_slice() {
        write!(text, " {var}")?;
    }
    text.push_str(" commits")?;
    for position in shift.commits.as_slice() {
        write!(text, " {position}")?;
    }
    for left in shift.busy.as_slice() {
        write!(text, " busy {} {} {}", left.at, left.var, left.by)?;
    }
    for left in shift.late.as_slice() {
        write!(text, " late {} {}", left.at, left.by)?;
    }
    for left in shift.wide.as_slice() {
        write!(text, " wide {} {}", left.at, left.count)?;
    }
    text.push('\n')
}

fn print_journal(rt: &HostRuntime, outcome: &Outcome) -> io::Result<()> {
    let Outcome::Done {
        journal,
        shifts,
        stopped,
        ..
    } = outcome
    else {
        return Ok(());
    };
    let mut text = String::new(rt.alloc());
    for post in journal.as_slice() {
        write!(text, "post {} {}", post.worker, post.round)?;
        push_entry(&mut text, &post.entry)?;
        text.push('\n')?;
    }
    for shift in shifts.as_slice() {
        push_shift(&mut text, shift)?;
    }
    let stop = name_of(*stopped);
    println!(rt; "{text}stopped {stop}")
}

fn main(rt: HostRuntime) -> ExitCode {
    let outcome = match program_words(&rt) {
        Ok(words) => {
            let mut desk = StdDesk::new(rt);
            run(&rt, rt.alloc(), &words, &mut desk, &OpenGate)
        }
        // The tests hand on words that can be read.
        Err(_) => Outcome::Refused(Refusal::NoMemory),
    };
    if let Outcome::Refused(refusal) = &outcome {
        let _ = eprintln!(rt; "copro: {refusal}");
    }
    if print_journal(&rt, &outcome).is_err() {
        return ExitCode::from(74);
    }
    ExitCode::from(outcome.status())
}
