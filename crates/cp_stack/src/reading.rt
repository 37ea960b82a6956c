//! Reading the pairs of a stack's text, in one pass over its words.
//!
//! The literals of all pairs go through one list, so that a short clause takes no memory of its own.

ghost use Rattle.std.specs.Prelude.{◌≡◌, ◌<◌, [], length, OnOk, IfOk};
ghost use Rattle.cp_logic.specs.Pairs.{pair_of};
ghost use Rattle.cp_text.specs.Ahead.{lines_of};
ghost use Rattle.cp_stack.specs.Grammar.{words_of, end_of, pair_with};
ghost use Rattle.cp_stack.specs.Reads.{Gives};
ghost use Rattle.cp_stack.specs.Resume.{resume, IsReading, IsStep, EndsPair, up_to};

use crate::header::bad;
use crate::refusal::{StackKind, StackRefusal};
use cp_logic::{Clause, Lit, Pair, Stack};
use cp_text::{Ahead, Item, next_seen, parse_number};
use std::alloc::{AllocError, Global};

/// The pairs that were ended, the literals of the pair that is open, and how many pairs are still to be ended.
#[derive(Drop)]
pub(crate) struct Reading {
    pub stack: Stack,
    pub open: Vec<Lit>,
    pub left: u64,
}

// Takes the next word of the pairs.
fn take_word(alloc: Global, reading: &mut Reading, at: u64, word: &[u8]) -> Result<(), StackRefusal>
    requires { IsReading reading.old }
    ensures step { IsStep reading.old (record { at = at; bytes = word.now }) result reading.new }
    ensures reading { OnOk result (IsReading reading.new) }
{
    let Some(number) = parse_number(word) else {
        return Err(bad(at, StackKind::BadWord));
    };
    let Some(size) = size_within(number.size, reading.stack.vars) else {
        return Err(bad(at, StackKind::TooGreat));
    };
    if size == 0 && reading.open.is_empty() {
        return Err(bad(at, StackKind::EmptyPair));
    }
    if reading.left == 0 {
        return Err(bad(at, StackKind::Count));
    }
    if size == 0 {
        end_pair(alloc, reading)?;
        return Ok(());
    }
    reading.open.push(Lit::new(size, number.positive))?;
    Ok(())
}

// The size where it is no more than this.
fn size_within(size: Option<u64>, most: u32) -> Option<u32>
    ensures { result ≡ up_to most size }
{
    match size {
        Some(size) if size <= u64::from(most) => Some(size as u32),
        _ => None,
    }
}

// Ends the open pair, of which the first literal is the pair's.
fn end_pair(alloc: Global, reading: &mut Reading) -> Result<(), AllocError>
    requires reading { IsReading reading.old }
    requires some { 0 < length reading.old.open.items }
    requires left { 0 < reading.old.left }
    ensures { OnOk result (EndsPair reading.old reading.new) }
{
    let pair = make_pair(alloc, &reading.open)?;
    reading.stack.push(pair)?;
    reading.open.clear();
    reading.left -= 1;
    Ok(())
}

// The first of these literals with the clause of all.
fn make_pair(alloc: Global, lits: &[Lit]) -> Result<Pair, AllocError>
    requires { 0 < length lits.now }
    ensures { IfOk result (λ p. pair_of p ≡ pair_with lits.now) }
{
    let clause = Clause::from_lits(alloc, lits)?;
    let lit = lits[0];
    Ok(Pair::new(lit, clause))
}

// The stack where the text ends.
fn close(reading: Reading, end: u64) -> Result<Stack, StackRefusal>
    ensures { Gives (resume reading [] end) result }
{
    if !reading.open.is_empty() {
        return Err(bad(end, StackKind::OpenPair));
    }
    if reading.left > 0 {
        return Err(bad(end, StackKind::Count));
    }
    Ok(reading.stack)
}

/// The stack of what was read and of the words that are ahead.
pub(crate) fn read_pairs(
    alloc: Global,
    start: Reading,
    text: Ahead<'_>,
) -> Result<Stack, StackRefusal>
    requires { IsReading start }
    ensures { Gives (resume start (words_of (lines_of text.entry)) (end_of (lines_of text.entry))) result }
{
    let mut reading = start;
    let mut left = text.text;
    let mut place = text.at;
    'words: loop {
        match next_seen(left, place, text.cut) {
            Item::Word { at, word, rest } => {
                take_word(alloc, &mut reading, at, word)?;
                place = at + word.len() as u64;
                left = rest;
            }
            Item::LineEnd { at, rest } => {
                place = at + 1;
                left = rest;
            }
            Item::End { at } => {
                return close(reading, at);
            }
        }
    }
}
