//! Reading the text of a witness stack from its bytes.

ghost use Rattle.std.specs.Prelude.{◌≡◌, ◌≤◌, IfOk, Result};
ghost use Rattle.cp_io.specs.Limits.{IsWithinStandard};
ghost use Rattle.cp_stack.specs.declared.refusal.StackRefusal.{StackRefusal as Refusal};
ghost use Rattle.cp_text.specs.Ahead.{lines_of};
ghost use Rattle.cp_stack.specs.Grammar.{Stack as StackRead, document, place_of, cut_at};
ghost use Rattle.cp_stack.specs.Reads.{Gives, AnswersStack};

use crate::header::read_header;
use crate::reading::{Reading, read_pairs};
use crate::refusal::StackRefusal;
use cp_io::{Limit, Limits};
use cp_logic::Stack;
use cp_text::{Ahead, within};
use std::alloc::Global;

/// The stack that a text spells, or its first fault.
///
/// A text that is longer than its limit has no stack: a fault before the limit is answered, and else `TooLarge` at the limit.
pub fn parse_stack(alloc: Global, bytes: &[u8], limits: &Limits) -> Result<Stack, StackRefusal>
    requires { IsWithinStandard limits.now }
    ensures answers { AnswersStack limits.now bytes.now result }
    ensures few { IfOk result (λ s. s.vars ≤ limits.now.variables) }
{
    let seen = within(bytes, limits.bytes);
    let answer = read_document(alloc, seen.ahead, limits);
    if seen.past {
        past_limit(answer, limits.bytes)
    } else {
        answer
    }
}

// The stack of the lines that are ahead.
fn read_document(alloc: Global, text: Ahead<'_>, limits: &Limits) -> Result<Stack, StackRefusal>
    requires { IsWithinStandard limits.now }
    ensures { Gives (document limits.now (lines_of text.entry)) result }
{
    let header = read_header(text, limits)?;
    let start = Reading {
        stack: Stack::new(alloc, header.variables),
        open: Vec::new(alloc),
        left: header.pairs,
    };
    read_pairs(alloc, start, header.ahead)
}

// What a text that passes its limit is answered, where its bytes within the limit have this answer.
fn past_limit(answer: Result<Stack, StackRefusal>, limit: u64) -> Result<Stack, StackRefusal>
    ensures { (wanted : Result StackRead Refusal) → Gives wanted answer → Gives (cut_at limit wanted) result }
{
    match answer {
        Err(StackRefusal::NoMemory) => Err(StackRefusal::NoMemory),
        Err(refusal) if place(refusal) < limit => Err(refusal),
        _ => Err(StackRefusal::TooLarge {
            limit: Limit::Bytes,
            offset: limit,
        }),
    }
}

fn place(refusal: StackRefusal) -> u64
    ensures { result ≡ place_of refusal }
{
    match refusal {
        StackRefusal::BadStack { offset, .. } | StackRefusal::TooLarge { offset, .. } => offset,
        StackRefusal::NoMemory => 0,
    }
}
