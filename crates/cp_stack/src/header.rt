//! The header of a stack's text, word by word.
//!
//! Each step takes what is ahead and gives what is ahead of the next one. Nothing is kept of a word, and no memory is taken.

ghost use Rattle.std.specs.Prelude.{◌≡◌, ◌≤◌, IfOk};
ghost use Rattle.cp_stack.specs.Grammar.{from_words, next_word, named, counted, variables_in, number_of_pairs, no_word, header};
ghost use Rattle.cp_text.specs.Ahead.{lines_of};
ghost use Rattle.cp_stack.specs.Ahead.{seen_by, word_seen, size_kept, size_seen, behind_size, variables_seen, pairs_seen, header_seen};

use crate::refusal::{StackKind, StackRefusal};
use cp_io::{Limit, Limits};
use cp_text::{Ahead, Item, Number, next_seen, parse_number};

/// A word, and what is ahead of it.
#[derive(Clone, Copy)]
struct FirstWord<'a> {
    bytes: &'a [u8],
    at: u64,
    ahead: Ahead<'a>,
}

/// A number without a `-`, and what is ahead of it.
#[derive(Clone, Copy)]
struct Size<'a> {
    /// `None` where it is 2^64 or more.
    size: Option<u64>,
    at: u64,
    ahead: Ahead<'a>,
}

/// A number of variables, and what is ahead of it.
#[derive(Clone, Copy)]
struct VariableCount<'a> {
    variables: u32,
    ahead: Ahead<'a>,
}

/// A number of pairs, and what is ahead of it.
#[derive(Clone, Copy)]
struct PairCount<'a> {
    pairs: u64,
    ahead: Ahead<'a>,
}

/// The numbers of variables and of pairs, and what is ahead of them.
#[derive(Clone, Copy)]
pub(crate) struct Header<'a> {
    pub variables: u32,
    pub pairs: u64,
    pub ahead: Ahead<'a>,
}

/// The refusal of a fault at a place.
pub(crate) fn bad(offset: u64, kind: StackKind) -> StackRefusal
    ensures { result ≡ StackRefusal.BadStack offset kind }
{
    StackRefusal::BadStack { offset, kind }
}

// What is ahead from the first line with words on.
fn skip_empty(text: Ahead<'_>) -> Ahead<'_>
    ensures { lines_of result ≡ from_words (lines_of text.entry) }
{
    let mut left = text.text;
    let mut place = text.at;
    'lines: while let Item::LineEnd { at, rest } = next_seen(left, place, text.cut) {
        left = rest;
        place = at + 1;
    }
    Ahead {
        text: left,
        at: place,
        cut: text.cut,
    }
}

// The first word of the line that is ahead.
fn first_word(text: Ahead<'_>) -> Result<FirstWord<'_>, StackRefusal>
    ensures { seen_by word_seen result ≡ next_word (lines_of text.entry) }
{
    match next_seen(text.text, text.at, text.cut) {
        Item::Word { at, word, rest } => Ok(FirstWord {
            bytes: word,
            at,
            ahead: Ahead {
                text: rest,
                at: at + word.len() as u64,
                cut: text.cut,
            },
        }),
        Item::LineEnd { at, .. } | Item::End { at } => Err(bad(at, StackKind::BadHeader)),
    }
}

// What is ahead of a word, which has to stand first.
fn take_name<'a>(text: Ahead<'a>, name: &[u8]) -> Result<Ahead<'a>, StackRefusal>
    ensures { seen_by lines_of result ≡ named name.now (lines_of text.entry) }
{
    let first = first_word(text)?;
    if first.bytes == name {
        Ok(first.ahead)
    } else {
        Err(bad(first.at, StackKind::BadHeader))
    }
}

// The number without a `-` that stands first.
fn take_size(text: Ahead<'_>) -> Result<Size<'_>, StackRefusal>
    ensures { seen_by size_seen result ≡ seen_by size_kept (counted (lines_of text.entry)) }
{
    let first = first_word(text)?;
    match parse_number(first.bytes) {
        Some(
            Number {
                positive: true,
                size,
            },
        ) => Ok(Size {
            size,
            at: first.at,
            ahead: first.ahead,
        }),
        _ => Err(bad(first.at, StackKind::BadHeader)),
    }
}

// The number of variables that stands first.
fn take_variables(text: Ahead<'_>, most: u32) -> Result<VariableCount<'_>, StackRefusal>
    ensures value { seen_by variables_seen result ≡ seen_by behind_size (variables_in most (lines_of text.entry)) }
    ensures within { IfOk result (λ v. v.variables ≤ most) }
{
    let number = take_size(text)?;
    match number.size {
        Some(size) if size <= u64::from(most) => Ok(VariableCount {
            variables: size as u32,
            ahead: number.ahead,
        }),
        _ => Err(StackRefusal::TooLarge {
            limit: Limit::Variables,
            offset: number.at,
        }),
    }
}

// The number of pairs that stands first.
fn take_pairs(text: Ahead<'_>) -> Result<PairCount<'_>, StackRefusal>
    ensures { seen_by pairs_seen result ≡ seen_by behind_size (number_of_pairs (lines_of text.entry)) }
{
    let number = take_size(text)?;
    match number.size {
        Some(pairs) => Ok(PairCount {
            pairs,
            ahead: number.ahead,
        }),
        None => Err(bad(number.at, StackKind::BadHeader)),
    }
}

// No word stands in the line that is ahead.
fn end_header(text: Ahead<'_>) -> Result<(), StackRefusal>
    ensures { seen_by (λ _. lines_of text.entry) result ≡ no_word (lines_of text.entry) }
{
    match next_seen(text.text, text.at, text.cut) {
        Item::Word { at, .. } => Err(bad(at, StackKind::BadHeader)),
        Item::LineEnd { .. } | Item::End { .. } => Ok(()),
    }
}

/// The header of a text.
pub(crate) fn read_header<'a>(text: Ahead<'a>, limits: &Limits) -> Result<Header<'a>, StackRefusal>
    ensures value { seen_by header_seen result ≡ header limits.now (from_words (lines_of text.entry)) }
    ensures within { IfOk result (λ h. h.variables ≤ limits.now.variables) }
{
    let text = take_name(skip_empty(text), b"p")?;
    let text = take_name(text, b"stack")?;
    let text = take_name(text, b"1")?;
    let variables = take_variables(text, limits.variables)?;
    let pairs = take_pairs(variables.ahead)?;
    end_header(pairs.ahead)?;
    Ok(Header {
        variables: variables.variables,
        pairs: pairs.pairs,
        ahead: pairs.ahead,
    })
}
