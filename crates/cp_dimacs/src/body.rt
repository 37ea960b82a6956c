//! Reading the lines behind the header.

ghost use Rattle.std.specs.Prelude.{option_copied, IfOk};
ghost use Rattle.cp_io.specs.Limits.{IsWithinStandard};
ghost use Rattle.cp_text.specs.Stops.{StopsWithin};
ghost use Rattle.cp_dimacs.specs.Lines.{TakesLine, TakesAnyLine, AnswersWithin, TakesBody};

use crate::clauses::{Reading, close, take_word};
use crate::refusal::CnfRefusal;
use cp_io::Limits;
use cp_text::{Ahead, Item, LineStop, next_item, next_seen, skip_line};
use std::alloc::Global;

/// Takes the words of a line.
pub(crate) fn take_line<'a>(
    alloc: Global,
    reading: &mut Reading,
    text: Ahead<'a>,
    limits: &Limits,
) -> Result<LineStop<'a>, CnfRefusal>
    requires { IsWithinStandard limits.now }
    ensures takes { TakesLine limits.now text.entry reading.old result reading.new }
    ensures within { IfOk result (λ stop. StopsWithin text.entry.at text.entry.text.now stop.at (option_copied stop.rest)) }
{
    let mut rest = text.text;
    let mut at = text.at;
    'words: loop {
        match next_seen(rest, at, text.cut) {
            Item::Word {
                at: begin,
                word,
                rest: after,
            } => {
                take_word(alloc, reading, begin, word, limits)?;
                at = begin + word.len() as u64;
                rest = after;
            }
            Item::LineEnd {
                at: end,
                rest: after,
            } => {
                return Ok(LineStop {
                    at: end,
                    rest: Some(after),
                });
            }
            Item::End { at: end } => {
                return Ok(LineStop {
                    at: end,
                    rest: None,
                });
            }
        }
    }
}

/// What became of a line: it stopped somewhere, or it ended the input at a place.
#[derive(Drop)]
pub(crate) enum LineAnswer<'a> {
    Stop(LineStop<'a>),
    Ended(u64),
}

/// Takes the clauses' words of a line, or passes over a comment, or meets the line that ends the input.
pub(crate) fn take_any_line<'a>(
    alloc: Global,
    reading: &mut Reading,
    text: Ahead<'a>,
    limits: &Limits,
) -> Result<LineAnswer<'a>, CnfRefusal>
    requires { IsWithinStandard limits.now }
    ensures takes { TakesAnyLine limits.now text.entry reading.old result reading.new }
    ensures within { IfOk result (AnswersWithin text.entry) }
{
    let Item::Word { at, word, .. } = next_item(text.text, text.at) else {
        return Ok(LineAnswer::Stop(skip_line(text.text, text.at)));
    };
    if word[0] == b'%' {
        return Ok(LineAnswer::Ended(at));
    }
    if word[0] == b'c' {
        return Ok(LineAnswer::Stop(skip_line(text.text, text.at)));
    }
    let stop = take_line(alloc, reading, text, limits)?;
    Ok(LineAnswer::Stop(stop))
}

/// Takes the lines behind the header. True where a line ended the input.
pub(crate) fn take_body(
    alloc: Global,
    reading: &mut Reading,
    text: Ahead<'_>,
    limits: &Limits,
) -> Result<bool, CnfRefusal>
    requires { IsWithinStandard limits.now }
    ensures { TakesBody limits.now text.entry reading.old result reading.new }
{
    let mut rest = text.text;
    let mut at = text.at;
    'lines: loop {
        let left = Ahead {
            text: rest,
            at,
            cut: text.cut,
        };
        let stop = match take_any_line(alloc, reading, left, limits)? {
            LineAnswer::Stop(stop) => stop,
            LineAnswer::Ended(end) => {
                close(reading, end)?;
                return Ok(true);
            }
        };
        let Some(after) = stop.rest else {
            close(reading, stop.at)?;
            return Ok(false);
        };
        at = stop.at + 1;
        rest = after;
    }
}
