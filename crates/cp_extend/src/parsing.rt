//! Reading the lines of a model's text. Each step is a law over what is left: what the rest reads as behind what was read is what
//! it reads as behind what is read now.

ghost use Rattle.std.specs.Prelude.{◌≡◌, ℕ, IfOk, option_copied};
ghost use Rattle.cp_io.specs.declared.limits.Limits.{Limits};
ghost use Rattle.cp_text.specs.Ahead.{lines_of};
ghost use Rattle.cp_extend.specs.Grammar.{document};
ghost use Rattle.cp_extend.specs.Held.{reading_of};
ghost use Rattle.cp_text.specs.Stops.{StopsWithin};
ghost use Rattle.cp_extend.specs.Steps.{TakesWord, GoesOn, AnswersWithin, ReadsLines, SaysModel, EndsStatus, in_values, in_status};

use crate::progress::Progress;
use crate::refusal::{ModelKind, ModelRefusal, Stop};
use cp_io::{Limit, Limits};
use cp_text::{Ahead, Item, LineStop, next_seen, parse_number, skip_line};

// Takes a word of a value line. True where it is the 0.
fn take_word(progress: &mut Progress, at: u64, word: &[u8], limits: &Limits) -> Result<bool, Stop>
    ensures { TakesWord limits.now (reading_of progress.old) (record { at = at; bytes = word.now }) result (reading_of progress.new) }
{
    let most = u64::from(limits.variables);
    let Some(number) = parse_number(word) else {
        return Err(Stop::bad(at, ModelKind::BadWord));
    };
    let Some(size) = number.size else {
        return Err(too_great(at));
    };
    if size == 0 {
        return Ok(true);
    }
    if size > most {
        return Err(too_great(at));
    }
    if progress.give(size as u32, number.positive)? {
        Ok(false)
    } else {
        Err(Stop::bad(at, ModelKind::Contradiction))
    }
}

// A variable passes the limit.
fn too_great(at: u64) -> Stop
    ensures { result ≡ record { at = at; refusal = ModelRefusal.TooLarge Limit.Variables at } }
{
    Stop {
        at,
        refusal: ModelRefusal::TooLarge {
            limit: Limit::Variables,
            offset: at,
        },
    }
}

// Takes the words of a value line, up to the 0.
fn take_values<'a>(
    progress: &mut Progress,
    text: Ahead<'a>,
    limits: &Limits,
) -> Result<Option<LineStop<'a>>, Stop>
    ensures takes { GoesOn limits.now text.entry.cut (in_values limits.now (reading_of progress.old) (lines_of text.entry)) result (reading_of progress.new) }
    ensures within { IfOk result (AnswersWithin text.entry) }
{
    let mut rest = text.text;
    let mut from = text.at;
    'words: loop {
        let (at, word, after) = match next_seen(rest, from, text.cut) {
            Item::Word { at, word, rest } => (at, word, rest),
            Item::LineEnd { at, rest } => {
                return Ok(Some(LineStop {
                    at,
                    rest: Some(rest),
                }));
            }
            Item::End { at } => return Ok(Some(LineStop { at, rest: None })),
        };
        if take_word(progress, at, word, limits)? {
            return Ok(None);
        }
        from = at + word.len() as u64;
        rest = after;
    }
}

// Whether the word of a status line says that there is a model.
fn says_model(at: u64, word: &[u8]) -> Result<bool, Stop>
    ensures { SaysModel (record { at = at; bytes = word.now }) result }
{
    if word == b"SATISFIABLE".as_slice() {
        Ok(true)
    } else if word == b"UNSATISFIABLE".as_slice() || word == b"UNKNOWN".as_slice() {
        Ok(false)
    } else {
        Err(Stop::bad(at, ModelKind::BadStatus))
    }
}

// The end of a status line, of which no word is left.
fn end_status(text: Ahead<'_>) -> Result<LineStop<'_>, Stop>
    ensures ends { EndsStatus text.entry.cut (lines_of text.entry) result }
    ensures within { IfOk result (λ stop. StopsWithin text.entry.at text.entry.text.now stop.at (option_copied stop.rest)) }
{
    match next_seen(text.text, text.at, text.cut) {
        Item::Word { at, .. } => Err(Stop::bad(at, ModelKind::BadStatus)),
        Item::LineEnd { at, rest } => Ok(LineStop {
            at,
            rest: Some(rest),
        }),
        Item::End { at } => Ok(LineStop { at, rest: None }),
    }
}

// Takes the words of a status line behind its `s`.
fn take_status<'a>(progress: &mut Progress, text: Ahead<'a>) -> Result<Option<LineStop<'a>>, Stop>
    ensures takes { (limits : Limits) → GoesOn limits text.entry.cut (in_status limits (reading_of progress.old) (lines_of text.entry)) result (reading_of progress.new) }
    ensures within { IfOk result (AnswersWithin text.entry) }
{
    let (at, word, rest) = match next_seen(text.text, text.at, text.cut) {
        Item::Word { at, word, rest } => (at, word, rest),
        Item::LineEnd { at, .. } => return Err(Stop::bad(at, ModelKind::BadStatus)),
        Item::End { at } => return Err(Stop::bad(at, ModelKind::BadStatus)),
    };
    let has_model = says_model(at, word)?;
    let behind = Ahead {
        text: rest,
        at: at + word.len() as u64,
        cut: text.cut,
    };
    let stop = end_status(behind)?;
    if !has_model {
        return Err(Stop {
            at: stop.at,
            refusal: ModelRefusal::NoModel,
        });
    }
    progress.note_status();
    Ok(Some(stop))
}

// Takes a line, by its first word.
fn take_line<'a>(
    progress: &mut Progress,
    text: Ahead<'a>,
    limits: &Limits,
) -> Result<Option<LineStop<'a>>, Stop>
    ensures takes { (end : ℕ) → GoesOn limits.now text.entry.cut (document limits.now (reading_of progress.old) end (lines_of text.entry)) result (reading_of progress.new) }
    ensures within { IfOk result (AnswersWithin text.entry) }
{
    let (at, word, rest) = match next_seen(text.text, text.at, text.cut) {
        Item::Word { at, word, rest } => (at, word, rest),
        Item::LineEnd { at, rest } => {
            return Ok(Some(LineStop {
                at,
                rest: Some(rest),
            }));
        }
        Item::End { at } => return Ok(Some(LineStop { at, rest: None })),
    };
    let behind = Ahead {
        text: rest,
        at: at + word.len() as u64,
        cut: text.cut,
    };
    if word[0] == b'c' {
        return Ok(Some(skip_line(behind.text, behind.at)));
    }
    if word == b"v".as_slice() {
        return take_values(progress, behind, limits);
    }
    if word == b"s".as_slice() {
        if progress.has_status() {
            return Err(Stop::bad(at, ModelKind::BadStatus));
        }
        return take_status(progress, behind);
    }
    Err(Stop::bad(at, ModelKind::BadWord))
}

// Takes the lines that are ahead, up to the 0.
pub(crate) fn take_lines(
    progress: &mut Progress,
    text: Ahead<'_>,
    limits: &Limits,
) -> Result<(), Stop>
    ensures { ReadsLines (document limits.now (reading_of progress.old) 0 (lines_of text.entry)) result (reading_of progress.new) }
{
    let mut rest = text.text;
    let mut at = text.at;
    'lines: loop {
        let left = Ahead {
            text: rest,
            at,
            cut: text.cut,
        };
        let Some(stop) = take_line(progress, left, limits)? else {
            return Ok(());
        };
        let Some(after) = stop.rest else {
            return Err(Stop::bad(stop.at, ModelKind::NoEnd));
        };
        at = stop.at + 1;
        rest = after;
    }
}
