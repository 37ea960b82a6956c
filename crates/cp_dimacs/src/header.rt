//! Reading the header line, `p cnf V C`.

ghost use Rattle.std.specs.Prelude.{◌≡◌, ◌≤◌};
ghost use Rattle.cp_io.specs.Limits.{IsWithinStandard};
ghost use Rattle.cp_dimacs.specs.Grammar.{no_more, header, header_format, header_variables, header_count};
ghost use Rattle.cp_dimacs.specs.declared.refusal.InputKind.TheVariants.{BadHeader};
ghost use Rattle.cp_dimacs.specs.declared.refusal.CnfRefusal.TheVariants.{BadInput};
ghost use Rattle.cp_dimacs.specs.Headers.{word_of, IsHeaderWord, IsCount, AnswersHeader};

use crate::header_line::Header;
use crate::refusal::{CnfRefusal, InputKind};
use cp_io::{Limit, Limits};
use cp_text::{Ahead, Item, LineStop, next_seen, parse_number};

/// A word of a line, and what is behind it.
#[derive(Clone, Copy)]
struct WordAhead<'a> {
    at: u64,
    word: &'a [u8],
    behind: Ahead<'a>,
}

/// Reads the header line that stands in front of a text.
pub(crate) fn read_header<'a>(text: Ahead<'a>, limits: &Limits) -> Result<Header<'a>, CnfRefusal>
    requires { IsWithinStandard limits.now }
    ensures { AnswersHeader (header limits.now) text.entry result }
{
    let name = header_word(text)?;
    if name.word != b"p".as_slice() {
        return Err(CnfRefusal::BadInput {
            offset: name.at,
            kind: InputKind::NoHeader,
        });
    }
    read_format(name.behind, limits)
}

fn read_format<'a>(text: Ahead<'a>, limits: &Limits) -> Result<Header<'a>, CnfRefusal>
    requires { IsWithinStandard limits.now }
    ensures { AnswersHeader (header_format limits.now) text.entry result }
{
    let format = header_word(text)?;
    if format.word != b"cnf".as_slice() {
        return Err(bad_header(format.at));
    }
    read_variables(format.behind, limits)
}

fn read_variables<'a>(text: Ahead<'a>, limits: &Limits) -> Result<Header<'a>, CnfRefusal>
    requires { IsWithinStandard limits.now }
    ensures { AnswersHeader (header_variables limits.now) text.entry result }
{
    let count = header_word(text)?;
    let variables = read_count(&count)?;
    if variables > u64::from(limits.variables) {
        return Err(CnfRefusal::TooLarge {
            limit: Limit::Variables,
            offset: count.at,
        });
    }
    read_clauses(count.behind, variables as u32)
}

fn read_clauses(text: Ahead<'_>, variables: u32) -> Result<Header<'_>, CnfRefusal>
    requires { variables ≤ 2000000 }
    ensures { AnswersHeader (header_count variables) text.entry result }
{
    let count = header_word(text)?;
    let _ = read_count(&count)?;
    read_end(count.behind, variables)
}

fn read_end(text: Ahead<'_>, variables: u32) -> Result<Header<'_>, CnfRefusal>
    requires { variables ≤ 2000000 }
    ensures { AnswersHeader (λ words end. no_more variables words) text.entry result }
{
    let stop = match next_seen(text.text, text.at, text.cut) {
        Item::Word { at, .. } => return Err(bad_header(at)),
        Item::LineEnd { at, rest } => LineStop {
            at,
            rest: Some(rest),
        },
        Item::End { at } => LineStop { at, rest: None },
    };
    Ok(Header { variables, stop })
}

// The next word of the header line.
fn header_word(text: Ahead<'_>) -> Result<WordAhead<'_>, CnfRefusal>
    ensures { IsHeaderWord text.entry result }
{
    match next_seen(text.text, text.at, text.cut) {
        Item::Word { at, word, rest } => Ok(WordAhead {
            at,
            word,
            behind: Ahead {
                text: rest,
                at: at + word.len() as u64,
                cut: text.cut,
            },
        }),
        Item::LineEnd { at, .. } => Err(bad_header(at)),
        Item::End { at } => Err(bad_header(at)),
    }
}

// The number that a word of the header says, or the largest where it is larger than the type.
fn read_count(word: &WordAhead) -> Result<u64, CnfRefusal>
    ensures { IsCount (word_of word.now) result }
{
    let Some(number) = parse_number(word.word) else {
        return Err(bad_header(word.at));
    };
    if !number.positive {
        return Err(bad_header(word.at));
    }
    Ok(number.size.unwrap_or(u64::MAX))
}

fn bad_header(offset: u64) -> CnfRefusal
    ensures { result ≡ BadInput offset BadHeader }
{
    CnfRefusal::BadInput {
        offset,
        kind: InputKind::BadHeader,
    }
}
