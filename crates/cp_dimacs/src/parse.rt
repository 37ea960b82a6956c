//! Reading an input whole.

ghost use Rattle.std.specs.Prelude.{◌≡◌, IfOk};
ghost use Rattle.cp_io.specs.Limits.{IsWithinStandard};
ghost use Rattle.cp_logic.specs.Formulas.{IsFormula};
ghost use Rattle.cp_io.specs.declared.limits.Limit.TheVariants.{Bytes};
ghost use Rattle.cp_dimacs.specs.declared.refusal.InputKind.TheVariants.{NoHeader};
ghost use Rattle.cp_dimacs.specs.declared.refusal.CnfRefusal.TheVariants.{BadInput, TooLarge};
ghost use Rattle.cp_dimacs.specs.Grammar.{stands_before};
ghost use Rattle.cp_dimacs.specs.Document.{document_ahead, AnswersFind, AnswersDocument, AnswersJudge};
ghost use Rattle.cp_dimacs.specs.Reads.{AnswersCnf, IsRead};

use crate::body::take_body;
use crate::clauses::Reading;
use crate::header::read_header;
use crate::header_line::Header;
use crate::refusal::{CnfRefusal, InputKind};
use cp_io::{Limit, Limits};
use cp_logic::Formula;
use cp_text::{Ahead, Item, LineStop, next_seen, skip_line, within};
use std::alloc::Global;

/// A formula, and whether a line ended the input.
#[derive(Drop)]
pub(crate) struct Found {
    pub formula: Formula,
    pub ended: bool,
}

/// The formula that an input reads as, or its first fault.
///
/// The clauses are numbered from 1 in the order of the input. The formula has as many variables as the header names, or as its
/// greatest variable says. `BadInput` is a word that doesn't fit or is missing, `TooLarge` one that passes a limit, or an input
/// that goes on behind the limit of bytes where nothing before it is wrong. `NoMemory` may come at any input.
pub fn parse_cnf(alloc: Global, bytes: &[u8], limits: &Limits) -> Result<Formula, CnfRefusal>
    requires { IsWithinStandard limits.now }
    ensures answer { AnswersCnf limits.now bytes.now result }
    ensures valid { IfOk result (λ f. IsRead limits.now f.formula) }
{
    let seen = within(bytes, limits.bytes);
    let found = read_document(alloc, seen.ahead, limits);
    judge(found, seen.past, limits.bytes)
}

// The formula of the lines that are ahead.
fn read_document(alloc: Global, text: Ahead<'_>, limits: &Limits) -> Result<Found, CnfRefusal>
    requires { IsWithinStandard limits.now }
    ensures { AnswersDocument (document_ahead limits.now text.entry) result }
{
    let header = find_header(text, limits)?;
    let mut reading = Reading {
        formula: Formula::new(alloc, header.variables, 1),
        open_clause: Vec::new(alloc),
        literals: 0,
    };
    let Some(rest) = header.stop.rest else {
        return Ok(Found {
            formula: reading.formula,
            ended: false,
        });
    };
    let behind = Ahead {
        text: rest,
        at: header.stop.at + 1,
        cut: text.cut,
    };
    let ended = take_body(alloc, &mut reading, behind, limits)?;
    Ok(Found {
        formula: reading.formula,
        ended,
    })
}

// The header line, behind comments and lines without words.
fn find_header<'a>(text: Ahead<'a>, limits: &Limits) -> Result<Header<'a>, CnfRefusal>
    requires { IsWithinStandard limits.now }
    ensures { AnswersFind limits.now text.entry result }
{
    let mut rest = text.text;
    let mut at = text.at;
    'lines: loop {
        let left = Ahead {
            text: rest,
            at,
            cut: text.cut,
        };
        let stop = match next_seen(rest, at, text.cut) {
            Item::Word { word, .. } if word[0] != b'c' => return read_header(left, limits),
            Item::Word { .. } => skip_line(rest, at),
            Item::LineEnd { at, rest } => LineStop {
                at,
                rest: Some(rest),
            },
            Item::End { at } => LineStop { at, rest: None },
        };
        let Some(after) = stop.rest else {
            return Err(no_header(stop.at));
        };
        at = stop.at + 1;
        rest = after;
    }
}

fn no_header(offset: u64) -> CnfRefusal
    ensures { result ≡ BadInput offset NoHeader }
{
    CnfRefusal::BadInput {
        offset,
        kind: InputKind::NoHeader,
    }
}

// What an input reads as that may be longer than the limit.
fn judge(found: Result<Found, CnfRefusal>, past: bool, limit: u64) -> Result<Formula, CnfRefusal>
    ensures answer { AnswersJudge found past limit result }
    ensures valid { IfOk result (λ f. IsFormula f.formula) }
{
    match found {
        Ok(found) => {
            if past && !found.ended {
                return Err(too_long(limit));
            }
            // It says that what it holds is a formula.
            let _ = found.formula.vars();
            Ok(found.formula)
        }
        Err(refusal) => {
            if past && !comes_before(&refusal, limit) {
                return Err(too_long(limit));
            }
            Err(refusal)
        }
    }
}

fn comes_before(refusal: &CnfRefusal, limit: u64) -> bool
    ensures { result ≡ stands_before limit refusal.now }
{
    match refusal {
        CnfRefusal::BadInput { offset, .. } => *offset < limit,
        CnfRefusal::TooLarge { offset, .. } => *offset < limit,
        CnfRefusal::NoMemory => true,
    }
}

fn too_long(limit: u64) -> CnfRefusal
    ensures { result ≡ TooLarge Bytes limit }
{
    CnfRefusal::TooLarge {
        limit: Limit::Bytes,
        offset: limit,
    }
}
