//! Reading the text of a model: the lines that the SAT competitions ask of a solver.
//!
//! The bytes are collected, and looked at when all were fed. They are then gone through once. A variable is known by its place in
//! a table of what was given, which grows to the greatest variable that is named, so that a contradiction is seen at its word.
//!
//! CaDiCaL reads such a text as a solution to be checked (`parse.cpp`). There the status line comes first, and a variable that is
//! named twice is a fault; here the status line may come anywhere or be missing, and only both literals of one variable are a fault.

ghost use Rattle.std.specs.Prelude.{◌≡◌, ◌≢◌, ◌≤◌, [], false, true, length, IfOk};
ghost use Rattle.cp_extend.specs.declared.refusal.ModelRefusal.TheVariants.{NoMemory};
ghost use Rattle.cp_extend.specs.Grammar.{told};
ghost use Rattle.cp_io.specs.Feeding.{Feeds, KeepsFed};
ghost use Rattle.cp_extend.specs.Reads.{AnswersModel, AnswersInto, Finishes};

use crate::parsing::take_lines;
use crate::progress::Progress;
use crate::refusal::{ModelRefusal, Stop};
use cp_io::{Feed, Limit, Limits};
use cp_logic::Assignment;
use cp_text::{Collected, within};
use std::alloc::{AllocError, Global};
use std::marker::Model;

/// The model of the variables 1 to `vars` that a text says, or why it says none. A variable that isn't named is false.
///
/// The refusal is that of the first place at which the text is no model, and `NoMemory` only for want of memory.
pub fn parse_model(
    alloc: Global,
    vars: u32,
    bytes: &[u8],
    limits: &Limits,
) -> Result<Assignment, ModelRefusal>
    requires { vars ≤ 2000000 }
    ensures answers { AnswersModel limits.now vars bytes.now result }
    ensures len { IfOk result (λ values. length values ≡ vars) }
{
    let mut model = Assignment::new(alloc, vars)?;
    read_into(alloc, &mut model, bytes, limits)?;
    Ok(model)
}

// Gives the variables of the model the values that a text says.
fn read_into(
    alloc: Global,
    model: &mut Assignment,
    bytes: &[u8],
    limits: &Limits,
) -> Result<(), ModelRefusal>
    requires { length model.old ≤ 2000000 }
    ensures { AnswersInto limits.now bytes.now model.old result model.new }
{
    let seen = within(bytes, limits.bytes);
    let mut progress = Progress::new(alloc);
    if let Err(stop) = take_lines(&mut progress, seen.ahead, limits) {
        return Err(refusal_of(stop, seen.past, limits.bytes));
    }
    progress.fill(model);
    Ok(())
}

// What is told of a stop, where the text may be longer than the limit.
fn refusal_of(stop: Stop, past: bool, limit: u64) -> ModelRefusal
    ensures memory { stop.refusal ≡ NoMemory → result ≡ NoMemory }
    ensures told { stop.refusal ≢ NoMemory → result ≡ told past limit stop }
{
    if past && stop.at >= limit && stop.refusal != ModelRefusal::NoMemory {
        ModelRefusal::TooLarge {
            limit: Limit::Bytes,
            offset: limit,
        }
    } else {
        stop.refusal
    }
}

/// A reader of the text of a model, which is fed in pieces of any lengths. What it answers doesn't depend on the pieces.
#[derive(Drop)]
pub struct ModelReader {
    alloc: Global,
    limits: Limits,
    model: Assignment,
    collected: Collected,
    // Whether memory was wanting.
    refused: bool,
}

impl Model for ModelReader {
    ghost use Rattle.std.specs.Prelude.{length, ◌≡◌, ◌≤◌};
    ghost use Rattle.cp_extend.specs.Reads.{ModelReaderState};

    ghost Value = { ModelReaderState };

    ghost view = { λ r. record { variables = length r.model; fed = record { limits = r.limits; bytes = r.collected.bytes; refused = r.refused } } };

    ghost invariant = { λ r. (r.collected.limit ≡ r.limits.bytes) × (length r.model ≤ 2000000) };
}

impl ModelReader {
    /// A reader of a model of the variables 1 to `vars`. It is refused only for want of memory.
    pub fn new(alloc: Global, vars: u32, limits: Limits) -> Result<ModelReader, AllocError>
        requires { vars ≤ 2000000 }
        ensures { IfOk result (λ reader. reader ≡ record { variables = vars; fed = record { limits = limits; bytes = []; refused = false } }) }
    {
        Ok(ModelReader {
            alloc,
            limits,
            model: Assignment::new(alloc, vars)?,
            collected: Collected::new(alloc, limits.bytes),
            refused: false,
        })
    }

    /// Takes the next bytes of the text, and asks for more. `NoMemory` is its only refusal, and each call behind it answers it again.
    pub fn feed(&mut self, bytes: &[u8]) -> Result<Feed, ModelRefusal>
        ensures feeds { Feeds NoMemory self.old.fed bytes.now result self.new.fed }
        ensures fed { KeepsFed self.old.fed bytes.now result self.new.fed }
        ensures variables { self.new.variables ≡ self.old.variables }
    {
        if self.refused {
            return Err(ModelRefusal::NoMemory);
        }
        if self.collected.take(bytes).is_err() {
            self.refused = true;
            return Err(ModelRefusal::NoMemory);
        }
        Ok(Feed::More)
    }

    /// The model that all bytes fed read as, or their first fault, as `parse_model` says.
    pub fn finish(self) -> Result<Assignment, ModelRefusal>
        ensures refused { self.fed.refused ≡ true → result ≡ Err NoMemory }
        ensures answer { AnswersModel self.fed.limits self.variables self.fed.bytes result }
        ensures fed { Finishes self result }
    {
        if self.refused {
            return Err(ModelRefusal::NoMemory);
        }
        let mut model = self.model;
        read_into(self.alloc, &mut model, self.collected.bytes(), &self.limits)?;
        Ok(model)
    }
}
