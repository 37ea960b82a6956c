//! A reader of an input that comes in pieces.
//!
//! It collects the pieces, and reads them whole at the end. Behind the first byte past the limit nothing is kept.

ghost use Rattle.std.specs.Prelude.{◌≡◌, [], true, false, Err, IfOk};
ghost use Rattle.cp_dimacs.specs.declared.refusal.CnfRefusal.TheVariants.{NoMemory};
ghost use Rattle.cp_io.specs.Limits.{IsWithinStandard};
ghost use Rattle.cp_dimacs.specs.Reads.{AnswersCnf, IsRead};
ghost use Rattle.cp_io.specs.Feeding.{ReaderState, Feeds, KeepsFed};
ghost use Rattle.cp_dimacs.specs.Reader.{Finishes};

use crate::parse::parse_cnf;
use crate::refusal::CnfRefusal;
use cp_io::{Feed, Limits};
use cp_logic::Formula;
use cp_text::Collected;
use std::alloc::Global;
use std::marker::Model;

/// Reads a formula in DIMACS CNF that comes in pieces, however it is cut.
///
/// Once it has refused for want of memory, every call answers that refusal.
#[derive(Drop)]
pub struct CnfReader {
    alloc: Global,
    limits: Limits,
    collected: Collected,
    // Whether memory was wanting.
    refused: bool,
}

impl Model for CnfReader {
    ghost Value = { ReaderState };

    ghost view = { λ r. record { limits = r.limits; bytes = r.collected.bytes; refused = r.refused } };

    ghost invariant = { λ r. IsWithinStandard r.limits × (r.collected.limit ≡ r.limits.bytes) };
}

impl CnfReader {
    /// A reader that was fed nothing. It takes no memory.
    pub fn new(alloc: Global, limits: Limits) -> CnfReader
        requires { IsWithinStandard limits }
        ensures { result ≡ record { limits = limits; bytes = []; refused = false } }
    {
        CnfReader {
            alloc,
            limits,
            collected: Collected::new(alloc, limits.bytes),
            refused: false,
        }
    }

    /// Takes the next bytes of the input, and asks for more. `NoMemory` is its only refusal.
    pub fn feed(&mut self, bytes: &[u8]) -> Result<Feed, CnfRefusal>
        ensures feeds { Feeds NoMemory self.old bytes.now result self.new }
        ensures fed { KeepsFed self.old bytes.now result self.new }
    {
        if self.refused {
            return Err(CnfRefusal::NoMemory);
        }
        if self.collected.take(bytes).is_err() {
            self.refused = true;
            return Err(CnfRefusal::NoMemory);
        }
        Ok(Feed::More)
    }

    /// The formula that all bytes fed read as, or their first fault, as `parse_cnf` says.
    pub fn finish(self) -> Result<Formula, CnfRefusal>
        ensures answer { AnswersCnf self.limits self.bytes result }
        ensures fed { Finishes self result }
        ensures refused { self.refused ≡ true → result ≡ Err NoMemory }
        ensures valid { IfOk result (λ f. IsRead self.limits f.formula) }
    {
        if self.refused {
            return Err(CnfRefusal::NoMemory);
        }
        parse_cnf(self.alloc, self.collected.bytes(), &self.limits)
    }
}
