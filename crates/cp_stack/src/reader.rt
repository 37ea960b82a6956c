//! A reader of a stack's text that takes its bytes in pieces.

ghost use Rattle.std.specs.Prelude.{◌≡◌, [], true, false, Err};
ghost use Rattle.cp_io.specs.Limits.{IsWithinStandard};
ghost use Rattle.cp_stack.specs.declared.refusal.StackRefusal.TheVariants.{NoMemory};
ghost use Rattle.cp_io.specs.Feeding.{Feeds, KeepsFed};
ghost use Rattle.cp_stack.specs.Reader.{Finishes};

use crate::parsing::parse_stack;
use crate::refusal::StackRefusal;
use cp_io::{Feed, Limits};
use cp_logic::Stack;
use cp_text::Collected;
use std::alloc::Global;
use std::marker::Model;

/// Reads a text in pieces: what it answers doesn't depend on how the bytes were cut.
///
/// The bytes are collected, one past the limit at most, and read at the end.
#[derive(Drop)]
pub struct StackReader {
    alloc: Global,
    limits: Limits,
    collected: Collected,
    // Whether memory was wanting.
    refused: bool,
}

impl Model for StackReader {
    ghost use Rattle.std.specs.Prelude.{◌≡◌};
    ghost use Rattle.cp_io.specs.Limits.{IsWithinStandard};
    ghost use Rattle.cp_io.specs.Feeding.{ReaderState};

    ghost Value = { ReaderState };

    ghost view = { λ r. record { limits = r.limits; bytes = r.collected.bytes; refused = r.refused } };

    ghost invariant = { λ r. IsWithinStandard r.limits × (r.collected.limit ≡ r.limits.bytes) };
}

impl StackReader {
    /// A reader that was fed nothing. It takes no memory.
    pub fn new(alloc: Global, limits: Limits) -> StackReader
        requires { IsWithinStandard limits }
        ensures { result ≡ record { limits = limits; bytes = []; refused = false } }
    {
        StackReader {
            alloc,
            limits,
            collected: Collected::new(alloc, limits.bytes),
            refused: false,
        }
    }

    /// Takes the next bytes of the text, and asks for more. `NoMemory` is its only refusal, and each call behind it answers it again.
    pub fn feed(&mut self, bytes: &[u8]) -> Result<Feed, StackRefusal>
        ensures feeds { Feeds NoMemory self.old bytes.now result self.new }
        ensures fed { KeepsFed self.old bytes.now result self.new }
    {
        if self.refused {
            return Err(StackRefusal::NoMemory);
        }
        if self.collected.take(bytes).is_err() {
            self.refused = true;
            return Err(StackRefusal::NoMemory);
        }
        Ok(Feed::More)
    }

    /// The stack that all bytes fed read as, or their first fault, as `parse_stack` says.
    pub fn finish(self) -> Result<Stack, StackRefusal>
        ensures fed { Finishes self result }
        ensures refused { self.refused ≡ true → result ≡ Err NoMemory }
    {
        if self.refused {
            return Err(StackRefusal::NoMemory);
        }
        parse_stack(self.alloc, self.collected.bytes(), &self.limits)
    }
}
