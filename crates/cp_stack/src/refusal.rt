//! Why the text of a witness stack isn't read.

ghost use Rattle.std.specs.Prelude.{◌≡◌};
ghost use Rattle.cp_stack.specs.declared.refusal.StackRefusal.TheVariants.{NoMemory};

use cp_io::Limit;
use std::alloc::{AllocError, AllocFailed};
use thiserror::Error;

/// What is wrong with a text. It is printed by its name.
#[derive(Clone, Copy, Debug, PartialEq, Eq, Error)]
pub enum StackKind {
    /// A word of the header doesn't fit, is missing or is one too many.
    #[error("BadHeader")]
    BadHeader,
    /// A word behind the header is no number word.
    #[error("BadWord")]
    BadWord,
    /// The variable of a literal is above the stack's.
    #[error("TooGreat")]
    TooGreat,
    /// A 0 with no literal before it.
    #[error("EmptyPair")]
    EmptyPair,
    /// The text ends within a pair.
    #[error("OpenPair")]
    OpenPair,
    /// There are more pairs than the header says, or fewer.
    #[error("Count")]
    Count,
}

/// Why a text isn't read: its first fault, or want of memory. An offset is the number of bytes before the fault.
#[derive(Clone, Copy, Debug, PartialEq, Eq)]
pub enum StackRefusal {
    /// The text isn't in the format.
    BadStack { offset: u64, kind: StackKind },
    /// The text passes a limit.
    TooLarge { limit: Limit, offset: u64 },
    /// There was no memory.
    NoMemory,
}

impl From<AllocError> for StackRefusal {
    ghost from_gives = { λ _ e. e ≡ NoMemory };

    fn from(_: AllocError) -> StackRefusal {
        StackRefusal::NoMemory
    }
}

impl<T: Drop> From<AllocFailed<T>> for StackRefusal {
    ghost from_gives = { λ _ e. e ≡ NoMemory };

    fn from(_: AllocFailed<T>) -> StackRefusal {
        StackRefusal::NoMemory
    }
}
