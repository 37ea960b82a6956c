//! Why an input isn't read.

ghost use Rattle.std.specs.Prelude.{◌≡◌};
ghost use Rattle.cp_dimacs.specs.declared.refusal.CnfRefusal.TheVariants.{NoMemory};

use cp_io::Limit;
use std::alloc::{AllocError, AllocFailed};
use thiserror::Error;

/// What is wrong with an input. It is printed by its name.
#[derive(Clone, Copy, Debug, PartialEq, Eq, Error)]
pub enum InputKind {
    /// The first line with words, other than a comment, doesn't begin with `p`, or there is none.
    #[error("NoHeader")]
    NoHeader,
    /// A word of the header doesn't fit, is missing or is one too many.
    #[error("BadHeader")]
    BadHeader,
    /// A word behind the header is no number word.
    #[error("BadWord")]
    BadWord,
    /// The input ends within a clause.
    #[error("OpenClause")]
    OpenClause,
}

/// Why an input isn't read: its first fault, or want of memory. An offset is the number of bytes before the fault.
#[derive(Clone, Copy, Debug, PartialEq, Eq)]
pub enum CnfRefusal {
    /// The input isn't in the format.
    BadInput { offset: u64, kind: InputKind },
    /// The input passes a limit.
    TooLarge { limit: Limit, offset: u64 },
    /// There was no memory.
    NoMemory,
}

impl<T: Drop> From<AllocFailed<T>> for CnfRefusal {
    ghost from_gives = { λ _ e. e ≡ NoMemory };

    fn from(_: AllocFailed<T>) -> CnfRefusal {
        CnfRefusal::NoMemory
    }
}

impl From<AllocError> for CnfRefusal {
    ghost from_gives = { λ _ e. e ≡ NoMemory };

    fn from(_: AllocError) -> CnfRefusal {
        CnfRefusal::NoMemory
    }
}
