//! Why a text isn't read as a model.

ghost use Rattle.std.specs.Prelude.{◌≡◌};
ghost use Rattle.cp_extend.specs.declared.refusal.ModelRefusal.TheVariants.{NoMemory};
ghost use Rattle.cp_extend.specs.Grammar.{fault};

use cp_io::Limit;
use std::alloc::{AllocError, AllocFailed};
use thiserror::Error;

/// What is wrong with the text of a model.
#[derive(Clone, Copy, Debug, PartialEq, Eq, Error)]
pub enum ModelKind {
    /// A word that no line of its kind takes.
    #[error("BadWord")]
    BadWord,
    /// A status line with a wrong word, a word too many or too few, or a second status line.
    #[error("BadStatus")]
    BadStatus,
    /// A literal of which the negation was given.
    #[error("Contradiction")]
    Contradiction,
    /// The text ends before the 0.
    #[error("NoEnd")]
    NoEnd,
}

/// Why a text isn't read as a model. An offset is the number of bytes before the place.
#[derive(Clone, Copy, Debug, PartialEq, Eq)]
pub enum ModelRefusal {
    /// The text breaks the grammar at a word, at the end of a line or at the end of the text.
    BadModel { offset: u64, kind: ModelKind },
    /// The status line says that there is no model, or that none is known.
    NoModel,
    /// A variable, or the text, passes its limit.
    TooLarge { limit: Limit, offset: u64 },
    /// Want of memory.
    NoMemory,
}

impl From<AllocError> for ModelRefusal {
    ghost from_gives = { λ _ e. e ≡ NoMemory };

    fn from(_: AllocError) -> ModelRefusal {
        ModelRefusal::NoMemory
    }
}

// A refusal, and where it stands: a fault at its offset, and that there is no model where its line ends.
#[derive(Clone, Copy, Debug, PartialEq, Eq)]
pub(crate) struct Stop {
    pub(crate) at: u64,
    pub(crate) refusal: ModelRefusal,
}

impl Stop {
    // A fault of the grammar.
    pub(crate) fn bad(at: u64, kind: ModelKind) -> Stop
        ensures { result ≡ fault at kind }
    {
        Stop {
            at,
            refusal: ModelRefusal::BadModel { offset: at, kind },
        }
    }
}

impl From<AllocError> for Stop {
    ghost from_gives = { λ _ e. e.refusal ≡ NoMemory };

    fn from(_: AllocError) -> Stop {
        Stop {
            at: 0,
            refusal: ModelRefusal::NoMemory,
        }
    }
}
