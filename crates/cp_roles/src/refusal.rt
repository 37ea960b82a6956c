//! Why a run ended before its work was done.

ghost use Rattle.std.specs.Prelude.{◌≡◌, ◌≢◌};
ghost use Rattle.cp_roles.specs.Refused.{WordsRefused};

use cp_dimacs::InputKind;
use cp_extend::ModelKind;
use cp_io::{Limit, Role};
use cp_logic::Journal;
use cp_stack::StackKind;
use cp_words::{UsageKind, WordsRefusal};
use std::io::ErrorKind;

/// Why a run ended before its work was done. After each of them but `WriteFault` nothing was written.
#[derive(Drop)]
pub enum Refusal {
    /// The words are refused. No role is bound.
    Usage {
        kind: UsageKind,
    },
    /// The role could not be bound. The roles before it are.
    OpenFault {
        role: Role,
    },
    /// A read of the role failed.
    ReadFault {
        role: Role,
    },
    /// A count of the role's text passes its limit, which is seen at the offset, in bytes.
    TooLarge {
        role: Role,
        limit: Limit,
        offset: u64,
    },
    /// The first fault of the formula, and its offset in bytes.
    BadInput {
        offset: u64,
        kind: InputKind,
    },
    /// The first fault of the stack, and its offset in bytes.
    BadStack {
        offset: u64,
        kind: StackKind,
    },
    /// The first fault of the model, and its offset in bytes.
    BadModel {
        offset: u64,
        kind: ModelKind,
    },
    /// The text of the model says that there is none, or that none is known.
    NoModel,
    /// A write of the role failed. The journal is the run's, empty on `extend`, and the role holds a front of its text.
    WriteFault {
        role: Role,
        journal: Journal,
    },
    /// There was not enough memory.
    NoMemory,
}

impl Refusal {
    ghost use Rattle.cp_roles.specs.declared.refusal.Refusal.TheVariants.{Usage, NoMemory};

    /// The refusal of words that give no options.
    pub fn of_options(refusal: WordsRefusal) -> Refusal
        ensures { WordsRefused refusal result }
    {
        match refusal {
            WordsRefusal::Usage { kind } => Refusal::Usage { kind },
            WordsRefusal::NoMemory => Refusal::NoMemory,
        }
    }

    /// The refusal of words that can't be read from the system, by the kind of that error: words that are no text are no options.
    pub fn of_words(kind: ErrorKind) -> Refusal
        ensures memory { kind ≡ ErrorKind.OutOfMemory → result ≡ NoMemory }
        ensures words { kind ≢ ErrorKind.OutOfMemory → result ≡ Usage UsageKind.Words }
    {
        match kind {
            ErrorKind::OutOfMemory => Refusal::NoMemory,
            _ => Refusal::Usage {
                kind: UsageKind::Words,
            },
        }
    }
}
