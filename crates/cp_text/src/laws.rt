//! The laws of what is seen of an input. Each function does nothing, and its contract is the law.

ghost use Rattle.cp_text.specs.Cut.{SeesWithin, SeesAll};
ghost use Rattle.cp_text.specs.Collected.{KeepsPieces};

/// What is seen of an input depends on no byte behind the first past the limit.
pub fn sees_within()
    ensures { SeesWithin }
{}

/// All lines of an input that isn't longer than the limit are seen.
pub fn sees_all()
    ensures { SeesAll }
{}

/// Bytes that are fed in pieces are kept as if they came at once.
pub fn keeps_pieces()
    ensures { KeepsPieces }
{}
