//! What a desk in memory is made from: the bytes before its roles, and the calls that are to fail.

ghost use Rattle.std.specs.Prelude.{◌≡◌};
ghost use Rattle.cp_io.specs.Setup.{names_call};

use crate::Role;
use crate::lists::Items;

/// The bytes of an input.
pub type Bytes = Items<u8>;

/// The bytes that are before one role.
#[derive(Drop)]
pub struct Input {
    /// The role from which they are read.
    pub role: Role,
    /// All its bytes, first to last.
    pub bytes: Bytes,
}

/// The inputs of a desk in memory. A role that isn't named has no bytes.
pub type Inputs = Items<Input>;

/// A call that is to fail.
#[derive(Clone, Copy, Debug, PartialEq, Eq)]
pub struct FailAt {
    /// The role on which the call is made.
    pub role: Role,
    /// Which call on this role, counted from 1 over bind, read and write, also over those that failed.
    pub nth: u64,
}

/// The calls of a desk in memory that are to fail.
pub type FailList = Items<FailAt>;

// Whether the list names the nth call on a role.
pub(crate) fn lists_call(failing: &[FailAt], role: Role, nth: u64) -> bool
    ensures { result ≡ names_call role nth failing.now }
{
    failing.iter().any(|call| call.role.index() == role.index() && call.nth == nth)
}
