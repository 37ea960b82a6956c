//! How a visit of a candidate ends.

use crate::lists::Positions;
use cp_logic::Stop;

/// How a visit of a candidate ended. `commits` are the positions of its posts in the journal, counted from 0.
#[derive(Drop)]
pub enum AtAnswer {
    /// Nothing applies at the candidate any more.
    Settled { commits: Positions },
    /// The last try of its neighbourhood met the lock of `var`, held by seat `by`.
    Busy { var: u32, by: u32 },
    /// Its neighbourhood has `count` variables, more than the limit.
    Wide { count: u32 },
    /// The last try of the turn for its last entry found it held by seat `by`.
    TurnHeld { by: u32, commits: Positions },
    /// The run has stopped.
    Stopped { stop: Stop, commits: Positions },
}
