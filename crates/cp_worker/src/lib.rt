//! Workers: visits of single candidates, and shifts over all that a worker draws.
//!
//! `try_at` tries the neighbourhood of one variable, at most three times, and under its locks posts entry after entry until the
//! search at the variable gives nothing. `shift` draws candidates until none is left, visits each, and accounts for them. No call waits: a
//! lock or a turn that stays held is given up and told.
//!
//! A layer above may rely on the contracts of `try_at` and `shift` alone (`specs/Visits.antt`, `specs/Shifts.antt`).
#![tactic(auto)]

mod answer;
mod apart;
mod gate;
mod lists;
#[cfg(test)]
mod tests;
mod visiting;
mod working;

pub use answer::AtAnswer;
pub use gate::{Gate, GateEvent, OpenGate};
pub use lists::{
    BusyAt, BusyList, LateAt, LateList, Positions, Shifts, VarList, WideAt, WideList, WorkerShift,
};
pub use visiting::try_at;
pub use working::shift;

// What a worker did may be moved between threads.
fn may_move<T: Send>() {}

pub(crate) fn cross_threads() {
    may_move::<WorkerShift>();
}
