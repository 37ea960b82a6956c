//! What watches a shift.

/// A moment of a shift, with the candidate.
#[derive(Clone, Copy, PartialEq, Eq, Debug)]
pub enum GateEvent {
    /// The candidate was drawn.
    Taken { var: u32 },
    /// Its whole neighbourhood is locked.
    HoodHeld { var: u32 },
    /// The locks are given back.
    Released { var: u32 },
}

/// Is called at the moments of each shift, by the worker's own thread, and returns.
pub trait Gate {
    fn at(&self, worker: u32, event: GateEvent);
}

/// The gate that does nothing.
#[derive(Clone, Copy)]
pub struct OpenGate;

impl Gate for OpenGate {
    fn at(&self, worker: u32, event: GateEvent) {
        let _ = worker;
        let _ = event;
    }
}
