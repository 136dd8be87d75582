//! A gate that each thread passes, by which its caller can hold a thread or note that it came by.

/// Where a thread passes the gate.
#[derive(Clone, Copy, PartialEq, Eq)]
pub enum GatePlace {
    /// Before it takes register steps.
    Local,
    /// Before each event.
    Event,
}

/// What threads pass, without holding a lock. It tells nothing, so no contract speaks of it.
pub trait Gate {
    /// The thread passes at this place.
    fn pass(&self, thread: u32, place: GatePlace);
}

/// A gate that returns at once.
#[derive(Clone, Copy)]
pub struct OpenGate;

impl Gate for OpenGate {
    fn pass(&self, _thread: u32, _place: GatePlace) {}
}
