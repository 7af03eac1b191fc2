// Faults of a store that stops.

/// Why a call of a store that stops failed.
#[derive(Debug, Drop)]
pub enum StopFault<F> {
    /// The store below failed.
    Below(F),
    /// No more calls are passed on, and nothing was done.
    Stopped,
}
