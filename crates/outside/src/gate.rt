// Gates, which tests may hold workers in.

/// Is called beside each call that a worker makes on the shared set. It tells nothing and changes
/// no answer; a test may hold workers in it.
pub trait Gate: Sync {
    /// Comes directly before the worker's call. Workers and their calls count from 0.
    fn before(&self, worker: u32, nth: u64);

    /// Comes directly after the same call.
    fn after(&self, worker: u32, nth: u64);
}

/// The gate that holds nobody: both calls return at once.
#[derive(Clone, Copy, Debug, PartialEq, Eq)]
pub struct OpenGate;

impl Gate for OpenGate {
    fn before(&self, _worker: u32, _nth: u64) {}

    fn after(&self, _worker: u32, _nth: u64) {}
}
