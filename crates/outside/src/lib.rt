//! What the programs ask of the world outside: bytes to read, a place for bytes to go, and a gate.
//!
//! *Inputs* are named files that are read in order. A *sink* takes bytes. Both count their
//! *faults*: a call that answers `Failed` counts one, any other none, and the count stands still at
//! its greatest value. An object *tells* its bytes where its contract names them; those in memory
//! do, the real ones don't. A *gate* is called
//! beside each call that a worker makes. `write_whole` appends exactly the bytes that it is given,
//! which is the crate's promise. The smallest use is the test `writes_in_pieces`.
#![tactic(auto)]

mod count_sink;
mod failed;
mod faults;
mod gate;
mod inputs;
mod memory_inputs;
mod memory_sink;
mod reading;
mod real;
mod script;
mod sink;
mod steady;
mod whole;

pub use count_sink::CountSink;
pub use failed::Failed;
pub use gate::{Gate, OpenGate};
pub use inputs::Inputs;
pub use memory_inputs::MemInputs;
pub use memory_sink::MemSink;
pub use real::{RealInputs, RealSink};
pub use sink::Sink;
pub use steady::SteadyInputs;
pub use whole::write_whole;

#[cfg(test)]
mod tests;
