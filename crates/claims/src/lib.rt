//! A counter that divides the places of a list among workers, chunk by chunk.
//!
//! A *place* is a number below the length. A *claim* is a range of places. A *seat* is a worker's
//! token: with it the worker *takes* claims, each by one draw, a `fetch_add` on the counter. A draw
//! that finds no place left is answered None, and the seat is *spent*: it makes no draw any more.
//!
//! The promise: whatever the schedule, each place below the one that the counter reached is in one
//! claim of the seats, and no other place is in any. Where a seat is spent, those are all places.
//! `Claims::finish` carries it. The smallest use is the test `five_places_in_chunks_of_two`; a
//! worker's loop is `work` of the tests' file `worker.rt`.
#![tactic(auto)]

mod claim;
mod counter;
mod no_memory;
mod plays;
mod rule;
mod seat;

pub use claim::Claim;
pub use counter::Claims;
pub use no_memory::NoMemory;
use rule::Setup;
pub use rule::{MAX_CHUNK, MAX_LEN, MAX_SEATS};
pub use seat::ClaimSeat;

#[cfg(test)]
mod tests;
