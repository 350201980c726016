//! Resizing the table of a round.
//!
//! A resize exchanges the head for a generation of twice or half the buckets. Before that it fills each
//! bucket of the head that is nil; those of the new generation stay nil until a call needs them. No
//! call on the set takes effect by it, so no answer tells of it, and every pass may resize at any time.
//! The smallest uses are the tests.
#![tactic(auto)]

mod outcomes;
mod resizing;

pub use outcomes::Resized;
pub use resizing::{exponent, grow, shrink};

#[cfg(test)]
mod tests;
