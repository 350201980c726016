//! A set of `u64` keys that up to 64 callers use at once.
//!
//! A *round* is a row of words that holds the set. A *pass* is a caller's token in it: `insert`,
//! `remove` and `contains` take one, and wait for nobody. The round has one *history*, the list of
//! the calls that changed the set, each with its answer; a pass's *front* is what it has seen of it.
//! `grow` and `shrink` resize the table, beside all other calls, and no answer tells of it.
//!
//! The promise: every answer stands for its pass (`AnswerStands` of `fset`'s `specs/Standing.antt`).
//! A call that changed the set has its entry in the history, past all that the pass had seen; one
//! that didn't has the answer of the set after what the pass has then seen. So all answered calls of
//! all passes make one history that a plain set gives: the law
//! `answered_calls_are_one_history`. The smallest use is
//! the test `what_one_pass_inserts_another_finds`.
#![tactic(auto)]

mod lookup;
mod writing;

pub use buckets::{Resized, exponent, grow, shrink};
pub use fset::{Answered, Outcome};
pub use lookup::contains;
pub use writing::{insert, remove};

#[cfg(test)]
mod tests;
