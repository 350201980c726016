//! `certify`: whether a claimed order explains the answers of a set of `u64` keys, of any make.
//!
//! A *log* has the calls of several callers, each with its answer, numbered from 1 so that each
//! caller's stand in the order in which it made them; and a claimed *order*, a list of these
//! numbers. A *place* of the order, from 1, is unknown, repeated, early or wrong
//! (`specs/Place.antt`), by the numbers at the earlier places and the plain set alone.
//! `check_order` gives the first of these at the least such place, else the least call that is
//! missing (`specs/Order.antt`), which is the crate's promise; its clause `legal` says when there
//! is none: exactly where the order has each call once, keeps each caller's order, and its calls
//! are a legal history from the empty set. `certify` does the same for a log in a file, whose lines
//! are those of `specs/Grammar.antt`. The smallest use is the test
//! `names_the_first_place_that_is_wrong`.
#![tactic(auto)]

mod claimed;
mod fault;
mod grammar;
mod line;
mod log;
mod members;
mod number;
mod order;
mod previous;
mod print;
mod program;
mod read;
mod trim;
mod verdict;

pub use claimed::Claimed;
pub use grammar::each_line_is_one_thing;
pub use order::check_order;
pub use program::{certify, out_of_memory};
pub use verdict::Verdict;

#[cfg(test)]
mod tests;
