//! A plain set of `u64` keys, which every other set of this repository is compared with.
//!
//! A *call* is insert, remove or contains at a key. It is answered by the set that it meets, and
//! leaves a set: `answer_of` and `set_after_call` of `specs/Call.antt` say which, on finite sets of
//! numbers. An *entry* is a call with its answer and who made it, and a *history* is a list of
//! entries in order. It is legal where each answer is a plain set's at its place
//! (`specs/History.antt`, for sets and for tests on keys). `PlainSet::apply` is one step of a plain
//! set, which is the crate's promise, and `PlainSet::accepts` tells whether a history is legal. The
//! smallest use is the test `answers_as_a_set`.
#![tactic(auto)]

mod call;
mod entry;
mod history;
mod no_memory;
mod plain_set;
mod sorted;

pub use call::Call;
pub use entry::Entry;
pub use no_memory::NoMemory;
pub use plain_set::PlainSet;

#[cfg(test)]
mod tests;
