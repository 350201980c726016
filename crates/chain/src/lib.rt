//! The chain of a run: how the rounds of a set follow one another, and what that says of a list of
//! calls that were made on it.
//!
//! A run makes one call for each of its *records*, with a number from 0. Its *rounds* follow one
//! another, each started with the keys that the one before left. In a round each *worker* has a pass,
//! and begins the calls of some records. A call that is refused is the last of its worker in that
//! round: once the round has ended it is *settled* on a plain set of its keys. The *chain* is each
//! round's whole history, with the settled calls behind it, one round behind the other.
//!
//! `IsRunChain` of `specs/Chain.antt` says what it is: one legal history of a plain set, in which each
//! record's call that changed the set stands once. The promise is the laws in `proofs/`: `chain_push`
//! makes a chain longer by a round, and where all records ask for inserts, `inserts_once` says that
//! each key that is asked for has one record whose insert changed the set. The crate has no
//! function: crates above cite the laws.
#![tactic(auto)]
