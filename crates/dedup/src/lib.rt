//! `dedup`: the distinct ids of files, rising, each once.
//!
//! A *run* reads its words, which are the *command*: the list that is asked for, the workers and
//! their room, and one to 64 files. The files' lines give *records*: an id with its file and line.
//! Workers insert the ids into the set for threads, in one *round* after another. The run ends with a
//! *status*: 0 where the list was printed, else the number of its *fault*, which it reports by one
//! line on the fault sink. The contract of `run` says what is printed, by which history of a plain
//! set, and what each status means. It doesn't say how many rounds there are, and that workers run at
//! once only tests show. The smallest use is the test `prints_each_id_once`.
#![tactic(auto)]

mod command;
mod crew;
mod fault;
mod growing;
mod load;
mod one_round;
mod output;
mod phase;
mod program;
mod settle;
mod so_far;
mod words;
mod worker;

pub use program::{Ended, out_of_memory, run};

#[cfg(test)]
mod tests;
