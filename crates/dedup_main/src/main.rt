//! The program `dedup`: its words, the system's files and its two outputs, handed to `dedup::run`.
//!
//! `main` hands over what the system gives, and can end with nothing but what `process` gives.
//! `program::end` carries the contract of the run over to the status of the process.
#![tactic(auto)]

mod process;
mod program;

use process::process;
use program::Finished;

fn main(rt: HostRuntime) -> Finished {
    process(&rt, &rt, rt.stdout(), rt.stderr())
}

#[cfg(test)]
mod tests;
