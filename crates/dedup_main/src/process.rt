// The process: its words, its files and its two outputs.
use crate::program::{Finished, end};
use outside::{RealInputs, RealSink};
use std::alloc::{AllocError, Global};
use std::env;
use std::io::{ErrorKind, Stderr, Stdout, Write};
use std::rt::{Env, Files};
use std::thread::Threads;

/// Where the list may go: of the system's outputs the standard output alone.
pub(crate) trait Output: Write + Drop {}

impl Output for Stdout {}

/// Where the line of a fault may go: of the system's outputs the standard error alone.
pub(crate) trait FaultOutput: Write + Drop {}

impl FaultOutput for Stderr {}

/// Runs over the words of this environment and over the files of this runtime.
pub(crate) fn process<V, R, O, E>(env: &V, rt: &R, out: O, faults: E) -> Finished
where
    V: Env + AllocGlobal,
    R: Threads + Sync + AllocGlobal + Files,
    O: Output,
    E: FaultOutput,
{
    let mut inputs = RealInputs::new(rt);
    let mut out = RealSink::over(out);
    let mut faults = RealSink::over(faults);
    let words = words(env, env.alloc());
    end(rt, words, &mut inputs, &mut out, &mut faults)
}

// The words that the program was given. Where one isn't UTF-8 there are none, which is no command.
fn words(env: &(impl Env + AllocGlobal), alloc: Global) -> Result<Vec<String>, AllocError> {
    match env::args(env) {
        Ok(words) => words.collect(alloc),
        Err(error) if error.kind() == ErrorKind::InvalidData => Ok(Vec::new(alloc)),
        Err(_) => Err(AllocError),
    }
}
