//! The program `certify`: its words, the system's files and its two outputs, handed to
//! `certify::certify`.
#![tactic(auto)]

use certify::{certify, out_of_memory};
use outside::{RealInputs, RealSink};
use std::alloc::{AllocError, Global};
use std::env;
use std::io::ErrorKind;
use std::process::ExitCode;
use std::rt::Env;

fn main(rt: HostRuntime) -> ExitCode {
    let alloc = rt.alloc();
    let mut inputs = RealInputs::new(&rt);
    let mut out = RealSink::over(rt.stdout());
    let mut faults = RealSink::over(rt.stderr());
    let status = match words(&rt, alloc) {
        Ok(words) => certify(alloc, &words, &mut inputs, &mut out, &mut faults),
        Err(AllocError) => out_of_memory(&mut faults),
    };
    ExitCode::from(status)
}

// The words that the program was given. Where one isn't UTF-8 there are none, which is no command.
fn words(rt: &(impl Env + AllocGlobal), alloc: Global) -> Result<Vec<String>, AllocError> {
    match env::args(rt) {
        Ok(words) => words.collect(alloc),
        Err(error) if error.kind() == ErrorKind::InvalidData => Ok(Vec::new(alloc)),
        Err(_) => Err(AllocError),
    }
}
