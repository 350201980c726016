use super::*;
use outside::{Inputs, MemInputs, MemSink};
use std::alloc::Global;
use std::test::Fail;

mod faults;
mod lines;
mod places;
mod twin;

const WORDS: [&str; 2] = ["certify", "f"];

// Three calls of two callers, and the line that ends them.
const CALLS: &[u8] = b"0 +5 true\n1 ?5 true\n0 -5 true\norder\n";

// The numbers of the calls that fail.
#[derive(Clone, Copy)]
struct Fails {
    inputs: u64,
    out: u64,
    faults: u64,
}

const NONE: Fails = Fails {
    inputs: u64::MAX,
    out: u64::MAX,
    faults: u64::MAX,
};

// A run's status, and what it wrote on the out sink and on the fault sink.
#[derive(Drop)]
struct Outcome {
    status: u8,
    out: MemSink,
    faults: MemSink,
}

fn sink(alloc: Global, fails: u64) -> Result<MemSink, Fail> {
    Ok(MemSink::new(vec![in alloc; 0u8; 64]?, vec![in alloc; fails]?, 1))
}

// A run over those inputs, whose sinks take one byte a call.
fn run_over<I: Inputs>(
    alloc: Global,
    words: &[&str],
    inputs: &mut I,
    fails: &Fails,
) -> Result<Outcome, Fail> {
    let mut owned = Vec::new(alloc);
    for word in words {
        owned.push(String::from_str(alloc, word)?)?;
    }
    let mut out = sink(alloc, fails.out)?;
    let mut faults = sink(alloc, fails.faults)?;
    let status = certify(alloc, &owned, inputs, &mut out, &mut faults);
    Ok(Outcome {
        status,
        out,
        faults,
    })
}

// A run over the file `f`, read one byte a call.
fn run_on(alloc: Global, words: &[&str], f: &[u8], fails: &Fails) -> Result<Outcome, Fail> {
    let mut files = Vec::new(alloc);
    files.push((String::from_str(alloc, "f")?, f.to_vec(alloc)?))?;
    let mut inputs = MemInputs::new(files, vec![in alloc; fails.inputs]?, 1);
    run_over(alloc, words, &mut inputs, fails)
}

#[test]
fn names_the_first_place_that_is_wrong(rt: HostRuntime) -> Result<(), Fail> {
    let cases: [(&[u8], u8, &[u8]); 6] = [
        (b"1\n2\n3\n", 0, b"legal 3\n"),
        (b"1\n3\n2\n", 7, b"place 3 answer\n"),
        (b"3\n1\n2\n", 7, b"place 1 early\n"),
        (b"1\n2\n", 7, b"call 3 missing\n"),
        (b"1\n1\n", 7, b"place 2 repeated\n"),
        (b"1\n4\n", 7, b"place 2 unknown\n"),
    ];
    for (order, status, line) in cases {
        let mut file = CALLS.to_vec(rt.alloc())?;
        file.extend_from_slice(order)?;
        let outcome = run_on(rt.alloc(), &WORDS, &file, &NONE)?;
        assert_eq!(rt; outcome.out.bytes(), line);
        assert_eq!(rt; outcome.status, status);
        assert!(rt; outcome.faults.bytes().is_empty());
    }
    Ok(())
}

// Caller 1 wrote over the row in which caller 0 had put its key: no order explains the answers.
#[test]
fn finds_a_lost_update(rt: HostRuntime) -> Result<(), Fail> {
    let cases: [(&[u8], &[u8]); 6] = [
        (b"1\n2\n3\n", b"place 3 answer\n"),
        (b"1\n3\n2\n", b"place 2 answer\n"),
        (b"2\n1\n3\n", b"place 3 answer\n"),
        (b"2\n3\n1\n", b"place 2 early\n"),
        (b"3\n1\n2\n", b"place 1 early\n"),
        (b"3\n2\n1\n", b"place 1 early\n"),
    ];
    for (order, line) in cases {
        let mut file = b"0 +7 true\n1 +8 true\n0 ?7 false\norder\n".to_vec(rt.alloc())?;
        file.extend_from_slice(order)?;
        let outcome = run_on(rt.alloc(), &WORDS, &file, &NONE)?;
        assert_eq!(rt; outcome.out.bytes(), line);
        assert_eq!(rt; outcome.status, 7);
    }
    Ok(())
}

#[test]
fn words_that_are_not_the_command_are_bad(rt: HostRuntime) -> Result<(), Fail> {
    let cases: [&[&str]; 6] = [
        &[],
        &["certify"],
        &["certify", "--help"],
        &["certify", "--version"],
        &["certify", "-"],
        &["certify", "f", "f"],
    ];
    for words in cases {
        let outcome = run_on(rt.alloc(), words, b"order\n", &NONE)?;
        assert_eq!(rt; outcome.status, 2, "at {words:?}");
        assert!(rt; outcome.out.bytes().is_empty());
        assert_eq!(rt; outcome.faults.bytes(), b"certify: bad words\n".as_slice());
    }
    Ok(())
}
