use super::{CALLS, Fails, NONE, WORDS, run_on, sink};
use crate::out_of_memory;
use std::test::Fail;

// Three lines of 13 bytes.
const THREE: &[u8] = b"0 +5 true\norder\n1\n";

#[test]
fn each_failed_read_ends_the_run(rt: HostRuntime) -> Result<(), Fail> {
    // The start is call 0, and call 19 finds the end of the file. Call 20 is never made.
    for call in 0..21 {
        let fails = Fails {
            inputs: call,
            ..NONE
        };
        let outcome = run_on(rt.alloc(), &WORDS, THREE, &fails)?;
        let (status, out, line): (u8, &[u8], &[u8]) = match call {
            20 => (0, b"legal 1\n", b""),
            _ => (4, b"", b"certify: read fault\n"),
        };
        assert_eq!(rt; outcome.status, status, "at call {call}");
        assert_eq!(rt; outcome.out.bytes(), out, "at call {call}");
        assert_eq!(rt; outcome.faults.bytes(), line, "at call {call}");
    }
    Ok(())
}

#[test]
fn each_failed_write_leaves_a_front_of_the_line(rt: HostRuntime) -> Result<(), Fail> {
    let output = b"legal 1\n";
    for call in 0..9 {
        let fails = Fails { out: call, ..NONE };
        let outcome = run_on(rt.alloc(), &WORDS, THREE, &fails)?;
        let (status, count, line): (u8, usize, &[u8]) = match call {
            8 => (0, 8, b""),
            _ => (5, call as usize, b"certify: write fault\n"),
        };
        assert_eq!(rt; outcome.status, status, "at call {call}");
        assert_eq!(rt; outcome.out.bytes(), &output[..count], "at call {call}");
        assert_eq!(rt; outcome.faults.bytes(), line, "at call {call}");
    }
    Ok(())
}

#[test]
fn a_fault_in_the_fault_line_changes_no_status(rt: HostRuntime) -> Result<(), Fail> {
    let fails = Fails { faults: 0, ..NONE };
    let read = Fails { inputs: 1, ..fails };
    let write = Fails { out: 2, ..fails };
    let cases: [(&[&str], &[u8], Fails, u8); 5] = [
        (&["certify"], THREE, fails, 2),
        (&WORDS, b"x\n", fails, 3),
        (&WORDS, THREE, read, 4),
        (&WORDS, THREE, write, 5),
        (&WORDS, CALLS, fails, 7),
    ];
    for (words, file, fails, status) in cases {
        let outcome = run_on(rt.alloc(), words, file, &fails)?;
        assert_eq!(rt; outcome.status, status);
        assert!(rt; outcome.faults.bytes().is_empty(), "at status {status}");
    }
    Ok(())
}

#[test]
fn a_missing_file_is_a_read_fault(rt: HostRuntime) -> Result<(), Fail> {
    for name in ["g", ""] {
        let outcome = run_on(rt.alloc(), &["certify", name], THREE, &NONE)?;
        assert_eq!(rt; outcome.status, 4);
        assert_eq!(rt; outcome.faults.bytes(), b"certify: read fault\n".as_slice());
    }
    Ok(())
}

#[test]
fn refused_memory_ends_the_run_with_nothing_printed(rt: HostRuntime) -> Result<(), Fail> {
    // Run with each allocation refused in turn; with none refused it is a plain run.
    let outcome = run_on(rt.alloc(), &WORDS, THREE, &NONE)?;
    if outcome.status == 0 {
        assert_eq!(rt; outcome.out.bytes(), b"legal 1\n".as_slice());
        return Ok(());
    }
    assert_eq!(rt; outcome.status, 1);
    assert!(rt; outcome.out.bytes().is_empty());
    assert_eq!(rt;
        outcome.faults.bytes(),
        b"certify: out of memory\n".as_slice()
    );
    Ok(())
}

#[test]
fn words_that_could_not_be_had_are_want_of_memory(rt: HostRuntime) -> Result<(), Fail> {
    let mut faults = sink(rt.alloc(), u64::MAX)?;
    assert_eq!(rt; out_of_memory(&mut faults), 1);
    assert_eq!(rt; faults.bytes(), b"certify: out of memory\n".as_slice());
    Ok(())
}
