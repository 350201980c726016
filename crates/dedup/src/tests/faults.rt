// Each call that can fail, failing in turn.
ghost use Rattle.std.specs.Prelude.{None};

use super::IDS;
use super::fixture::{BYTES, Fails, NONE, PIECES, run_on, run_sized, sink};
use crate::{out_of_memory, run};
use outside::{Failed, Inputs, OpenGate};
use std::test::Fail;

// One file after another, each of line ends without end.
#[derive(Drop)]
struct LineEnds;

impl Inputs for LineEnds {
    ghost faults = { λ _. 0 };

    ghost files = { λ _. None };

    ghost left = { λ _. None };

    fn start(&mut self, _name: &str) -> Result<(), Failed> {
        Ok(())
    }

    fn read(&mut self, buf: &mut [u8]) -> Result<usize, Failed> {
        for byte in buf.iter_mut() {
            *byte = b'\n';
        }
        Ok(buf.len())
    }
}

#[test]
fn each_failed_read_ends_the_run(rt: HostRuntime) -> Result<(), Fail> {
    // The start is call 0, and call 7 finds the end of the file. Call 8 is never made.
    for call in 0..9 {
        let fails = Fails {
            inputs: call,
            ..NONE
        };
        let outcome = run_on(&rt, rt.alloc(), &IDS, b"3\n1\n3\n", b"", &fails)?;
        let (status, out, line): (u8, &[u8], &[u8]) = match call {
            8 => (0, b"1\n3\n", b""),
            _ => (4, b"", b"dedup: read fault in file 1\n"),
        };
        assert_eq!(rt; outcome.ended.status, status, "at call {call}");
        assert_eq!(rt; outcome.out.bytes(), out, "at call {call}");
        assert_eq!(rt; outcome.faults.bytes(), line, "at call {call}");
    }
    Ok(())
}

#[test]
fn a_bad_line_is_told_at_its_end(rt: HostRuntime) -> Result<(), Fail> {
    // Call 2 reads the LF of the bad line, and no later call is made.
    for call in 0..4 {
        let fails = Fails {
            inputs: call,
            ..NONE
        };
        let outcome = run_on(&rt, rt.alloc(), &IDS, b"x\n1\n", b"", &fails)?;
        let (status, line): (u8, &[u8]) = match call {
            3 => (3, b"dedup: bad line 1:1\n"),
            _ => (4, b"dedup: read fault in file 1\n"),
        };
        assert_eq!(rt; outcome.ended.status, status, "at call {call}");
        assert!(rt; outcome.out.bytes().is_empty(), "at call {call}");
        assert_eq!(rt; outcome.faults.bytes(), line, "at call {call}");
    }
    Ok(())
}

#[test]
fn each_failed_write_leaves_a_front_of_the_output(rt: HostRuntime) -> Result<(), Fail> {
    let output = b"1\n3\n";
    for call in 0..5 {
        let fails = Fails { out: call, ..NONE };
        let outcome = run_on(&rt, rt.alloc(), &IDS, b"3\n1\n3\n", b"", &fails)?;
        let (status, count, line): (u8, usize, &[u8]) = match call {
            4 => (0, 4, b""),
            _ => (5, call as usize, b"dedup: write fault\n"),
        };
        assert_eq!(rt; outcome.ended.status, status, "at call {call}");
        assert_eq!(rt; outcome.out.bytes(), &output[..count], "at call {call}");
        assert_eq!(rt; outcome.faults.bytes(), line, "at call {call}");
    }
    Ok(())
}

#[test]
fn a_read_that_fails_between_large_pieces_ends_the_run(rt: HostRuntime) -> Result<(), Fail> {
    let mut file = Vec::new(rt.alloc());
    for _ in 0..20_000 {
        file.extend_from_slice(b"1234567\n")?;
    }
    // The start is call 0; of the 160,000 bytes come three pieces, and call 4 finds the end.
    let words = ["dedup", "--list", "ids", "f"];
    for call in 0..6 {
        let fails = Fails {
            inputs: call,
            ..NONE
        };
        let outcome = run_sized(&rt, rt.alloc(), &words, (&file, b""), &fails, PIECES)?;
        let (status, out, line): (u8, &[u8], &[u8]) = match call {
            5 => (0, b"1234567\n", b""),
            _ => (4, b"", b"dedup: read fault in file 1\n"),
        };
        assert_eq!(rt; outcome.ended.status, status, "at call {call}");
        assert_eq!(rt; outcome.out.bytes(), out, "at call {call}");
        assert_eq!(rt; outcome.faults.bytes(), line, "at call {call}");
        // Nothing is put into a set before all is read.
        assert_eq!(rt; outcome.ended.closings.len(), if call == 5 { 1 } else { 0 });
    }
    Ok(())
}

#[test]
fn an_input_without_end_is_too_long(rt: HostRuntime) -> Result<(), Fail> {
    let alloc = rt.alloc();
    let words = vec![in alloc;
        String::from_str(alloc, "dedup")?,
        String::from_str(alloc, "f")?,
    ]?;
    let mut out = sink(alloc, u64::MAX, PIECES)?;
    let mut faults = sink(alloc, u64::MAX, PIECES)?;
    let ended = run(
        &rt,
        alloc,
        &words,
        &mut LineEnds,
        &mut out,
        &mut faults,
        &OpenGate,
    );
    assert_eq!(rt; ended.status, 6);
    assert!(rt; out.bytes().is_empty());
    assert!(rt; ended.closings.is_empty());
    assert_eq!(rt; faults.bytes(), b"dedup: file 1 too long\n".as_slice());
    Ok(())
}

#[test]
fn a_run_whose_output_fails_has_its_rounds(rt: HostRuntime) -> Result<(), Fail> {
    let fails = Fails { out: 0, ..NONE };
    let outcome = run_on(&rt, rt.alloc(), &IDS, b"3\n1\n3\n", b"", &fails)?;
    assert_eq!(rt; outcome.ended.status, 5);
    assert_eq!(rt; outcome.ended.closings.len(), 1);
    assert_eq!(rt; outcome.ended.made.len(), 1);
    Ok(())
}

#[test]
fn a_fault_in_the_fault_line_changes_no_status(rt: HostRuntime) -> Result<(), Fail> {
    let fails = Fails { faults: 0, ..NONE };
    let read = Fails { inputs: 1, ..fails };
    let write = Fails { out: 2, ..fails };
    let cases: [(&[&str], &[u8], Fails, u8); 4] = [
        (&["dedup"], b"3\n1\n3\n", fails, 2),
        (&IDS, b"x\n1\n", fails, 3),
        (&IDS, b"3\n1\n3\n", read, 4),
        (&IDS, b"3\n1\n3\n", write, 5),
    ];
    for (words, file, fails, status) in cases {
        let outcome = run_on(&rt, rt.alloc(), words, file, b"", &fails)?;
        assert_eq!(rt; outcome.ended.status, status);
        assert!(rt; outcome.faults.bytes().is_empty(), "at status {status}");
    }
    Ok(())
}

#[test]
fn refused_memory_ends_the_run_with_nothing_printed(rt: HostRuntime) -> Result<(), Fail> {
    // Here memory is ample. Run by hand with each allocation refused in turn, it ends in the other way.
    let outcome = run_on(&rt, rt.alloc(), &IDS, b"3\n1\n3\n", b"", &NONE)?;
    if outcome.ended.status == 0 {
        assert_eq!(rt; outcome.out.bytes(), b"1\n3\n".as_slice());
        return Ok(());
    }
    assert_eq!(rt; outcome.ended.status, 1);
    assert!(rt; outcome.out.bytes().is_empty());
    assert_eq!(rt;
        outcome.faults.bytes(),
        b"dedup: out of memory\n".as_slice()
    );
    Ok(())
}

#[test]
fn words_that_could_not_be_had_are_want_of_memory(rt: HostRuntime) -> Result<(), Fail> {
    let mut faults = sink(rt.alloc(), u64::MAX, BYTES)?;
    assert_eq!(rt; out_of_memory(&mut faults), 1);
    assert_eq!(rt; faults.bytes(), b"dedup: out of memory\n".as_slice());
    Ok(())
}
