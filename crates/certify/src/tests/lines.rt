// What the lines of a file are, and which of them is bad first.
ghost use Rattle.std.specs.Prelude.{None};

use super::{NONE, WORDS, run_on, run_over};
use outside::{Failed, Inputs};
use std::test::Fail;

#[test]
fn lines_are_trimmed_and_empty_ones_skipped(rt: HostRuntime) -> Result<(), Fail> {
    let cases: [(&[u8], &[u8]); 5] = [
        (b"order\n", b"legal 0\n"),
        (b"order", b"legal 0\n"),
        (
            b"\n \t\n63 +18446744073709551615 true\r\n\torder \r\n \n01",
            b"legal 1\n",
        ),
        (
            b"07 ?00000000000000000005 false\norder\n00000000000000000001\n",
            b"legal 1\n",
        ),
        (b"0 -5 false\n\norder\n\n1\n\n", b"legal 1\n"),
    ];
    for (file, line) in cases {
        let outcome = run_on(rt.alloc(), &WORDS, file, &NONE)?;
        assert_eq!(rt; outcome.out.bytes(), line);
        assert_eq!(rt; outcome.status, 0);
        assert!(rt; outcome.faults.bytes().is_empty());
    }
    Ok(())
}

// Each line but the bad one is good, so its number tells which one was refused.
#[test]
fn the_first_bad_line_is_told(rt: HostRuntime) -> Result<(), Fail> {
    let cases: [(&[u8], &[u8]); 24] = [
        (b"", b"1"),
        (b"\n\n", b"3"),
        (b"0 +5 true\n", b"2"),
        (b"64 +5 true\norder\n", b"1"),
        (b"100 +5 true\norder\n", b"1"),
        (b"0 +000000000000000000001 true\norder\n", b"1"),
        (b"0 +18446744073709551616 true\norder\n", b"1"),
        (b"0 +5 true\n0  -5 true\norder\n", b"2"),
        (b"0 +5  true\norder\n", b"1"),
        (b"0\t+5 true\norder\n", b"1"),
        (b"0 + 5 true\norder\n", b"1"),
        (b"0 +5 True\norder\n", b"1"),
        (b"0 +5 truer\norder\n", b"1"),
        (b"0 +5\norder\n", b"1"),
        (b"0 *5 true\norder\n", b"1"),
        (b" +5 true\norder\n", b"1"),
        (b"order\n0 +5 true\n", b"2"),
        (b"order\n\norder\n", b"3"),
        (b"1\norder\n", b"1"),
        (b"order\n18446744073709551616\n", b"2"),
        (b"order\n000000000000000000001\n", b"2"),
        (b"order\n1 2\n", b"2"),
        (b"Order\n", b"1"),
        (b"order\r\r\n", b"1"),
    ];
    for (file, number) in cases {
        let outcome = run_on(rt.alloc(), &WORDS, file, &NONE)?;
        let mut line = b"certify: bad line ".to_vec(rt.alloc())?;
        line.extend_from_slice(number)?;
        line.extend_from_slice(b"\n")?;
        assert_eq!(rt; outcome.faults.bytes(), line.as_slice());
        assert_eq!(rt; outcome.status, 3);
        assert!(rt; outcome.out.bytes().is_empty());
    }
    Ok(())
}

// The line `order`, and LF again and again, so many bytes in all. It tells nothing.
#[derive(Drop)]
struct Long {
    begun: bool,
    left: usize,
}

impl Inputs for Long {
    ghost faults = { λ _. 0 };

    ghost files = { λ _. None };

    ghost left = { λ _. None };

    fn start(&mut self, _name: &str) -> Result<(), Failed> {
        Ok(())
    }

    fn read(&mut self, buf: &mut [u8]) -> Result<usize, Failed> {
        let count = self.left.min(buf.len());
        for byte in buf.iter_mut() {
            *byte = b'\n';
        }
        if !self.begun && count >= 5 {
            buf[..5].copy_from_slice(b"order");
            self.begun = true;
        }
        self.left -= count;
        Ok(count)
    }
}

#[test]
fn a_file_has_at_most_2_to_the_24_bytes(rt: HostRuntime) -> Result<(), Fail> {
    let cases: [(usize, u8, &[u8], &[u8]); 2] = [
        (1 << 24, 0, b"legal 0\n", b""),
        ((1 << 24) + 1, 6, b"", b"certify: too long\n"),
    ];
    for (left, status, line, fault) in cases {
        let mut inputs = Long { begun: false, left };
        let outcome = run_over(rt.alloc(), &WORDS, &mut inputs, &NONE)?;
        assert_eq!(rt; outcome.status, status);
        assert_eq!(rt; outcome.out.bytes(), line);
        assert_eq!(rt; outcome.faults.bytes(), fault);
    }
    Ok(())
}
