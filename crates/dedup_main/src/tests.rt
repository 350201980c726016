// What no clause says of the process: that its words are those that it was given, and that its
// files and outputs are the system's.
use crate::process::{FaultOutput, Output, process};
use std::alloc::Global;
use std::env::FillError;
use std::fs::{self, File, OpenOptions};
use std::io::{self, Write};
use std::process::{ExitCode, Termination};
use std::rt::Env;
use std::test::Fail;

// An environment with these words, and no other.
#[derive(Drop)]
struct Words<'a> {
    alloc: Global,
    words: &'a [&'a [u8]],
}

impl<'a> Alloc for Words<'a> {
    type A = Global;

    fn alloc(&self) -> Global {
        self.alloc
    }
}

impl<'a> Env for Words<'a> {
    fn arg(&self, i: usize, buf: &mut [u8]) -> Result<usize, FillError> {
        let Some(word) = self.words.get(i) else {
            return Err(FillError::NotPresent);
        };
        let Some(front) = buf.get_mut(..word.len()) else {
            return Err(FillError::TooLong);
        };
        front.copy_from_slice(word);
        Ok(word.len())
    }

    fn var(&self, _name: &str, _buf: &mut [u8]) -> Result<usize, FillError> {
        Err(FillError::NotPresent)
    }

    fn var_at(&self, _i: usize, _buf: &mut [u8]) -> Result<usize, FillError> {
        Err(FillError::NotPresent)
    }
}

// An output that keeps what is written on it.
#[derive(Drop)]
struct Page {
    bytes: [u8; 64],
    used: usize,
}

impl Page {
    fn new() -> Page {
        Page {
            bytes: [0; 64],
            used: 0,
        }
    }

    fn text(&self) -> &[u8] {
        self.bytes.get(..self.used).unwrap_or(&[])
    }
}

impl Write for Page {
    fn write(&mut self, buf: &[u8]) -> io::Result<usize> {
        let free = self.bytes.get_mut(self.used..).unwrap_or(&mut []);
        let count = free.len().min(buf.len());
        free[..count].copy_from_slice(&buf[..count]);
        self.used = self.used.saturating_add(count);
        Ok(count)
    }

    fn flush(&mut self) -> io::Result<()> {
        Ok(())
    }
}

impl<'a> Output for &'a mut Page {}

impl<'a> FaultOutput for &'a mut Page {}

impl Output for File {}

#[test]
fn a_process_ends_as_its_run(rt: HostRuntime) -> Result<(), Fail> {
    fs::write(&rt, "dedup_main_f", b"3\n1\n3\n".as_slice())?;
    fs::write(&rt, "dedup_main_g", b"2\n1\n".as_slice())?;
    let cases: [(&[&[u8]], u8, &[u8], &[u8]); 8] = [
        (
            &[b"dedup", b"--workers", b"1", b"dedup_main_f"],
            0,
            b"1 1:2\n3 1:1\n",
            b"",
        ),
        (
            &[
                b"dedup",
                b"--workers",
                b"1",
                b"--list",
                b"ids",
                b"dedup_main_f",
                b"dedup_main_g",
                b"dedup_main_f",
            ],
            0,
            b"1\n2\n3\n",
            b"",
        ),
        (
            &[b"dedup", b"dedup_main_f", b"dedup_main_h"],
            4,
            b"",
            b"dedup: read fault in file 2\n",
        ),
        (&[b"dedup", b"."], 4, b"", b"dedup: read fault in file 1\n"),
        (
            &[b"dedup", b"--help", b"dedup_main_f"],
            2,
            b"",
            b"dedup: bad words\n",
        ),
        (&[b"dedup"], 2, b"", b"dedup: bad words\n"),
        (&[], 2, b"", b"dedup: bad words\n"),
        (
            &[b"dedup", b"dedup_main_f", b"\xff"],
            2,
            b"",
            b"dedup: bad words\n",
        ),
    ];
    for (words, status, output, line) in cases {
        let env = Words {
            alloc: rt.alloc(),
            words,
        };
        let mut out = Page::new();
        let mut faults = Page::new();
        let finished = process(&env, &rt, &mut out, &mut faults);
        assert_eq!(rt; finished.report(&rt), ExitCode::from(status), "at {line:?}");
        assert_eq!(rt; out.text(), output, "at status {status}");
        assert_eq!(rt; faults.text(), line, "at status {status}");
    }
    fs::remove_file(&rt, "dedup_main_f")?;
    fs::remove_file(&rt, "dedup_main_g")?;
    Ok(())
}

#[test]
fn an_output_to_a_full_device_is_a_write_fault(rt: HostRuntime) -> Result<(), Fail> {
    fs::write(&rt, "dedup_main_full", b"3\n".as_slice())?;
    let env = Words {
        alloc: rt.alloc(),
        words: &[b"dedup", b"dedup_main_full"],
    };
    let full = OpenOptions::new().write(true).open(&rt, "/dev/full")?;
    let mut faults = Page::new();
    let finished = process(&env, &rt, full, &mut faults);
    assert_eq!(rt; finished.report(&rt), ExitCode::from(5));
    assert_eq!(rt; faults.text(), b"dedup: write fault\n".as_slice());
    fs::remove_file(&rt, "dedup_main_full")?;
    Ok(())
}
