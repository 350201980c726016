// What no clause says of the real inputs and sink: which file is opened, and that bytes go out.
use crate::{Failed, Inputs, RealInputs, RealSink, Sink, write_whole};
use std::alloc::Global;
use std::fs;
use std::io::{self, ErrorKind, Write};
use std::test::Fail;

// The bytes of the file of this name, read three at a time.
fn content<I: Inputs>(alloc: Global, inputs: &mut I, name: &str) -> Result<Vec<u8>, Fail> {
    let mut content = Vec::new(alloc);
    let mut buf = [0u8; 3];
    inputs.start(name)?;
    for _ in 0..100 {
        let count = inputs.read(&mut buf)?;
        if count == 0 {
            break;
        }
        content.extend_from_slice(&buf[..count])?;
    }
    Ok(content)
}

#[test]
fn a_name_is_the_file_that_is_read(rt: HostRuntime) -> Result<(), Fail> {
    let files = [
        ("outside_first", b"12345".as_slice()),
        ("outside_second", b"6789"),
    ];
    for (name, bytes) in files {
        fs::write(&rt, name, bytes)?;
    }
    let mut inputs = RealInputs::new(rt.clone()?);
    for place in [0usize, 1, 1, 0] {
        let (name, bytes) = files[place];
        let read = content(rt.alloc(), &mut inputs, name)?;
        assert_eq!(rt; read.as_slice(), bytes, "of {name}");
        assert_eq!(rt; inputs.start("outside_third"), Err(Failed), "it is missing");
        assert_eq!(rt; inputs.read(&mut [0u8; 3]), Ok(0), "nothing is started");
    }

    // One file is cut short between two reads of it.
    let mut buf = [0u8; 2];
    inputs.start("outside_first")?;
    assert_eq!(rt; inputs.read(&mut buf), Ok(2));
    fs::write(&rt, "outside_first", b"12".as_slice())?;
    assert_eq!(rt; inputs.read(&mut buf), Ok(0), "its end was met");

    for (name, _) in files {
        fs::remove_file(&rt, name)?;
    }
    Ok(())
}

#[test]
fn a_folder_starts_and_is_not_read(rt: HostRuntime) -> Result<(), Fail> {
    let mut inputs = RealInputs::new(rt.clone()?);
    inputs.start(".")?;
    for _ in 0..2 {
        assert_eq!(rt; inputs.read(&mut [0u8; 3]), Err(Failed));
    }
    Ok(())
}

// Takes one byte a write, which goes out at the next flush, as long as there are flushes left.
#[derive(Drop)]
struct Slow {
    held: Option<u8>,
    out: [u8; 4],
    used: usize,
    flushes: u32,
}

impl Slow {
    fn new(flushes: u32) -> Slow {
        Slow {
            held: None,
            out: [0; 4],
            used: 0,
            flushes,
        }
    }
}

impl Write for Slow {
    fn write(&mut self, buf: &[u8]) -> io::Result<usize> {
        if self.held.is_some() {
            return Err(ErrorKind::WouldBlock.into());
        }
        self.held = buf.first().copied();
        Ok(buf.len().min(1))
    }

    fn flush(&mut self) -> io::Result<()> {
        if self.flushes == 0 {
            return Err(ErrorKind::Other.into());
        }
        self.flushes -= 1;
        if let Some(byte) = self.held.take() {
            if let Some(free) = self.out.get_mut(self.used) {
                *free = byte;
                self.used += 1;
            }
        }
        Ok(())
    }
}

#[test]
fn each_taken_byte_goes_out(rt: HostRuntime) {
    let mut slow = Slow::new(9);
    assert_eq!(rt; RealSink::over(&mut slow).write(b"row"), Ok(1));
    assert_eq!(rt; write_whole(&mut RealSink::over(&mut slow), b"ows"), Ok(()));
    assert_eq!(rt; slow.out, *b"rows");
    assert_eq!(rt; slow.held, None);
}

#[test]
fn a_failed_flush_is_a_failed_write(rt: HostRuntime) {
    for (flushes, front) in [(0, 0), (1, 1), (3, 3)] {
        let mut slow = Slow::new(flushes);
        let mut out = RealSink::over(&mut slow);
        assert_eq!(rt; write_whole(&mut out, b"rows"), Err(Failed));
        assert_eq!(rt; slow.used, front, "after {flushes} flushes");
    }
}
