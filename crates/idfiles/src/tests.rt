// Files read and lines printed, at concrete bytes.
ghost use Rattle.std.specs.Prelude.{◌<◌, None};

use super::*;
use outside::{Failed, Inputs, MemInputs};
use std::alloc::Global;
use std::test::Fail;

const ROOM: u64 = 16_777_216;

// The file `f` has these bytes, and a read gives at most so many of them.
fn one_file(alloc: Global, bytes: &[u8], fails: &[u64], piece: usize) -> Result<MemInputs, Fail>
    requires { 0 < piece }
{
    let mut files = Vec::new(alloc);
    files.push((String::from_str(alloc, "f")?, bytes.to_vec(alloc)?))?;
    Ok(MemInputs::new(files, fails.to_vec(alloc)?, piece))
}

// The same two bytes again and again, so many bytes in all. It tells nothing.
#[derive(Drop)]
struct Repeated {
    bytes: [u8; 2],
    left: usize,
}

impl Inputs for Repeated {
    ghost faults = { λ _. 0 };

    ghost files = { λ _. None };

    ghost left = { λ _. None };

    fn start(&mut self, _name: &str) -> Result<(), Failed> {
        Ok(())
    }

    fn read(&mut self, buf: &mut [u8]) -> Result<usize, Failed> {
        let count = self.left.min(buf.len());
        for pair in buf.chunks_exact_mut(2) {
            pair.copy_from_slice(&self.bytes);
        }
        self.left -= count;
        Ok(count)
    }
}

#[test]
fn reads_blanks_empty_lines_and_a_missing_last_lf(rt: HostRuntime) -> Result<(), Fail> {
    let alloc = rt.alloc();
    // Files with the line and the id of each record.
    let cases = [
        (b"".as_slice(), [].as_slice()),
        (b"1\n \t\n2".as_slice(), [(1, 1), (3, 2)].as_slice()),
        (b"5\n5\n7\n", [(1, 5), (2, 5), (3, 7)].as_slice()),
        (b"007\r\n9", [(1, 7), (2, 9)].as_slice()),
        (
            b"18446744073709551615\n\t 0 \r\n\r\n\n00000000000000000042",
            [(1, u64::MAX), (2, 0), (5, 42)].as_slice(),
        ),
    ];
    for (bytes, records) in cases {
        for piece in [1, 2, 7, 100] {
            let mut inputs = one_file(alloc, bytes, &[], piece)?;
            let read = read_ids(alloc, &mut inputs, "f", 3, ROOM)?;
            assert!(rt; read.iter().all(|record| record.file == 3));
            let found = read.iter().map(|record| (record.line, record.id));
            let found: Vec<(u64, u64)> = found.collect(alloc)?;
            assert_eq!(rt; found.as_slice(), records, "{piece} bytes a read");
        }
    }
    Ok(())
}

// Catches a body that misreads what stands behind a block of 16 digits, or in it.
#[test]
fn reads_plain_lines_about_as_long_as_a_block(rt: HostRuntime) -> Result<(), Fail> {
    let alloc = rt.alloc();
    let lines = [
        (b"123456789012345\n".as_slice(), 123_456_789_012_345),
        (b"1234567890123456\n", 1_234_567_890_123_456),
        (b"12345678901234567\n", 12_345_678_901_234_567),
        (b"123456789012345678\n", 123_456_789_012_345_678),
        (b"1234567890123456789\n", 1_234_567_890_123_456_789),
        (b"12345678901234567890\n", 12_345_678_901_234_567_890),
        (b"00000000000000000007\n", 7),
        (b"8\n", 8),
    ];
    let mut bytes = Vec::new(alloc);
    for (line, _) in lines {
        bytes.extend_from_slice(line)?;
    }
    for piece in [5, 64, 1000] {
        let mut inputs = one_file(alloc, &bytes, &[], piece)?;
        let read = read_ids(alloc, &mut inputs, "f", 1, ROOM)?;
        let found: Vec<u64> = read.iter().map(|record| record.id).collect(alloc)?;
        let ids: Vec<u64> = lines.iter().map(|(_, id)| *id).collect(alloc)?;
        assert_eq!(rt; found.as_slice(), ids.as_slice(), "{piece} bytes a read");
    }
    Ok(())
}

#[test]
fn refuses_the_first_bad_line(rt: HostRuntime) -> Result<(), Fail> {
    let alloc = rt.alloc();
    let cases = [
        (b"1\n18446744073709551616\n".as_slice(), 2),
        (b"+5\n", 1),
        (b"\n\n-1", 3),
        (b"7\r \n", 1),
        (b"7\r\r\n", 1),
        (b"1 2\n", 1),
        (b"000000000000000000001\n", 1),
        (b"1\n0x1\nbad\n", 2),
    ];
    for (bytes, line) in cases {
        for piece in [1, 3, 100] {
            let mut inputs = one_file(alloc, bytes, &[], piece)?;
            let read = read_ids(alloc, &mut inputs, "f", 9, ROOM).err();
            assert_eq!(rt; read, Some(IdFault::BadLine { file: 9, line }));
        }
    }
    Ok(())
}

#[test]
fn stops_at_the_record_that_has_no_room(rt: HostRuntime) -> Result<(), Fail> {
    let alloc = rt.alloc();
    let mut inputs = one_file(alloc, b"1\n\n2\n3\nbad\n", &[], 4)?;
    for room in [0, 1, 2] {
        let read = read_ids(alloc, &mut inputs, "f", 1, room).err();
        assert_eq!(rt; read, Some(IdFault::TooMany));
    }
    let read = read_ids(alloc, &mut inputs, "f", 1, 3).err();
    assert_eq!(rt; read, Some(IdFault::BadLine { file: 1, line: 5 }));
    Ok(())
}

#[test]
fn a_failed_call_is_a_read_fault(rt: HostRuntime) -> Result<(), Fail> {
    let alloc = rt.alloc();
    // The start, each read, and the read that would meet the end.
    for call in 0..4 {
        let mut inputs = one_file(alloc, b"1\n2\n", &[call], 2)?;
        let read = read_ids(alloc, &mut inputs, "f", 2, ROOM).err();
        assert_eq!(rt;
            read,
            Some(IdFault::ReadFault { file: 2 }),
            "at call {call}"
        );
    }
    let mut inputs = one_file(alloc, b"1\n2\n", &[4], 2)?;
    assert_eq!(rt; read_ids(alloc, &mut inputs, "f", 2, ROOM)?.len(), 2);
    let read = read_ids(alloc, &mut inputs, "g", 2, ROOM).err();
    assert_eq!(rt; read, Some(IdFault::ReadFault { file: 2 }));
    Ok(())
}

// Catches a body that starts the vector anew, or leaves in it what came before a fault.
#[test]
fn records_come_behind_earlier_ones_and_leave_after_a_fault(rt: HostRuntime) -> Result<(), Fail> {
    let alloc = rt.alloc();
    let mut records = Vec::new(alloc);
    let mut inputs = one_file(alloc, b"5\n\n6", &[], 2)?;
    append_ids(alloc, &mut inputs, &mut records, "f", 1, 2)?;
    append_ids(alloc, &mut inputs, &mut records, "f", 2, 2)?;
    let both = [(1, 1, 5), (1, 3, 6), (2, 1, 5), (2, 3, 6)];
    let cases = [
        (b"".as_slice(), [].as_slice(), ROOM, None),
        (
            b"7\nx\n",
            &[],
            ROOM,
            Some(IdFault::BadLine { file: 3, line: 2 }),
        ),
        (b"7\n8", &[], 1, Some(IdFault::TooMany)),
        (b"7\n8", &[2], ROOM, Some(IdFault::ReadFault { file: 3 })),
    ];
    for (bytes, fails, room, fault) in cases {
        let mut inputs = one_file(alloc, bytes, fails, 2)?;
        let read = append_ids(alloc, &mut inputs, &mut records, "f", 3, room).err();
        assert_eq!(rt; read, fault);
        let found = records
            .iter()
            .map(|record| (record.file, record.line, record.id));
        let found: Vec<(u32, u64, u64)> = found.collect(alloc)?;
        assert_eq!(rt; found.as_slice(), both.as_slice());
    }
    Ok(())
}

#[test]
fn ends_an_input_without_end(rt: HostRuntime) -> Result<(), Fail> {
    let alloc = rt.alloc();
    for (bytes, left, fault) in [
        (*b"  ", 1 << 30, None),
        (*b"  ", (1 << 30) + 1, Some(IdFault::TooLong { file: 1 })),
        (*b"\n\n", usize::MAX, Some(IdFault::TooLong { file: 1 })),
        (*b"1\n", usize::MAX, Some(IdFault::TooMany)),
    ] {
        let mut inputs = Repeated { bytes, left };
        let read = read_ids(alloc, &mut inputs, "f", 1, ROOM).err();
        assert_eq!(rt; read, fault);
    }
    Ok(())
}

#[test]
fn prints_each_line_exactly(rt: HostRuntime) {
    let mut buf = [0u8; 64];
    let end = keep_line(7, 1, 2, &mut buf);
    assert_eq!(rt; &buf[..end], b"7 1:2\n".as_slice());
    let end = keep_line(u64::MAX, u32::MAX, u64::MAX, &mut buf);
    let longest = b"18446744073709551615 4294967295:18446744073709551615\n";
    assert_eq!(rt; &buf[..end], longest.as_slice());
    let end = id_line(0, &mut buf);
    assert_eq!(rt; &buf[..end], b"0\n".as_slice());
    let end = count_line(2048, 1, &mut buf);
    assert_eq!(rt; &buf[..end], b"records 2048 distinct 1\n".as_slice());
}
