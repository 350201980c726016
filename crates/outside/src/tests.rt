// What the clauses leave open of inputs, sinks and gates.
ghost use Rattle.std.specs.Prelude.{IfOk, IsTrue};
ghost use Rattle.outside.specs.Files.{files_of, names_differ};

mod system;

use super::*;
use std::alloc::Global;
use std::io::Cursor;
use std::test::Fail;

// A sink with room for `room` bytes that takes one byte a write.
fn narrow_sink(alloc: Global, room: usize, fails: &[u64]) -> Result<MemSink, Fail> {
    let space = vec![in alloc; 0u8; room]?;
    Ok(MemSink::new(space, fails.to_vec(alloc)?, 1))
}

#[test]
fn writes_in_pieces(rt: HostRuntime) -> Result<(), Fail> {
    let mut out = narrow_sink(rt.alloc(), 8, &[])?;
    write_whole(&mut out, b"row")?;
    write_whole(&mut out, b"s\n")?;
    assert_eq!(rt; out.bytes(), b"rows\n".as_slice());
    Ok(())
}

#[test]
fn a_failed_write_leaves_a_front(rt: HostRuntime) -> Result<(), Fail> {
    // Each of the calls fails in turn, and the write past the room.
    for (fails, room, front) in [(0, 8, 0), (1, 8, 1), (2, 8, 2), (9, 2, 2)] {
        let mut out = narrow_sink(rt.alloc(), room, &[fails])?;
        assert_eq!(rt;
            write_whole(&mut out, b"row"),
            Err(Failed),
            "at call {fails}"
        );
        assert_eq!(rt; out.bytes().len(), front, "at call {fails}");
    }
    Ok(())
}

// Files `a` and `b`.
fn two_files(alloc: Global) -> Result<Vec<(String, Vec<u8>)>, Fail>
    ensures { IfOk result (λ files. IsTrue (names_differ (files_of files.items))) }
{
    let mut files = Vec::new(alloc);
    files.push((String::from_str(alloc, "a")?, b"123".to_vec(alloc)?))?;
    files.push((String::from_str(alloc, "b")?, b"45".to_vec(alloc)?))?;
    Ok(files)
}

// Those files, read two bytes at a time.
fn narrow_inputs(alloc: Global, fails: &[u64]) -> Result<MemInputs, Fail> {
    Ok(MemInputs::new(two_files(alloc)?, fails.to_vec(alloc)?, 2))
}

// What a start and reads of eight bytes at most give, through the bound alone.
fn counts_of<I: Inputs>(inputs: &mut I, name: &str) -> Result<[usize; 3], Failed> {
    let mut buf = [0u8; 8];
    inputs.start(name)?;
    Ok([
        inputs.read(&mut buf)?,
        inputs.read(&mut buf)?,
        inputs.read(&mut buf)?,
    ])
}

#[test]
fn reads_the_started_file_in_pieces(rt: HostRuntime) -> Result<(), Fail> {
    let mut inputs = narrow_inputs(rt.alloc(), &[])?;
    assert_eq!(rt; inputs.read(&mut [0u8; 8]), Ok(0), "nothing is started");
    assert_eq!(rt; counts_of(&mut inputs, "a"), Ok([2, 1, 0]));
    assert_eq!(rt; counts_of(&mut inputs, "b"), Ok([2, 0, 0]));
    assert_eq!(rt;
        counts_of(&mut inputs, "c"),
        Err(Failed),
        "there is no such file"
    );
    Ok(())
}

#[test]
fn steady_inputs_read_whole_files(rt: HostRuntime) -> Result<(), Fail> {
    let mut inputs = SteadyInputs::new(two_files(rt.alloc())?);
    assert_eq!(rt; counts_of(&mut inputs, "a"), Ok([3, 0, 0]));
    assert_eq!(rt;
        counts_of(&mut inputs, "c"),
        Ok([0, 0, 0]),
        "a missing file is empty"
    );
    Ok(())
}

#[test]
fn a_failed_read_takes_nothing(rt: HostRuntime) -> Result<(), Fail> {
    let mut inputs = narrow_inputs(rt.alloc(), &[1])?;
    let mut buf = [0u8; 8];
    inputs.start("a")?;
    assert_eq!(rt; inputs.read(&mut buf), Err(Failed));
    assert_eq!(rt; inputs.read(&mut buf), Ok(2));
    assert_eq!(rt; buf[..2], b"12"[..]);
    Ok(())
}

#[test]
fn a_count_sink_takes_everything(rt: HostRuntime) {
    assert_eq!(rt; write_whole(&mut CountSink::new(), b"rows"), Ok(()));
    assert_eq!(rt; CountSink::new().write(b"rows"), Ok(4));
}

#[test]
fn the_real_ones_count_what_the_system_refuses(rt: HostRuntime) -> Result<(), Fail> {
    let mut space = [0u8; 4];
    let mut out = RealSink::over(Cursor::new(space.as_mut_slice()));
    assert_eq!(rt; write_whole(&mut out, b"rows"), Ok(()));
    assert_eq!(rt;
        write_whole(&mut out, b"\n"),
        Err(Failed),
        "there is no room"
    );

    let mut inputs = RealInputs::new(rt.clone()?);
    assert_eq!(rt; counts_of(&mut inputs, "no such file"), Err(Failed));
    assert_eq!(rt; inputs.read(&mut [0u8; 4]), Ok(0), "nothing is started");
    Ok(())
}

#[test]
fn the_open_gate_holds_nobody() {
    OpenGate.before(0, 0);
    OpenGate.after(0, 0);
}
