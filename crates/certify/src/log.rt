// A log in the bytes of its file.
ghost use Rattle.std.specs.Prelude.{◌≡◌, ◌<◌, ◌≤◌, ◌∷◌, length, IfErr, OnOk};
ghost use Rattle.certify.specs.Log.{IsRefused, ReadsLog, TakesLine};
ghost use Rattle.certify.specs.Trim.{cut_lines};

use crate::Claimed;
use crate::fault::{Fault, MAX_BYTES};
use crate::line::{Line, line_of};
use std::alloc::Global;

/// The calls and the order so far, and whether the line `order` was met.
#[derive(Drop)]
pub(crate) struct Log {
    /// The calls, the first of which has the number 1.
    pub(crate) calls: Vec<Claimed>,
    /// The numbers behind the line `order`.
    pub(crate) order: Vec<u64>,
    /// Whether that line was met.
    pub(crate) is_ordered: bool,
}

/// The log that the bytes are, or its first bad line.
pub(crate) fn read_log(alloc: Global, bytes: &[u8]) -> Result<Log, Fault>
    requires { length bytes.now ≤ MAX_BYTES }
    ensures { ReadsLog bytes.now result }
{
    let mut log = Log {
        calls: Vec::new(alloc),
        order: Vec::new(alloc),
        is_ordered: false,
    };
    let mut rest = bytes;
    let mut number = 1;
    while !rest.is_empty() {
        let (text, behind) = first_line(rest);
        take_line(&mut log, number, line_of(text))?;
        rest = behind;
        number += 1;
    }
    if !log.is_ordered {
        return Err(Fault::BadLine { line: number });
    }
    Ok(log)
}

// The first line, and the bytes behind its LF.
fn first_line(bytes: &[u8]) -> (&[u8], &[u8])
    requires { 0 < length bytes.now }
    ensures cut { cut_lines bytes.now ≡ result.0.now ∷ cut_lines result.1.now }
    ensures shorter { length result.1.now < length bytes.now }
{
    for (at, byte) in bytes.iter().enumerate() {
        if *byte == b'\n' {
            return (&bytes[..at], &bytes[at + 1..]);
        }
    }
    (bytes, &bytes[bytes.len()..])
}

// Takes the line of this number, unless it may not stand there.
fn take_line(log: &mut Log, number: u64, line: Line) -> Result<(), Fault>
    ensures takes { OnOk result (TakesLine number line log.old.is_ordered log.new.is_ordered
        log.old.calls.items log.new.calls.items log.old.order.items log.new.order.items) }
    ensures refuses { IfErr result (IsRefused number line log.old.is_ordered) }
{
    match line {
        Line::Blank => Ok(()),
        Line::Claim(claimed) if !log.is_ordered => {
            log.calls.push(claimed)?;
            Ok(())
        }
        Line::Order if !log.is_ordered => {
            log.is_ordered = true;
            Ok(())
        }
        Line::Number(place) if log.is_ordered => {
            log.order.push(place)?;
            Ok(())
        }
        _ => Err(Fault::BadLine { line: number }),
    }
}
