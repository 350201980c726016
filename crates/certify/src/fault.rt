ghost use Rattle.std.specs.Prelude.{◌≡◌, ◌≤◌, take};
ghost use Rattle.certify.specs.Ending.{line_of, status_of_fault};

use crate::print::{put, put_number};
use set_model::NoMemory;
use std::alloc::{AllocError, AllocFailed};

/// The most bytes of a file that are judged: 2^24.
pub(crate) const MAX_BYTES: usize = 1 << 24;

/// Why there is no verdict.
#[derive(Clone, Copy, Debug, PartialEq, Eq)]
pub(crate) enum Fault {
    /// The memory that was asked for was refused.
    NoMemory,
    /// The words are not the command.
    BadWords,
    /// A line may not stand where it stands, or the line `order` is missing.
    BadLine {
        /// The number of the line, from 1. Empty lines count.
        line: u64,
    },
    /// The file could not be read.
    Read,
    /// The output could not be written.
    Write,
    /// The file has more than 2^24 bytes.
    TooLong,
}

impl Fault {
    /// The status that the run ends with.
    pub(crate) fn status(self) -> u8
        ensures { result ≡ status_of_fault self }
    {
        match self {
            Fault::NoMemory => 1,
            Fault::BadWords => 2,
            Fault::BadLine { .. } => 3,
            Fault::Read => 4,
            Fault::Write => 5,
            Fault::TooLong => 6,
        }
    }

    /// Writes the line that tells it to the front of the buffer, and gives the number of bytes.
    pub(crate) fn line(self, buf: &mut [u8; 64]) -> usize
        ensures length { result ≤ 64 }
        ensures text { take result buf.new ≡ line_of self }
    {
        match self {
            Fault::NoMemory => put(buf, 0, b"certify: out of memory\n"),
            Fault::BadWords => put(buf, 0, b"certify: bad words\n"),
            Fault::BadLine { line } => {
                let mut end = put(buf, 0, b"certify: bad line ");
                end = put_number(buf, end, line);
                put(buf, end, b"\n")
            }
            Fault::Read => put(buf, 0, b"certify: read fault\n"),
            Fault::Write => put(buf, 0, b"certify: write fault\n"),
            Fault::TooLong => put(buf, 0, b"certify: too long\n"),
        }
    }
}

impl From<NoMemory> for Fault {
    ghost use Rattle.certify.specs.declared.fault.Fault.TheVariants.{NoMemory};

    ghost from_gives = { λ _ fault. fault ≡ NoMemory };

    fn from(_: NoMemory) -> Self {
        Fault::NoMemory
    }
}

impl From<AllocError> for Fault {
    ghost use Rattle.certify.specs.declared.fault.Fault.TheVariants.{NoMemory};

    ghost from_gives = { λ _ fault. fault ≡ NoMemory };

    fn from(_: AllocError) -> Self {
        Fault::NoMemory
    }
}

impl<T: Drop> From<AllocFailed<T>> for Fault {
    ghost use Rattle.certify.specs.declared.fault.Fault.TheVariants.{NoMemory};

    ghost from_gives = { λ _ fault. fault ≡ NoMemory };

    fn from(_: AllocFailed<T>) -> Self {
        Fault::NoMemory
    }
}
