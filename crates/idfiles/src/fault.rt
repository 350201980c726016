// The faults of an id file.
ghost use Rattle.std.specs.Prelude.{◌≡◌};
ghost use Rattle.idfiles.specs.declared.fault.IdFault.TheVariants.{NoMemory};

use std::alloc::{AllocError, AllocFailed};
use std::error::Error;
use std::fmt;

/// Why the ids of a file aren't given: of the faults of its bytes the first one.
#[derive(Clone, Copy, Debug, PartialEq, Eq)]
pub enum IdFault {
    /// The memory that the call asked for was refused.
    NoMemory,
    /// A line is neither blank nor an id. Its end was met, an LF or the end of the file.
    BadLine {
        /// The number of the file, from 1.
        file: u32,
        /// The number of the line in the file, from 1. Empty lines count.
        line: u64,
    },
    /// Starting or reading the file failed, and was counted by the inputs.
    ReadFault {
        /// The number of the file, from 1.
        file: u32,
    },
    /// One byte more than 2^30 was read; it isn't judged.
    TooLong {
        /// The number of the file, from 1.
        file: u32,
    },
    /// A line gives one record more than there is room for.
    TooMany,
}

impl fmt::Display for IdFault {
    ghost use Rattle.std.specs.Prelude.{Some};
    ghost use Rattle.idfiles.specs.Fault.{fault_text};

    ghost output = { λ fault. Some (fault_text fault) };

    fn fmt<W: fmt::Write>(&self, f: &mut fmt::Formatter<W>) -> fmt::Result {
        match self {
            IdFault::NoMemory => write!(f, "out of memory"),
            IdFault::BadLine { file, line } => write!(f, "bad line {file}:{line}"),
            IdFault::ReadFault { file } => write!(f, "read fault in file {file}"),
            IdFault::TooLong { file } => write!(f, "file {file} too long"),
            IdFault::TooMany => write!(f, "too many records"),
        }
    }
}

impl Error for IdFault {}

impl From<AllocError> for IdFault {
    ghost from_gives = { λ _ e. e ≡ NoMemory };

    fn from(_: AllocError) -> Self {
        IdFault::NoMemory
    }
}

impl<T: Drop> From<AllocFailed<T>> for IdFault {
    ghost from_gives = { λ _ e. e ≡ NoMemory };

    fn from(_: AllocFailed<T>) -> Self {
        IdFault::NoMemory
    }
}

/// The most bytes of a file that are judged: 2^30.
pub const MAX_BYTES: usize = 1 << 30;
