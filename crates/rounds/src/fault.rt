// Why a round isn't started.
ghost use Rattle.std.specs.Prelude.{◌≡◌};
ghost use Rattle.rounds.specs.declared.fault.OpenFault.TheVariants.{NoMemory as OutOfMemory};

use set_model::NoMemory;
use std::alloc::{AllocError, AllocFailed};
use std::error::Error;
use std::fmt;

/// Why a round isn't started. Want of memory never hides that it is too wide.
#[derive(Clone, Copy, Debug, PartialEq, Eq)]
pub enum OpenFault {
    /// The memory that the call asked for was refused.
    NoMemory,
    /// The opening words and the plan's room are together more than 2^28, the most words of a round.
    TooWide {
        /// How many they are together.
        words: u64,
    },
}

impl fmt::Display for OpenFault {
    ghost use Rattle.std.specs.Prelude.{Some};
    ghost use Rattle.rounds.specs.Starts.{fault_text};

    ghost output = { λ fault. Some (fault_text fault) };

    fn fmt<W: fmt::Write>(&self, f: &mut fmt::Formatter<W>) -> fmt::Result {
        match self {
            OpenFault::NoMemory => write!(f, "out of memory"),
            OpenFault::TooWide { words } => write!(f, "a round of {words} words is too wide"),
        }
    }
}

impl Error for OpenFault {}

impl From<NoMemory> for OpenFault {
    ghost from_gives = { λ _ fault. fault ≡ OutOfMemory };

    fn from(_: NoMemory) -> Self {
        OpenFault::NoMemory
    }
}

impl From<AllocError> for OpenFault {
    ghost from_gives = { λ _ fault. fault ≡ OutOfMemory };

    fn from(_: AllocError) -> Self {
        OpenFault::NoMemory
    }
}

impl<T: Drop> From<AllocFailed<T>> for OpenFault {
    ghost from_gives = { λ _ fault. fault ≡ OutOfMemory };

    fn from(_: AllocFailed<T>) -> Self {
        OpenFault::NoMemory
    }
}
