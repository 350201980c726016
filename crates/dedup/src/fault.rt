// Why a run fails: its status, and the line that tells it.
ghost use Rattle.std.specs.Prelude.{◌≡◌, ◌+◌, ◌≤◌, ◌++◌, decimal};
ghost use Rattle.arrayvec.specs.ArrayString.{array_string_len};
ghost use Rattle.idfiles.specs.Fault.{fault_text};
ghost use Rattle.idfiles.specs.Limits.{most_digits};
ghost use Rattle.dedup.specs.Fault.{fault_line, status_of_fault, status_of_ids};

use arrayvec::ArrayString;
use idfiles::IdFault;
use itoa::Buffer;
use set_model::NoMemory;
use std::alloc::{AllocError, AllocFailed};

/// Why a run printed nothing, or not all.
#[derive(Clone, Copy, Debug, PartialEq, Eq)]
pub(crate) enum Fault {
    /// The words are not the command.
    BadWords,
    /// Memory was refused, or the ids of the files aren't given.
    Ids(IdFault),
    /// The output could not be written.
    Write,
}

// Writes the digits of the number behind the line.
fn push_number(line: &mut ArrayString<64>, number: u64)
    requires { array_string_len line.old + most_digits ≤ 64 }
    ensures text { line.new.bytes ≡ line.old.bytes ++ decimal number }
    ensures len { array_string_len line.new ≤ array_string_len line.old + most_digits }
{
    let mut buffer = Buffer::new();
    line.push_str(buffer.format(number));
}

// Writes what the fault is called behind the line.
fn push_ids(line: &mut ArrayString<64>, fault: IdFault)
    requires { array_string_len line.old ≤ 7 }
    ensures text { line.new.bytes ≡ line.old.bytes ++ fault_text fault }
    ensures len { array_string_len line.new ≤ 63 }
{
    match fault {
        IdFault::NoMemory => line.push_str("out of memory"),
        IdFault::BadLine { file, line: place } => {
            line.push_str("bad line ");
            push_number(line, u64::from(file));
            line.push_str(":");
            push_number(line, place);
        }
        IdFault::ReadFault { file } => {
            line.push_str("read fault in file ");
            push_number(line, u64::from(file));
        }
        IdFault::TooLong { file } => {
            line.push_str("file ");
            push_number(line, u64::from(file));
            line.push_str(" too long");
        }
        IdFault::TooMany => line.push_str("too many records"),
    }
}

// The status where memory was refused or the ids of the files aren't given.
fn status_of_ids(fault: IdFault) -> u8
    ensures { result ≡ status_of_ids fault }
{
    match fault {
        IdFault::NoMemory => 1,
        IdFault::BadLine { .. } => 3,
        IdFault::ReadFault { .. } => 4,
        IdFault::TooLong { .. } | IdFault::TooMany => 6,
    }
}

impl Fault {
    /// The status that the run ends with.
    pub(crate) fn status(self) -> u8
        ensures { result ≡ status_of_fault self }
    {
        match self {
            Fault::BadWords => 2,
            Fault::Ids(fault) => status_of_ids(fault),
            Fault::Write => 5,
        }
    }

    /// The line that tells it, with its LF.
    pub(crate) fn line(self) -> ArrayString<64>
        ensures { result.bytes ≡ fault_line self }
    {
        let mut line = ArrayString::new();
        line.push_str("dedup: ");
        match self {
            Fault::BadWords => line.push_str("bad words"),
            Fault::Ids(fault) => push_ids(&mut line, fault),
            Fault::Write => line.push_str("write fault"),
        }
        line.push_str("\n");
        line
    }
}

impl From<IdFault> for Fault {
    ghost use Rattle.dedup.specs.declared.fault.Fault.TheVariants.{Ids};

    ghost from_gives = { λ ids fault. fault ≡ Ids ids };

    fn from(fault: IdFault) -> Self {
        Fault::Ids(fault)
    }
}

impl From<NoMemory> for Fault {
    ghost use Rattle.idfiles.specs.declared.fault.IdFault.TheVariants.{NoMemory};
    ghost use Rattle.dedup.specs.declared.fault.Fault.TheVariants.{Ids};

    ghost from_gives = { λ _ fault. fault ≡ Ids NoMemory };

    fn from(_: NoMemory) -> Self {
        Fault::Ids(IdFault::NoMemory)
    }
}

impl From<AllocError> for Fault {
    ghost use Rattle.idfiles.specs.declared.fault.IdFault.TheVariants.{NoMemory};
    ghost use Rattle.dedup.specs.declared.fault.Fault.TheVariants.{Ids};

    ghost from_gives = { λ _ fault. fault ≡ Ids NoMemory };

    fn from(_: AllocError) -> Self {
        Fault::Ids(IdFault::NoMemory)
    }
}

impl<T: Drop> From<AllocFailed<T>> for Fault {
    ghost use Rattle.idfiles.specs.declared.fault.IdFault.TheVariants.{NoMemory};
    ghost use Rattle.dedup.specs.declared.fault.Fault.TheVariants.{Ids};

    ghost from_gives = { λ _ fault. fault ≡ Ids NoMemory };

    fn from(_: AllocFailed<T>) -> Self {
        Fault::Ids(IdFault::NoMemory)
    }
}
