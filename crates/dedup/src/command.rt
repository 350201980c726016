// The command: what the words of a run ask for.
ghost use Rattle.std.specs.Prelude.{◌≡◌};
ghost use Rattle.dedup.specs.Rounds.{plan_of};

use rounds::Plan;

/// The greatest number of FILEs in one command.
pub(crate) const MAX_FILES: usize = 64;

/// The greatest number of workers that can be asked for.
pub(crate) const MAX_WORKERS: u64 = 64;

/// The greatest number of digits that a number of workers is written in.
pub(crate) const MAX_WORKERS_DIGITS: usize = 3;

/// The number of workers where none is asked for.
pub(crate) const DEFAULT_WORKERS: u64 = 4;

/// The greatest room of a round that can be asked for, in words of 64 bits.
pub(crate) const MAX_ROOM: u64 = 134_217_728;

/// The greatest number of digits that a room is written in.
pub(crate) const MAX_ROOM_DIGITS: usize = 9;

/// The room of a round where none is asked for, in words of 64 bits.
pub(crate) const DEFAULT_ROOM: u64 = 16_777_216;

/// The greatest number of records of a run.
pub(crate) const MAX_RECORDS: usize = 16_777_216;

/// How many turns of an insert are tried before it is refused.
pub(crate) const TRIED_TURNS: u32 = 64;

/// Which list of the distinct ids is written.
#[derive(Clone, Copy, Debug, PartialEq, Eq)]
pub(crate) enum Listing {
    /// Each id with the file and the line of the record whose insert changed the set.
    Keep,
    /// The ids.
    Ids,
    /// One line: the number of records and the number of ids.
    Count,
}

/// What the words ask for.
#[derive(Drop)]
pub(crate) struct Command<'a> {
    /// The number of workers, 1 to `MAX_WORKERS`.
    pub(crate) workers: u32,
    /// The room of a round, in words of 64 bits: 0 to `MAX_ROOM`.
    pub(crate) room: u64,
    /// The list that is written.
    pub(crate) listing: Listing,
    /// The files that are read, 1 to `MAX_FILES`, in the order of the words.
    pub(crate) files: Vec<&'a str>,
}

impl Command<'_> {
    /// How the rounds are planned.
    pub(crate) fn plan(&self) -> Plan
        ensures { result ≡ plan_of self.now.workers self.now.room }
    {
        Plan {
            seats: self.workers,
            fast: TRIED_TURNS,
            turns: 0,
            room: self.room,
        }
    }
}
