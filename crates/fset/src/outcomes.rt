// How a call on the set ends, and how one try of it and the seek of its key's row do.

use crate::Sought;

/// The answer of an insert or a remove.
#[derive(Clone, Copy, Debug, PartialEq, Eq)]
pub struct Answered {
    /// Whether the call changed the set: an insert, where the key was absent, or a remove, where it
    /// was present.
    pub changed: bool,
    /// The number of keys, after the call, of the row that the pass published or read for it.
    pub width: u32,
}

/// How a call ends.
#[derive(Clone, Copy, Debug, PartialEq, Eq)]
pub enum Outcome {
    /// It was answered.
    Done(Answered),
    /// All its turns were lost to other passes. It has no entry in the history and will have none.
    Busy,
    /// A draw of the pass passed the end of the arena, now or before. The call has no entry in the
    /// history and will have none.
    Full,
}

/// How one try of a call ends.
#[derive(Clone, Copy, Debug, PartialEq, Eq)]
pub enum Turn {
    /// It was answered.
    Done(Answered),
    /// Another pass exchanged the bucket's row meanwhile, or had the bucket frozen, as it is one of a head
    /// that was replaced. The call has no entry, and may be tried again.
    Lost,
    /// A draw of the pass passed the end of the arena, now or before. The call has no entry.
    Full,
}

/// How the seek of a key's row in a turn ends.
#[derive(Clone, Copy, Debug, PartialEq, Eq)]
pub enum Seek {
    /// It was found, and the turn is open.
    Found(Sought),
    /// The key's bucket was frozen when it was loaded, as it is one of a head that was replaced. The
    /// turn is lost.
    Frozen,
    /// The key's bucket was nil, and a draw of the pass for a row to fill it with passed the end of the
    /// arena, now or before.
    Full,
}
