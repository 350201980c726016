/// One atomic step on one word. Places are word numbers from 0; docs/STEPS.md says when each may be
/// used.
#[derive(Clone, Copy, Debug, PartialEq, Eq)]
pub enum Step {
    /// Loads HEAD. Gives the address of the head generation.
    LoadHead,
    /// Loads a word that no longer changes. Gives it.
    LoadSealed {
        /// The word's place.
        at: u64,
    },
    /// Loads a bucket word. Gives it.
    LoadBucket {
        /// The bucket word's place.
        at: u64,
    },
    /// Raises NEXT. Gives NEXT as it was, which is the first word of the block drawn.
    Draw {
        /// How many words are drawn.
        len: u64,
    },
    /// Stores a value into a word. Gives the value.
    Write {
        /// The word's place.
        at: u64,
        /// The value.
        value: u64,
    },
    /// Compares a bucket word and exchanges it: `new` goes in exactly where the word is `old`.
    /// Gives the word as it was.
    SwapRow {
        /// The bucket word's place.
        at: u64,
        /// The word that is expected there.
        old: u64,
        /// The word that takes its place.
        new: u64,
    },
    /// Fills a bucket: `new` goes in exactly where the bucket word is 0. Gives the word as it was.
    InitBucket {
        /// The bucket word's place.
        at: u64,
        /// The word that goes in.
        new: u64,
    },
    /// Freezes a bucket: its word becomes odd, and names the same row. Gives the word as it was.
    Freeze {
        /// The bucket word's place.
        at: u64,
    },
    /// Compares HEAD and exchanges it: `new` goes in exactly where HEAD is `old`. Gives HEAD as it
    /// was.
    SwapHead {
        /// The head that is expected.
        old: u64,
        /// The address of the generation that takes its place.
        new: u64,
    },
}
