// How a resize ends.

/// How a growth or a shrinking of the table ends.
#[derive(Clone, Copy, Debug, PartialEq, Eq)]
pub enum Resized {
    /// The head was exchanged for a generation of this exponent.
    Changed { exponent: u32 },
    /// Another pass had exchanged the head meanwhile: the one found has this address.
    Moved { head: u64 },
    /// The head has the greatest exponent, 24, or the least, 0, already.
    AtLimit,
    /// A draw of the pass passed the end of the arena, now or before. Some buckets of the head may
    /// have been filled.
    Full,
}
