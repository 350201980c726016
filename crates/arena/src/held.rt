use std::collections::LinkedList;

/// A block in hand. No value of it is made: views have it, for contracts and proofs alone.
pub struct Held {
    /// Where it begins, in words from the arena's first.
    pub at: u64,
    /// Its words, as the arena has them.
    pub words: LinkedList<u64>,
}
