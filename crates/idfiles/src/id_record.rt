// A record of an id file.

/// An id, and where it stands.
#[derive(Clone, Copy, Debug, PartialEq, Eq)]
pub struct IdRecord {
    /// The number of its file, from 1.
    pub file: u32,
    /// The number of its line in the file, from 1. Empty lines count.
    pub line: u64,
    /// The id.
    pub id: u64,
}
