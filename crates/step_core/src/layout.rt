/// How a round's words are laid out.
#[derive(Clone, Copy, Debug, PartialEq, Eq)]
pub struct Layout {
    /// The number of passes.
    pub seats: u32,
    /// The number of words: the first place past the arena.
    pub cap: u64,
}

/// How the calls of a round work.
#[derive(Clone, Copy, Debug, PartialEq, Eq)]
pub struct Plan {
    /// The number of passes, 1 to 64.
    pub seats: u32,
    /// How many turns a changing call tries on its own, 0 to 1,000,000; not 0 where `turns` is 0.
    pub fast: u32,
    /// How many turns a call may lose before it gives up helping and its own operation, 0 to
    /// 1,000,000.
    pub turns: u32,
    /// The number of words behind the opening, at most 2^28.
    pub room: u64,
}
