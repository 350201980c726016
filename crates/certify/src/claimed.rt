use set_model::Call;

/// One call of a log: who made it, what was asked, and what was answered.
#[derive(Clone, Copy, Debug, PartialEq, Eq)]
pub struct Claimed {
    /// The caller's number.
    pub who: u32,
    /// What was asked.
    pub call: Call,
    /// The key at which it was asked.
    pub key: u64,
    /// What was answered.
    pub answer: bool,
}
