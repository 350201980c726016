/// Places from `from` up to but not including `to`.
#[derive(Clone, Copy, Debug, PartialEq, Eq)]
pub struct Claim {
    /// The first place, from 0.
    pub from: u64,
    /// The place behind the last.
    pub to: u64,
}
