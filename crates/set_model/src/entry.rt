// One entry of a history: a call, its key, and the answer that is told of it.
ghost use Rattle.std.specs.Prelude.{◌≡◌, ℕ, Bool};
ghost use Rattle.set_model.specs.Call.{members_after_call};

use crate::Call;

/// One answered call of a history.
#[derive(Clone, Copy, Debug, PartialEq, Eq)]
pub struct Entry {
    /// The number of the pass that made the call, from 0.
    pub who: u32,
    /// How many calls this pass had begun before this one in its round.
    pub serial: u64,
    /// What was asked.
    pub call: Call,
    /// The key at which it was asked.
    pub key: u64,
    /// What was answered.
    pub answer: bool,
}

impl Entry {
    /// Whether the key is present after this entry, where `present` says whether it was before.
    pub(crate) fn leaves(&self, key: u64, present: bool) -> bool
        ensures { (members : ℕ → Bool) → members key ≡ present
            → result ≡ members_after_call self.now.call self.now.key members key }
    {
        if key != self.key {
            return present;
        }
        match self.call {
            Call::Insert => true,
            Call::Remove => false,
            Call::Contains => present,
        }
    }
}
