// What a history makes of a set.
ghost use Rattle.std.specs.Prelude.{◌≡◌, ◌↔◌, ℕ, Bool, IsTrue, OnOk, OnErr};
ghost use Rattle.std.specs.FinSet as set;
ghost use Rattle.set_model.specs.History.{set_after, members_after, IsLegal, IsLegalFrom, StopsAtInsert};
ghost use Rattle.set_model.specs.Keys.{IsTestOf};

use crate::{Entry, NoMemory, PlainSet};

impl PlainSet {
    /// Makes the calls of the history in order, whatever answers it tells. After `NoMemory` those
    /// before an insert of an absent key were made.
    pub fn replay(&mut self, history: &[Entry]) -> Result<(), NoMemory>
        ensures after { OnOk result (self.new ≡ set_after self.old history.now) }
        ensures refused { OnErr result (StopsAtInsert self.old self.new history.now) }
    {
        for entry in history {
            self.apply(entry.call, entry.key)?;
        }
        Ok(())
    }

    /// Whether the key is in the set that the history would leave. Takes no memory.
    pub fn holds_after(&self, history: &[Entry], key: u64) -> bool
        ensures set { result ≡ set.contains (set_after self.now history.now) key }
        ensures test { (members : ℕ → Bool) → IsTestOf members self.now
            → result ≡ members_after members history.now key }
    {
        let mut present = self.holds(key);
        for entry in history {
            present = entry.leaves(key, present);
        }
        present
    }

    /// Whether each answer in the history is that of a plain set at its place, which begins as this
    /// one. Takes no memory, and time in the square of the history's length.
    pub fn accepts(&self, history: &[Entry]) -> bool
        ensures set { IsTrue result ↔ IsLegalFrom self.now history.now }
        ensures test { (members : ℕ → Bool) → IsTestOf members self.now
            → (IsTrue result ↔ IsLegal members history.now) }
    {
        for (place, entry) in history.iter().enumerate() {
            let present = self.holds_after(&history[..place], entry.key);
            if entry.answer != entry.call.answer(present) {
                return false;
            }
        }
        true
    }
}
