// The plain set, and its calls.
ghost use Rattle.std.specs.Prelude.{◌≡◌, ℕ, false, List, IfOk, OnOk, OnErr};
ghost use Rattle.std.specs.List.Sorted.{IsStrictlyIncreasing};
ghost use Rattle.std.specs.Ordering.{nat_cmp};
ghost use Rattle.std.specs.Coded.{coded_ℕ};
ghost use Rattle.std.specs.FinSet as set;
ghost use Rattle.set_model.specs.Keys.{keys_set, is_in, IsTestOf};
ghost use Rattle.set_model.specs.Call.{answer_of, set_after_call};

use crate::{Call, NoMemory, sorted};
use std::alloc::Global;
use std::marker::Model;

/// A set of keys, one caller at a time. It keeps them in a rising vector.
#[derive(Drop)]
pub struct PlainSet {
    keys: Vec<u64>,
}

impl Model for PlainSet {
    ghost Value = { set.FinSet nat_cmp };

    ghost coded = { set.code coded_ℕ };

    ghost view = { λ s. keys_set s.keys.items };

    ghost invariant = { λ s. IsStrictlyIncreasing s.keys.items };
}

impl PlainSet {
    /// The empty set. Takes no memory; `alloc` serves later inserts.
    pub fn new(alloc: Global) -> Self
        ensures { result ≡ set.empty }
    {
        PlainSet {
            keys: Vec::new(alloc),
        }
    }

    /// The set of these keys, which rise strictly. Takes no memory; the vector is kept.
    pub fn from_sorted(keys: Vec<u64>) -> Self
        requires rising { IsStrictlyIncreasing keys.items }
        ensures set { result ≡ keys_set keys.items }
        ensures test { IsTestOf (is_in keys.items) result }
    {
        PlainSet { keys }
    }

    /// Makes one call at the key and gives its answer. `NoMemory` comes only for an insert of an
    /// absent key, and the set is then as it was.
    pub fn apply(&mut self, call: Call, key: u64) -> Result<bool, NoMemory>
        ensures answer { IfOk result (λ answer. answer ≡ answer_of call key self.old) }
        ensures after { OnOk result (self.new ≡ set_after_call call key self.old) }
        ensures no_memory { OnErr result
            ((call ≡ Call.Insert) × (set.contains self.old key ≡ false)) }
        ensures refused { OnErr result (self.new ≡ self.old) }
    {
        match call {
            Call::Insert => match sorted::find(&self.keys, key) {
                Ok(_) => Ok(false),
                Err(place) => {
                    sorted::put(&mut self.keys, place, key)?;
                    Ok(true)
                }
            },
            Call::Remove => match sorted::find(&self.keys, key) {
                Ok(place) => {
                    sorted::take_out(&mut self.keys, place);
                    Ok(true)
                }
                Err(_) => Ok(false),
            },
            Call::Contains => Ok(self.holds(key)),
        }
    }

    /// Whether the key is in the set. Takes no memory.
    pub fn holds(&self, key: u64) -> bool
        ensures { result ≡ set.contains self.now key }
    {
        sorted::find(&self.keys, key).is_ok()
    }

    /// The keys of the set, each once, rising. Takes no memory.
    pub fn keys(&self) -> &[u64]
        ensures set { keys_set result.now ≡ self.now }
        ensures rising { IsStrictlyIncreasing result.now }
    {
        &self.keys
    }

    /// The keys of the set, each once, rising, in the vector that the set kept. Takes no memory.
    pub fn into_keys(self) -> Vec<u64>
        ensures set { keys_set result.items ≡ self }
        ensures rising { IsStrictlyIncreasing result.items }
        // There is one such list, so the items are those that the set was made of.
        ensures only { (keys : List ℕ) → IsStrictlyIncreasing keys → keys_set keys ≡ self
            → result.items ≡ keys }
    {
        let PlainSet { keys } = self;
        keys
    }
}
