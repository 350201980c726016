// Rising keys in a vector: where a key is, and the two edits.
ghost use Rattle.std.specs.Prelude.{◌≡◌, ℕ, ◌<◌, ◌≤◌, length, slice_index, vec_len, is_ok, IfOk, IfErr, OnOk, OnErr};
ghost use Rattle.std.specs.List.Sorted.{IsStrictlyIncreasing};
ghost use Rattle.std.specs.FinSet as set;
ghost use Rattle.set_model.specs.Keys.{keys_set, IsPlaceFor};

use crate::NoMemory;

/// The place of the key, or the place where it would stand.
pub(crate) fn find(keys: &[u64], key: u64) -> Result<usize, usize>
    requires { IsStrictlyIncreasing keys.now }
    ensures present { is_ok result ≡ set.contains (keys_set keys.now) key }
    ensures found { IfOk result (λ place.
        (place < length keys.now) × (slice_index keys.now place ≡ key)) }
    ensures absent { IfErr result (IsPlaceFor key keys.now) }
{
    keys.binary_search(&key)
}

/// Puts the key at its place. After `NoMemory` the keys are as they were.
pub(crate) fn put(keys: &mut Vec<u64>, place: usize, key: u64) -> Result<(), NoMemory>
    requires rising { IsStrictlyIncreasing keys.old.items }
    requires place { IsPlaceFor key keys.old.items place }
    ensures ok { OnOk result (keys_set keys.new.items ≡ set.insert (keys_set keys.old.items) key) }
    ensures rising { IsStrictlyIncreasing keys.new.items }
    ensures refused { OnErr result (keys.new.items ≡ keys.old.items) }
{
    keys.insert(place, key)?;
    Ok(())
}

/// Takes the key at the place away.
pub(crate) fn take_out(keys: &mut Vec<u64>, place: usize)
    requires rising { IsStrictlyIncreasing keys.old.items }
    requires place { place < vec_len keys.old }
    ensures after { keys_set keys.new.items
        ≡ set.remove (keys_set keys.old.items) (slice_index keys.old.items place) }
    ensures rising { IsStrictlyIncreasing keys.new.items }
{
    keys.remove(place);
}
