// The members of the set so far, of which no list is searched.
ghost use Rattle.std.specs.Prelude.{◌≡◌, ℕ, Bool, nat_eq, IfOk, OnOk};
ghost use Rattle.std.specs.HashSet.{contains};
ghost use Rattle.set_model.specs.Call.{answer_where, members_after_call};

use set_model::{Call, NoMemory};
use std::collections::HashSet;

/// Makes the call at the key, and gives the answer of a plain set with these members. After
/// `NoMemory` they are as they were.
pub(crate) fn apply(members: &mut HashSet<u64>, call: Call, key: u64) -> Result<bool, NoMemory>
    ensures answer { IfOk result (λ answer.
        answer ≡ answer_where call (contains nat_eq members.old key)) }
    ensures after { OnOk result ((other : ℕ) → contains nat_eq members.new other
        ≡ members_after_call call key (contains nat_eq members.old) other) }
{
    match call {
        Call::Insert => Ok(members.insert(key)?),
        Call::Remove => Ok(members.remove(&key)),
        Call::Contains => Ok(members.contains(&key)),
    }
}
