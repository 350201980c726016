// Which call each caller made before.
ghost use Rattle.std.specs.Prelude.{◌≡◌, ℕ, ◌<◌, length, slice_index, vec_len, IfOk};
ghost use Rattle.certify.specs.Place.{IsLast, callers};

use crate::Claimed;
use set_model::NoMemory;
use std::alloc::Global;
use std::collections::HashMap;

/// For each call the number, from 1, of the last call that its caller made before, or 0 where there
/// is none.
pub(crate) fn previous_calls(alloc: Global, calls: &[Claimed]) -> Result<Vec<usize>, NoMemory>
    ensures len { IfOk result (λ previous. vec_len previous ≡ length calls.now) }
    ensures last { IfOk result (λ previous. (k : ℕ) → k < length calls.now → IsLast
        (callers calls.now) k (slice_index (callers calls.now) k) (slice_index previous.items k)) }
{
    let mut last = HashMap::new(alloc);
    let mut previous = Vec::with_capacity(alloc, calls.len())?;
    for (index, claimed) in calls.iter().enumerate() {
        let before = last.insert(claimed.who, index + 1)?;
        previous.push(before.unwrap_or(0))?;
    }
    Ok(previous)
}
