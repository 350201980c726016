// The verdict on a claimed order.
ghost use Rattle.std.specs.Prelude.{◌≡◌, ℕ, ◌-◌, ◌<◌, ◌≤◌, ◌↔◌, true, false, length, slice_index, slice_index_or, IfOk, MatchBool, ◌++◌, ◌∷◌, [], List};
ghost use Rattle.certify.specs.Order.{IsLegalOrder, IsVerdict};
ghost use Rattle.certify.specs.Place.{IsLast, callers};
ghost use Rattle.certify.specs.Judging.{HasJudged, IsFirstMissing, IsJudged, verdict_at};

use crate::members::apply;
use crate::previous::previous_calls;
use crate::{Claimed, Verdict};
use set_model::NoMemory;
use std::alloc::Global;
use std::collections::HashSet;

/// What a number is found to be at its place.
#[derive(Clone, Copy)]
pub(crate) enum Judged {
    /// Nothing is wrong.
    Fine,
    /// No call has it.
    Unknown,
    /// An earlier place has it.
    Repeated,
    /// An earlier call of the same caller stands at no earlier place.
    Early,
    /// The answer isn't a plain set's.
    Wrong,
}

impl Judged {
    // The verdict on an order in which this is found at the place first, if anything is wrong.
    fn verdict(self, place: u64) -> Option<Verdict>
        ensures { result ≡ verdict_at place self }
    {
        match self {
            Judged::Fine => None,
            Judged::Unknown => Some(Verdict::Unknown { place }),
            Judged::Repeated => Some(Verdict::Repeated { place }),
            Judged::Early => Some(Verdict::Early { place }),
            Judged::Wrong => Some(Verdict::Wrong { place }),
        }
    }
}

/// The verdict on the order: what is wrong at the first place at which something is. Memory is
/// taken for the flags of the calls, for the members, and for each caller's last call; at a place
/// none of them is searched.
pub fn check_order(alloc: Global, calls: &[Claimed], order: &[u64]) -> Result<Verdict, NoMemory>
    ensures verdict { IfOk result (IsVerdict calls.now order.now) }
    ensures legal { IfOk result (λ verdict.
        (verdict ≡ Verdict.Legal) ↔ IsLegalOrder calls.now order.now) }
{
    first_wrong(alloc, calls, order)
}

// The same, found place by place.
fn first_wrong(alloc: Global, calls: &[Claimed], order: &[u64]) -> Result<Verdict, NoMemory>
    ensures { IfOk result (IsVerdict calls.now order.now) }
{
    let previous = previous_calls(alloc, calls)?;
    let mut seen = vec![in alloc; false; calls.len()]?;
    let mut members = HashSet::new(alloc);
    for (index, number) in order.iter().enumerate() {
        let judged = judge(calls, &previous, &mut seen, &mut members, *number)?;
        if let Some(verdict) = judged.verdict(index as u64 + 1) {
            return Ok(verdict);
        }
    }
    Ok(unless_missing(&seen))
}

// The verdict where nothing is wrong at any place: the first call without a flag is missing.
fn unless_missing(seen: &[bool]) -> Verdict
    ensures { IsFirstMissing seen.now result }
{
    match seen.iter().position(|flag| !*flag) {
        Some(index) => Verdict::Missing {
            number: index as u64 + 1,
        },
        None => Verdict::Legal,
    }
}

// Judges the number behind some that are fine, and makes its call where it is fine too.
fn judge(
    calls: &[Claimed],
    previous: &[usize],
    seen: &mut [bool],
    members: &mut HashSet<u64>,
    number: u64,
) -> Result<Judged, NoMemory>
    requires previous { length previous.now ≡ length calls.now }
    requires seen { length seen.old ≡ length calls.now }
    requires last { (k : ℕ) → k < length calls.now → IsLast
        (callers calls.now) k (slice_index (callers calls.now) k) (slice_index previous.now k) }
    ensures judged { IfOk result (λ judged. (earlier : List ℕ)
        → HasJudged calls.now earlier seen.old members.old
        → IsJudged calls.now earlier number judged) }
    ensures goes_on { IfOk result (λ judged. judged ≡ Judged.Fine → (earlier : List ℕ)
        → HasJudged calls.now earlier seen.old members.old
        → HasJudged calls.now (earlier ++ number ∷ []) seen.new members.new) }
{
    if number == 0 || number > calls.len() as u64 {
        return Ok(Judged::Unknown);
    }
    let index = (number - 1) as usize;
    if seen[index] {
        return Ok(Judged::Repeated);
    }
    if is_unseen(seen, previous[index]) {
        return Ok(Judged::Early);
    }
    let claimed = calls[index];
    if apply(members, claimed.call, claimed.key)? != claimed.answer {
        return Ok(Judged::Wrong);
    }
    seen[index] = true;
    Ok(Judged::Fine)
}

// Whether the call of this number has no flag; there is none of the number 0.
fn is_unseen(seen: &[bool], number: usize) -> bool
    requires { number ≤ length seen.now }
    ensures { MatchBool result
        ((0 < number) × (slice_index_or seen.now (number - 1) false ≡ false))
        (0 < number → slice_index_or seen.now (number - 1) false ≡ true) }
{
    number > 0 && !seen[number - 1]
}
