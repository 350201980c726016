// Rounds, one behind the other, until each record's insert was answered.
ghost use Rattle.std.specs.Prelude.{◌≡◌, ℕ, ◌≤◌, List, [], length, All, IfOk};
ghost use Rattle.std.specs.List.{range_with_len};
ghost use Rattle.step_core.specs.Limits.{max_keys};
ghost use Rattle.dedup.specs.Rounds.{HasInserted, HasWorkers, IsRunPlan, IsRunSoFar};

use crate::one_round::{EndedRound, one_round};
use crate::so_far::SoFar;
use idfiles::IdRecord;
use outside::Gate;
use rounds::Plan;
use set_model::NoMemory;
use std::alloc::Global;
use std::thread::Threads;

/// What all rounds of a run share.
#[derive(Drop)]
pub(crate) struct Phase<'a, G> {
    /// How each round is made.
    pub(crate) plan: Plan,
    /// The records of the run.
    pub(crate) records: &'a [IdRecord],
    /// Is called round each insert.
    pub(crate) gate: &'a G,
}

/// What all rounds of a run leave.
#[derive(Drop)]
pub(crate) struct Inserted {
    /// The keys of the set, rising.
    pub(crate) keys: Vec<u64>,
    /// The numbers of the records whose insert changed the set.
    pub(crate) changed: Vec<u32>,
}

/// Puts the ids of all records into the set, in as many rounds as it takes. Where memory is refused
/// `so_far` has rounds that ended before that, behind which records may be left.
pub(crate) fn insert_all<R: Threads + Sync, G: Gate>(
    rt: &R,
    alloc: Global,
    phase: &Phase<'_, G>,
    so_far: &mut SoFar,
) -> Result<Inserted, NoMemory>
    requires plan { IsRunPlan phase.now.plan }
    requires few { length phase.now.records.now ≤ max_keys }
    requires none { so_far.old ≡ [] }
    ensures inserted { IfOk result (λ inserted. HasInserted phase.now.records.now
        phase.now.plan so_far.new inserted.keys.items [] inserted.changed.items) }
    ensures so_far { (left : List ℕ)
        × IsRunSoFar phase.now.records.now phase.now.plan so_far.new left }
    ensures workers { All (HasWorkers phase.now.plan.seats) so_far.new }
{
    let mut keys = Vec::new(alloc);
    let mut changed = Vec::new(alloc);
    let mut left = numbers_below(alloc, phase.records.len())?;
    'rounds: while !left.is_empty() {
        let EndedRound {
            closing,
            settled,
            made,
            changed: more,
            keys: next,
            left: rests,
        } = one_round(rt, alloc, phase, keys, &left)?;
        changed.extend_from_slice(&more)?;
        so_far.push(closing, settled, made)?;
        keys = next;
        left = rests;
    }
    Ok(Inserted { keys, changed })
}

// The numbers of so many records.
fn numbers_below(alloc: Global, count: usize) -> Result<Vec<u32>, NoMemory>
    requires { count ≤ max_keys }
    ensures { IfOk result (λ numbers. numbers.items ≡ range_with_len 0 count) }
{
    let mut numbers = Vec::with_capacity(alloc, count)?;
    for number in 0..count {
        numbers.push(number as u32)?;
    }
    Ok(numbers)
}
