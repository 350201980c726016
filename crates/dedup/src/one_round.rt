// One round of a run: it is started, worked in, ended, and what it refused is settled.
ghost use Rattle.std.specs.Prelude.{◌≡◌, ℕ, ◌<◌, ◌≤◌, length, map, flat_map, All, IfOk};
ghost use Rattle.std.specs.List.Sorted.{IsStrictlyIncreasing};
ghost use Rattle.cells.specs.Ends.{AreAllPasses};
ghost use Rattle.cells.specs.Tokens.{fresh_passes};
ghost use Rattle.rounds.specs.Closings.{Closes};
ghost use Rattle.rounds.specs.Halts.{AreAtRest};
ghost use Rattle.rounds.specs.Starts.{StartsRound};
ghost use Rattle.step_core.specs.Limits.{max_keys, max_passes};
ghost use Rattle.dedup.specs.Crews.{HaveDone};
ghost use Rattle.dedup.specs.Rounds.{AddsRound, ClosesRound, IsLeft, IsRunPlan, SettlesRound, lists_in};
ghost use Rattle.dedup.specs.Settling.{CanSettle, lists_of};
ghost use Rattle.dedup.specs.Workers.{IsJob};

use crate::crew::{Returned, hand_in, has_failed, rests_of, work_all, workers_of};
use crate::phase::Phase;
use crate::settle::{append_changed, settle};
use crate::worker::{Hand, Job, Worker};
use idfiles::IdRecord;
use outside::Gate;
use rounds::{Closing, Halted, OpenFault, Pass, Plan, Round, end_round, halt_round, start_round};
use set_model::{Entry, NoMemory, PlainSet};
use std::alloc::Global;
use std::thread::Threads;

/// How a round of a run ended, and what it leaves for the next one.
#[derive(Drop)]
pub(crate) struct EndedRound {
    /// Its closing.
    pub(crate) closing: Closing,
    /// The calls that were settled behind it.
    pub(crate) settled: Vec<Entry>,
    /// For each of its workers, the numbers of the records whose inserts it began.
    pub(crate) made: Vec<Vec<u32>>,
    /// The numbers of the records whose insert changed the set.
    pub(crate) changed: Vec<u32>,
    /// The keys of the set, rising.
    pub(crate) keys: Vec<u64>,
    /// The numbers of the records that are still to come.
    pub(crate) left: Vec<u32>,
}

/// A round that starts with the keys, in which the records with the numbers in `left` are cut among
/// the workers, and the inserts that it refused are settled.
pub(crate) fn one_round<R: Threads + Sync, G: Gate>(
    rt: &R,
    alloc: Global,
    phase: &Phase<'_, G>,
    keys: Vec<u64>,
    left: &[u32],
) -> Result<EndedRound, NoMemory>
    requires plan { IsRunPlan phase.now.plan }
    requires rising { IsStrictlyIncreasing keys.items }
    requires few { length keys.items ≤ max_keys }
    requires left { IsLeft phase.now.records.now left.now }
    ensures { IfOk result (AddsRound phase.now.records.now phase.now.plan
        keys.items left.now) }
{
    let (round, passes) = started(alloc, keys, phase.plan)?;
    let job = Job {
        round: &round,
        records: phase.records,
        gate: phase.gate,
    };
    let workers = worked(rt, alloc, &job, left, passes)?;
    close_round(alloc, round, phase.records, left, workers)
}

// A round that starts with the keys, and its passes.
fn started(alloc: Global, keys: Vec<u64>, plan: Plan) -> Result<(Round, Vec<Pass>), NoMemory>
    requires plan { IsRunPlan plan }
    requires rising { IsStrictlyIncreasing keys.items }
    requires few { length keys.items ≤ max_keys }
    ensures { IfOk result (λ r. StartsRound keys.items plan r.0 r.1.items) }
{
    match start_round(alloc, &keys, plan) {
        Ok(started) => Ok(started),
        Err(OpenFault::NoMemory) => Err(NoMemory),
        // An opening of as many keys as a run may have, with the most room, isn't too wide.
        Err(OpenFault::TooWide { .. }) => unreachable!(),
    }
}

// The workers of the passes, once each has done its part.
fn worked<R: Threads + Sync, G: Gate>(
    rt: &R,
    alloc: Global,
    job: &Job<'_, G>,
    left: &[u32],
    passes: Vec<Pass>,
) -> Result<Vec<Worker>, NoMemory>
    requires job { IsJob job.now.records.now job.now.round.now left.now }
    requires passes { passes.items ≡ fresh_passes job.now.round.now }
    ensures { IfOk result (λ workers.
        HaveDone job.now.records.now job.now.round.now left.now workers.items) }
{
    let mut workers = workers_of(alloc, passes, left.len())?;
    work_all(rt, job, left, workers.as_mut_slice());
    if has_failed(&workers) {
        return Err(NoMemory);
    }
    Ok(workers)
}

// Ends the round of these workers.
fn close_round(
    alloc: Global,
    round: Round,
    records: &[IdRecord],
    left: &[u32],
    workers: Vec<Worker>,
) -> Result<EndedRound, NoMemory>
    requires job { IsJob records.now round left.now }
    requires some { 0 < length left.now }
    requires done { HaveDone records.now round left.now workers.items }
    ensures { IfOk result (AddsRound records.now round.plan round.facts.keys left.now) }
{
    let rests = rests_of(alloc, left, &workers)?;
    let Returned { passes, hands } = hand_in(alloc, workers)?;
    let closing = closed(alloc, round, passes)?;
    settled_round(alloc, records, closing, hands, rests)
}

// The closing of the round.
fn closed(alloc: Global, round: Round, passes: Vec<Pass>) -> Result<Closing, NoMemory>
    requires passes { AreAllPasses round passes.items }
    requires at_rest { AreAtRest passes.items }
    ensures { IfOk result (ClosesRound round passes.items) }
{
    match halt_round(alloc, round, passes) {
        Ok(halted) => ended(alloc, halted),
        Err((refused, _, _)) => Err(refused),
    }
}

// The closing of a halted round.
fn ended(alloc: Global, halted: Halted) -> Result<Closing, NoMemory>
    ensures { IfOk result (Closes halted) }
{
    match end_round(alloc, halted) {
        Ok(closing) => Ok(closing),
        Err((refused, _)) => Err(refused),
    }
}

// Settles what the round refused.
fn settled_round(
    alloc: Global,
    records: &[IdRecord],
    closing: Closing,
    hands: Vec<Hand>,
    left: Vec<u32>,
) -> Result<EndedRound, NoMemory>
    requires hands { All (CanSettle records.now) hands.items }
    requires few { length hands.items ≤ max_passes }
    ensures { IfOk result (SettlesRound records.now closing hands.items left.items) }
{
    let mut plain = PlainSet::from_sorted(Vec::from_slice(alloc, closing.keys())?);
    let settled = settle(alloc, &mut plain, records, &hands)?;
    let mut changed = changed_by(alloc, &hands)?;
    append_changed(&settled, &hands, &mut changed)?;
    Ok(EndedRound {
        closing,
        settled,
        made: lists_by(alloc, hands)?,
        changed,
        keys: plain.into_keys(),
        left,
    })
}

// The numbers of the records whose insert changed the set in the round.
fn changed_by(alloc: Global, hands: &[Hand]) -> Result<Vec<u32>, NoMemory>
    ensures { IfOk result (λ changed.
        changed.items ≡ flat_map (λ hand. hand.changed.items) hands.now) }
{
    let mut changed = Vec::new(alloc);
    for hand in hands {
        changed.extend_from_slice(&hand.changed)?;
    }
    Ok(changed)
}

// The numbers of the records whose inserts each worker began.
fn lists_by(alloc: Global, mut hands: Vec<Hand>) -> Result<Vec<Vec<u32>>, NoMemory>
    ensures { IfOk result (λ lists. lists_in lists ≡ lists_of hands.items) }
{
    let count = hands.len();
    let mut lists = Vec::with_capacity(alloc, count)?;
    for place in 0..count {
        lists.push(hands.remove(0).made)?;
    }
    Ok(lists)
}
