// The workers of a round: they are made, work in threads, and hand in what they did.
ghost use Rattle.std.specs.Prelude.{◌≡◌, ℕ, ◌<◌, ◌≤◌, false, flat_map, length, map, slice_index_or, All, IfOk};
ghost use Rattle.dedup.specs.Crews.{AreCut, HasMemory, HasPart, rest_of};
ghost use Rattle.dedup.specs.Workers.{HasWorked, IsJob, IsReady};
ghost use Rattle.dedup.specs.declared.worker.Worker.{Worker as AWorker};
ghost use Rattle.step_core.specs.Limits.{max_keys, max_passes};

use crate::worker::{Hand, Job, Stop, Worker};
use outside::Gate;
use rounds::Pass;
use set_model::NoMemory;
use std::alloc::Global;
use std::thread;
use std::thread::Threads;

/// What the workers of a round return.
#[derive(Drop)]
pub(crate) struct Returned {
    /// Their passes, by number.
    pub(crate) passes: Vec<Pass>,
    /// What each did, by number.
    pub(crate) hands: Vec<Hand>,
}

/// A worker for each pass of a round, among whom so many records are cut.
pub(crate) fn workers_of(
    alloc: Global,
    mut passes: Vec<Pass>,
    len: usize,
) -> Result<Vec<Worker>, NoMemory>
    requires passes { length passes.items ≤ max_passes }
    requires len { len ≤ max_keys }
    ensures { IfOk result (λ workers. AreCut passes.items len workers.items) }
{
    let count = passes.len();
    let mut workers = Vec::with_capacity(alloc, count)?;
    for place in 0..count {
        workers.push(Worker {
            pass: passes.remove(0),
            from: place * len / count,
            to: (place + 1) * len / count,
            hand: Hand::new(alloc),
            apart: [0; 16],
        })?;
    }
    Ok(workers)
}

/// Has each worker do its part, in a thread of its own where one can be made.
pub(crate) fn work_all<R: Threads + Sync, G: Gate>(
    rt: &R,
    job: &Job<'_, G>,
    left: &[u32],
    workers: &mut [Worker],
)
    requires job { IsJob job.now.records.now job.now.round.now left.now }
    requires ready { All (IsReady job.now.records.now job.now.round.now left.now) workers.old }
    ensures count { length workers.new ≡ length workers.old }
    ensures worked { (k : ℕ) (d : AWorker) → k < length workers.old
        → HasWorked job.now.records.now job.now.round.now left.now
        (slice_index_or workers.old k d) (slice_index_or workers.new k d) }
{
    let part = |_: usize, worker: &mut Worker|
        requires { IsJob job.now.records.now job.now.round.now left.now
            × IsReady job.now.records.now job.now.round.now left.now worker.now }
        ensures { HasWorked job.entry.now.records.now job.entry.now.round.now left.entry.now
            worker.entry.now worker.exit.now }
    { worker.work(job, left) };
    thread::for_each_mut(rt, workers, 64, &part);
}

/// Whether a worker found no memory.
pub(crate) fn has_failed(workers: &[Worker]) -> bool
    ensures { result ≡ false → All HasMemory workers.now }
{
    for worker in workers {
        if worker.hand.stop == Stop::NoMemory {
            return true;
        }
    }
    false
}

/// The numbers of the records that no worker came to, in the order of the parts.
pub(crate) fn rests_of(
    alloc: Global,
    left: &[u32],
    workers: &[Worker],
) -> Result<Vec<u32>, NoMemory>
    requires { All (HasPart left.now) workers.now }
    ensures { IfOk result (λ rests. rests.items ≡ flat_map (rest_of left.now) workers.now) }
{
    let mut rests = Vec::new(alloc);
    for worker in workers {
        let begun = worker.from + worker.hand.made.len();
        rests.extend_from_slice(&left[begun..worker.to])?;
    }
    Ok(rests)
}

/// Takes the workers apart.
pub(crate) fn hand_in(alloc: Global, mut workers: Vec<Worker>) -> Result<Returned, NoMemory>
    ensures passes { IfOk result (λ handed.
        handed.passes.items ≡ map (λ worker. worker.pass) workers.items) }
    ensures hands { IfOk result (λ handed.
        handed.hands.items ≡ map (λ worker. worker.hand) workers.items) }
{
    let count = workers.len();
    let mut passes = Vec::with_capacity(alloc, count)?;
    let mut hands = Vec::with_capacity(alloc, count)?;
    for place in 0..count {
        let Worker { pass, hand, .. } = workers.remove(0);
        passes.push(pass)?;
        hands.push(hand)?;
    }
    Ok(Returned { passes, hands })
}
