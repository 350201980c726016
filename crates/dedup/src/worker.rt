// One worker of a round: it puts the ids of its part of the records into the set.
ghost use Rattle.std.specs.Prelude.{◌≡◌, if◌then◌else◌, false, [], ◌∷◌, ◌++◌, ◌<◌, length};
ghost use Rattle.dedup.specs.Workers.{Goes, GoesThrough, HasBegun, HasWorked, IsJob, IsReady, is_refused};
ghost use Rattle.dedup.specs.declared.worker.Stop.TheVariants.{Finished};
ghost use Rattle.step_core.specs.Limits.{max_calls};

use crate::growing::grow_after;
use fset::Outcome;
use hash_set::insert;
use idfiles::IdRecord;
use outside::Gate;
use rounds::{Pass, Round};
use std::alloc::Global;

/// What all workers of a round share.
#[derive(Drop)]
pub(crate) struct Job<'a, G> {
    /// The round.
    pub(crate) round: &'a Round,
    /// All records of the run.
    pub(crate) records: &'a [IdRecord],
    /// Is called round each insert.
    pub(crate) gate: &'a G,
}

/// How a worker stopped.
#[derive(Clone, Copy, Debug, PartialEq, Eq)]
pub(crate) enum Stop {
    /// Each insert that it began was answered.
    Finished,
    /// Its last insert was refused.
    Refused,
    /// It found no memory to note a record in.
    NoMemory,
}

/// What a worker did with its pass.
#[derive(Drop)]
pub(crate) struct Hand {
    /// The numbers of the records whose inserts it began, in order.
    pub(crate) made: Vec<u32>,
    /// Those of them that changed the set, in order.
    pub(crate) changed: Vec<u32>,
    /// How it stopped.
    pub(crate) stop: Stop,
}

/// A worker: its pass, its part of the records still to come, and what it did.
#[derive(Drop)]
pub(crate) struct Worker {
    /// Its pass of the round.
    pub(crate) pass: Pass,
    /// Where its part begins.
    pub(crate) from: usize,
    /// Where its part ends.
    pub(crate) to: usize,
    /// What it did.
    pub(crate) hand: Hand,
    /// Keeps workers that stand side by side at least 128 bytes apart: each writes its own while
    /// the others work, and they are to share no cache line.
    pub(crate) apart: [u64; 16],
}

impl Worker {
    /// Begins the inserts of the records of its part, in order, until one is refused, and grows the table
    /// between them. `left` has the numbers of the records that are still to come.
    pub(crate) fn work<G: Gate>(&mut self, job: &Job<'_, G>, left: &[u32])
        requires job { IsJob job.now.records.now job.now.round.now left.now }
        requires ready { IsReady job.now.records.now job.now.round.now left.now self.old }
        ensures { HasWorked job.now.records.now job.now.round.now left.now self.old self.new }
    {
        let part = &left[self.from..self.to];
        self.hand.stop = self.hand.go_through(job, &mut self.pass, part);
    }
}

impl Hand {
    /// The hand of a worker that did nothing yet.
    pub(crate) fn new(alloc: Global) -> Self
        ensures made { result.made.items ≡ [] }
        ensures changed { result.changed.items ≡ [] }
        ensures stop { result.stop ≡ Finished }
    {
        Hand {
            made: Vec::new(alloc),
            changed: Vec::new(alloc),
            stop: Stop::Finished,
        }
    }

    // Begins the inserts of these records, in order, until one is refused.
    fn go_through<G: Gate>(&mut self, job: &Job<'_, G>, pass: &mut Pass, part: &[u32]) -> Stop
        requires job { IsJob job.now.records.now job.now.round.now part.now }
        requires none { self.old.made.items ≡ [] }
        requires begun { HasBegun job.now.records.now job.now.round.now Finished self.old pass.old }
        ensures pass { pass.new.view.number ≡ pass.old.view.number }
        ensures done { Goes result (GoesThrough job.now.records.now job.now.round.now part.now
            result self.new pass.new) }
    {
        for number in part {
            let stop = self.begin(job, pass, *number);
            if stop != Stop::Finished {
                return stop;
            }
        }
        Stop::Finished
    }

    // Notes the record, and then begins its insert.
    fn begin<G: Gate>(&mut self, job: &Job<'_, G>, pass: &mut Pass, number: u32) -> Stop
        requires plan { job.now.round.now.plan.turns ≡ 0 }
        requires number { number < length job.now.records.now }
        requires few { length self.old.made.items < max_calls }
        requires begun { HasBegun job.now.records.now job.now.round.now Finished self.old pass.old }
        ensures pass { pass.new.view.number ≡ pass.old.view.number }
        ensures made { Goes result (self.new.made.items ≡ self.old.made.items ++ number ∷ []) }
        ensures begun { Goes result
            (HasBegun job.now.records.now job.now.round.now result self.new pass.new) }
    {
        let nth = self.made.len() as u64;
        if self.made.push(number).is_err() {
            return Stop::NoMemory;
        }
        let id = job.records[number as usize].id;
        job.gate.before(pass.number(), nth);
        let outcome = insert(job.round, pass, id);
        job.gate.after(pass.number(), nth);
        match outcome {
            Outcome::Done(answered) => {
                grow_after(job.round, pass, answered);
                self.note(number, answered.changed)
            }
            // The call has no entry, and is settled once the round has ended.
            Outcome::Busy | Outcome::Full => Stop::Refused,
        }
    }

    // Notes that the insert was answered.
    fn note(&mut self, number: u32, changed: bool) -> Stop
        ensures made { self.new.made ≡ self.old.made }
        ensures changed { Goes result (self.new.changed.items
            ≡ (if changed then self.old.changed.items ++ number ∷ [] else self.old.changed.items)) }
        ensures refused { is_refused result ≡ false }
    {
        if changed && self.changed.push(number).is_err() {
            return Stop::NoMemory;
        }
        Stop::Finished
    }
}
