// The run: from words to a status.
ghost use Rattle.std.specs.Prelude.{◌≡◌, [], length, map, All};
ghost use Rattle.dedup.specs.Fault.{fault_line, no_memory, status_of, status_of_fault};
ghost use Rattle.dedup.specs.Rounds.{HasWorkers, plan_of, rounds_of};
ghost use Rattle.dedup.specs.Run.{Ends, EndsWith, HasCauses, HasRead, ListsFiles, RoseAt, Said};
ghost use Rattle.dedup.specs.Words.{KeepsLimits, texts, workers_asked};

use crate::command::Command;
use crate::fault::Fault;
use crate::load::load;
use crate::output::text_of;
use crate::phase::{Phase, insert_all};
use crate::so_far::SoFar;
use crate::words::read_words;
use idfiles::IdFault;
use outside::{Gate, Inputs, Sink, write_whole};
use rounds::Closing;
use set_model::Entry;
use std::alloc::Global;
use std::thread::Threads;

/// How a run ended, and what its rounds were. The three lists have one member for each round that is
/// told, in order. With status 0 and 5 those are all, and each record's insert was answered in one of
/// them; with status 1 they are a chain that records may still be missing from, and how many there are
/// isn't said; with 2, 3, 4 and 6 there is none.
#[derive(Drop)]
pub struct Ended {
    /// 0 where the list was written; 1 out of memory; 2 the words are not the command; 3 a line of
    /// a file is bad; 4 a file could not be read; 5 the output could not be written; 6 a file is
    /// too long, or the records are too many.
    pub status: u8,
    /// How each round ended.
    pub closings: Vec<Closing>,
    /// The inserts that were refused in each round and settled behind it, in the order of the
    /// workers.
    pub settled: Vec<Vec<Entry>>,
    /// For each round and each of its workers, the numbers of the records whose inserts it began, in
    /// order. Records are numbered from 0, in the order in which they are read.
    pub made: Vec<Vec<Vec<u32>>>,
}

/// Prints the list that the words ask for: of the distinct ids of their files, rising, each once.
/// The ids go through the set for threads in rounds, each with as many workers as the words ask for; a
/// worker's insert that was refused, for want of room or after many lost tries, is settled behind its
/// round, and what it left goes to the next one.
/// Otherwise it ends with the status of its first fault, whose line it writes to the fault sink; a
/// fault there changes no status. The gate is called round each insert, of which no clause speaks.
pub fn run<R: Threads + Sync, I: Inputs, O: Sink, E: Sink, G: Gate>(
    rt: &R,
    alloc: Global,
    words: &[String],
    inputs: &mut I,
    out: &mut O,
    faults: &mut E,
    gate: &G,
) -> Ended
    ensures words { HasRead (texts words.now) result.status }
    ensures ends { EndsWith result.status
        (rounds_of result.closings.items result.settled.items result.made.items)
        (I.files inputs.old) (texts words.now) (I.left inputs.new)
        (O.written out.old) (O.written out.new) (E.faults faults.old)
        (E.faults faults.new) (E.written faults.old) (E.written faults.new) }
    ensures workers { All (HasWorkers (workers_asked (texts words.now)))
        (rounds_of result.closings.items result.settled.items result.made.items) }
    ensures settled { length result.settled.items ≡ length result.closings.items }
    ensures made { length result.made.items ≡ length result.closings.items }
    ensures causes { HasCauses result.status
        (I.faults inputs.old) (I.faults inputs.new) (O.faults out.old) (O.faults out.new) }
{
    let mut so_far = SoFar::new(alloc);
    let status = match print_list(rt, alloc, words, inputs, out, gate, &mut so_far) {
        Ok(()) => 0,
        Err(fault) => report(faults, fault),
    };
    so_far.ended(status)
}

/// Ends a run whose words could not be had for want of memory: its line, and its status, which is
/// 1.
pub fn out_of_memory<E: Sink>(faults: &mut E) -> u8
    ensures status { result ≡ 1 }
    ensures line { Said (fault_line no_memory)
        (E.faults faults.old) (E.faults faults.new) (E.written faults.old) (E.written faults.new) }
{
    report(faults, Fault::Ids(IdFault::NoMemory))
}

// The run without its report.
fn print_list<R: Threads + Sync, I: Inputs, O: Sink, G: Gate>(
    rt: &R,
    alloc: Global,
    words: &[String],
    inputs: &mut I,
    out: &mut O,
    gate: &G,
    so_far: &mut SoFar,
) -> Result<(), Fault>
    requires { so_far.old ≡ [] }
    ensures words { HasRead (texts words.now) (status_of result) }
    ensures ends { Ends (I.files inputs.old) (texts words.now) so_far.new (I.left inputs.new)
        (O.written out.old) (O.written out.new) result }
    ensures workers { All (HasWorkers (workers_asked (texts words.now))) so_far.new }
    ensures causes { HasCauses (status_of result)
        (I.faults inputs.old) (I.faults inputs.new) (O.faults out.old) (O.faults out.new) }
{
    let asked = read_words(alloc, words)?;
    let text = list_of(rt, alloc, inputs, gate, &asked, so_far)?;
    match write_whole(out, &text) {
        Ok(()) => Ok(()),
        Err(_) => Err(Fault::Write),
    }
}

// The list that is asked for.
fn list_of<R: Threads + Sync, I: Inputs, G: Gate>(
    rt: &R,
    alloc: Global,
    inputs: &mut I,
    gate: &G,
    asked: &Command<'_>,
    so_far: &mut SoFar,
) -> Result<Vec<u8>, Fault>
    requires fits { KeepsLimits asked.now }
    requires none { so_far.old ≡ [] }
    ensures lists { ListsFiles (I.files inputs.old)
        (map (λ name. name.now) asked.now.files.items)
        (plan_of asked.now.workers asked.now.room) so_far.new (I.left inputs.new)
        asked.now.listing result }
    ensures workers { All (HasWorkers asked.now.workers) so_far.new }
    ensures read { RoseAt 4 (status_of result) (I.faults inputs.old) (I.faults inputs.new) }
{
    let records = load(alloc, inputs, &asked.files)?;
    let phase = Phase {
        plan: asked.plan(),
        records: &records,
        gate,
    };
    let inserted = insert_all(rt, alloc, &phase, so_far)?;
    Ok(text_of(alloc, asked.listing, &records, &inserted)?)
}

// Writes the fault's line, and gives its status.
fn report<E: Sink>(faults: &mut E, fault: Fault) -> u8
    ensures status { result ≡ status_of_fault fault }
    ensures line { Said (fault_line fault)
        (E.faults faults.old) (E.faults faults.new) (E.written faults.old) (E.written faults.new) }
{
    // A fault in writing the line changes no status.
    let _ = write_whole(faults, fault.line().as_bytes());
    fault.status()
}
