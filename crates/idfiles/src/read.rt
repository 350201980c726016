// A file of inputs, read whole.
ghost use Rattle.std.specs.Prelude.{◌≡◌, ◌+◌, ◌<◌, ◌≤◌, ◌++◌, length, vec_len, IfOk, OnErr};
ghost use mathlib.Core.List.{IsPrefix};
ghost use Rattle.idfiles.specs.Answer.{AnswersFile, AnswersTold, HasReadCause, ReadsBack};

use crate::fault::MAX_BYTES;
use crate::scan::Scan;
use crate::{IdFault, IdRecord};
use outside::Inputs;
use std::alloc::{AllocError, Global};

// How many bytes are asked for at once.
const PIECE_BYTES: usize = 1 << 16;

/// Reads the file of this name to its end, and gives its records in order of line. `file` is its
/// number, from 1, and `room` is how many records it may have.
///
/// The bytes are judged in their order, and the first fault is the answer, whatever the pieces in
/// which they come. At most 2^30 bytes are judged. After an `Err` nothing of the file is given, and
/// the inputs may stand anywhere in it: start a file before the next read.
///
/// `read_back` and `room` are corollaries of `answer`.
pub fn read_ids<I: Inputs>(
    alloc: Global,
    inputs: &mut I,
    name: &str,
    file: u32,
    room: u64,
) -> Result<Vec<IdRecord>, IdFault>
    ensures answer { AnswersFile file room (I.files inputs.old) name.now (I.left inputs.new) result
        (λ records all. records.items ≡ all) }
    ensures read_back { ReadsBack file room (I.files inputs.old) name.now result }
    ensures room { IfOk result (λ records. vec_len records ≤ room) }
    ensures cause { HasReadCause (I.faults inputs.old) (I.faults inputs.new) result }
    ensures files { I.files inputs.new ≡ I.files inputs.old }
{
    let mut records = Vec::new(alloc);
    append_ids(alloc, inputs, &mut records, name, file, room)?;
    Ok(records)
}

/// Reads the file of this name as `read_ids` does, and puts its records behind those that the
/// vector has. `room` is how many records the file may have, however many there are.
///
/// After an `Err` the vector is as it was. The fault is that of `read_ids`, and so is what is said
/// of the inputs. `room` is a corollary of `answer`.
pub fn append_ids<I: Inputs>(
    alloc: Global,
    inputs: &mut I,
    records: &mut Vec<IdRecord>,
    name: &str,
    file: u32,
    room: u64,
) -> Result<(), IdFault>
    ensures answer { AnswersFile file room (I.files inputs.old) name.now (I.left inputs.new) result
        (λ _ all. records.new.items ≡ records.old.items ++ all) }
    ensures refused { OnErr result (records.new.items ≡ records.old.items) }
    ensures room { IfOk result (λ _. vec_len records.new ≤ vec_len records.old + room) }
    ensures cause { HasReadCause (I.faults inputs.old) (I.faults inputs.new) result }
    ensures files { I.files inputs.new ≡ I.files inputs.old }
{
    let mut buffer = zeros(alloc, PIECE_BYTES)?;
    if inputs.start(name).is_err() {
        return Err(IdFault::ReadFault { file });
    }
    let before = records.len();
    let read = append_started(inputs, records, buffer.as_mut_slice(), file, room);
    if let Err(fault) = read {
        records.truncate(before);
        return Err(fault);
    }
    Ok(())
}

// So many bytes, each 0.
fn zeros(alloc: Global, count: usize) -> Result<Vec<u8>, AllocError>
    ensures { IfOk result (λ bytes. vec_len bytes ≡ count) }
{
    vec![in alloc; 0u8; count]
}

// The same of the file that was started, through this buffer. After an `Err` some of its records
// may stand behind the others.
fn append_started<I: Inputs>(
    inputs: &mut I,
    records: &mut Vec<IdRecord>,
    buffer: &mut [u8],
    file: u32,
    room: u64,
) -> Result<(), IdFault>
    requires { (0 < length buffer.old) × (length buffer.old ≤ PIECE_BYTES) }
    ensures answer { AnswersTold file room (I.left inputs.old) (I.left inputs.new) result
        (λ _ all. records.new.items ≡ records.old.items ++ all) }
    ensures front { IsPrefix records.old.items records.new.items }
    ensures cause { HasReadCause (I.faults inputs.old) (I.faults inputs.new) result }
    ensures files { I.files inputs.new ≡ I.files inputs.old }
{
    let mut scan = Scan::new(file, room);
    let mut left = MAX_BYTES;
    'pieces: loop {
        let Ok(count) = inputs.read(buffer) else {
            return Err(IdFault::ReadFault { file });
        };
        if count == 0 {
            scan.end_line(records)?;
            return Ok(());
        }
        scan = scan.feed_within(records, &buffer[..count], left)?;
        left -= count;
    }
}
