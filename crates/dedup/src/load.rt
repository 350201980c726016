// The records of a run's files.
ghost use Rattle.std.specs.Prelude.{◌≡◌, ◌≤◌, IfOk, length, map, vec_len};
ghost use Rattle.idfiles.specs.Answer.{HasReadCause};
ghost use Rattle.dedup.specs.Inputs.{AnswersFiles};
ghost use Rattle.dedup.specs.Limits.{most_files, most_records};

use crate::command::MAX_RECORDS;
use idfiles::{IdFault, IdRecord, append_ids};
use outside::Inputs;
use std::alloc::Global;

/// The records of the files, in order of file and line, or the first fault in the order of their
/// bytes. The files are numbered from 1.
pub(crate) fn load<I: Inputs>(
    alloc: Global,
    inputs: &mut I,
    names: &[&str],
) -> Result<Vec<IdRecord>, IdFault>
    requires { length names.now ≤ most_files }
    ensures answer { AnswersFiles (I.files inputs.old) (map (λ name. name.now) names.now)
        (I.left inputs.new) result }
    ensures few { IfOk result (λ records. vec_len records ≤ most_records) }
    ensures cause { HasReadCause (I.faults inputs.old) (I.faults inputs.new) result }
{
    let mut records = Vec::new(alloc);
    for (place, name) in names.iter().enumerate() {
        let room = (MAX_RECORDS - records.len()) as u64;
        append_ids(alloc, inputs, &mut records, name, place as u32 + 1, room)?;
    }
    Ok(records)
}
