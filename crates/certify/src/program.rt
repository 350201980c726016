ghost use Rattle.std.specs.Prelude.{◌≡◌, ◌≤◌, MatchOption, None, Some, Result, length};
ghost use Rattle.certify.specs.Ending.{line_of, line_of_ending, status_of, status_of_fault, status_of_verdict};
ghost use Rattle.certify.specs.Run.{Ends, HasCauses, HasRead, Judges, Said, file_in, file_named, texts};
ghost use Rattle.certify.specs.declared.fault.Fault.{Fault};
ghost use Rattle.certify.specs.declared.verdict.Verdict.{Verdict};

use crate::fault::{Fault, MAX_BYTES};
use crate::log::read_log;
use crate::read::read_file;
use crate::{Verdict, check_order};
use outside::{Inputs, Sink, write_whole};
use std::alloc::Global;

/// Judges the log in the file that the words name, and writes the line of the verdict. The status
/// is 0 where it is legal and 7 where it isn't. A fault has a status from 1 to 6, and its line goes
/// to the fault sink; a fault there changes no status.
pub fn certify<I: Inputs, O: Sink, E: Sink>(
    alloc: Global,
    words: &[String],
    inputs: &mut I,
    out: &mut O,
    faults: &mut E,
) -> u8
    ensures words { HasRead (texts words.now) result }
    ensures ends { (ending : Result Verdict Fault) × (result ≡ status_of ending)
        × Ends (I.files inputs.old) (texts words.now) (O.written out.old) (O.written out.new) ending
        × Said (line_of_ending ending) (E.faults faults.old) (E.faults faults.new)
        (E.written faults.old) (E.written faults.new) }
    ensures causes { HasCauses result
        (I.faults inputs.old) (I.faults inputs.new) (O.faults out.old) (O.faults out.new) }
{
    match print_verdict(alloc, words, inputs, out) {
        Ok(verdict) => status(verdict),
        Err(fault) => report(faults, fault),
    }
}

/// Ends a run whose words could not be had for want of memory: its line, and status 1.
pub fn out_of_memory<E: Sink>(faults: &mut E) -> u8
    ensures status { result ≡ 1 }
    ensures line { Said (line_of Fault.NoMemory)
        (E.faults faults.old) (E.faults faults.new) (E.written faults.old) (E.written faults.new) }
{
    report(faults, Fault::NoMemory)
}

fn status(verdict: Verdict) -> u8
    ensures { result ≡ status_of_verdict verdict }
{
    match verdict {
        Verdict::Legal => 0,
        _ => 7,
    }
}

// The run without its report.
fn print_verdict<I: Inputs, O: Sink>(
    alloc: Global,
    words: &[String],
    inputs: &mut I,
    out: &mut O,
) -> Result<Verdict, Fault>
    ensures words { HasRead (texts words.now) (status_of result) }
    ensures ends { Ends (I.files inputs.old) (texts words.now)
        (O.written out.old) (O.written out.new) result }
    ensures causes { HasCauses (status_of result)
        (I.faults inputs.old) (I.faults inputs.new) (O.faults out.old) (O.faults out.new) }
{
    let Some(name) = file_named(words) else {
        return Err(Fault::BadWords);
    };
    let bytes = read_file(alloc, inputs, name)?;
    let (verdict, calls) = judge_log(alloc, &bytes)?;
    let mut line = [0u8; 64];
    let len = verdict.line(calls, &mut line);
    match write_whole(out, &line[..len]) {
        Ok(()) => Ok(verdict),
        Err(_) => Err(Fault::Write),
    }
}

// The FILE, if the words are the program's name and a FILE.
fn file_named(words: &[String]) -> Option<&str>
    ensures { MatchOption result (file_named (texts words.now) ≡ None)
        (λ name. file_named (texts words.now) ≡ Some name.now) }
{
    if words.len() != 2 {
        return None;
    }
    file_in(words[1].as_str())
}

// The word, unless it begins with `-`.
fn file_in(word: &str) -> Option<&str>
    ensures { MatchOption result (file_in word.now ≡ None)
        (λ name. file_in word.now ≡ Some name.now) }
{
    match word.as_bytes() {
        [b'-', ..] => None,
        _ => Some(word),
    }
}

// The verdict on the log that the bytes are, and the number of its calls.
fn judge_log(alloc: Global, bytes: &[u8]) -> Result<(Verdict, u64), Fault>
    requires { length bytes.now ≤ MAX_BYTES }
    ensures { Judges bytes.now result }
{
    let log = read_log(alloc, bytes)?;
    let verdict = check_order(alloc, &log.calls, &log.order)?;
    Ok((verdict, log.calls.len() as u64))
}

// Writes the fault's line, and ends with its status.
fn report<E: Sink>(faults: &mut E, fault: Fault) -> u8
    ensures status { result ≡ status_of_fault fault }
    ensures line { Said (line_of fault)
        (E.faults faults.old) (E.faults faults.new) (E.written faults.old) (E.written faults.new) }
{
    let mut line = [0u8; 64];
    let len = fault.line(&mut line);
    // A fault in writing the line changes no status.
    let _ = write_whole(faults, &line[..len]);
    fault.status()
}
