// The run, and the status that the process ends with.
ghost use Rattle.std.specs.Prelude.{◌≡◌, List, IfErr, IfOk};
ghost use Rattle.std.specs.Process.{exit_status};
ghost use Rattle.chain.specs.Chain.{RoundEnd};
ghost use Rattle.dedup.specs.Fault.{fault_line, no_memory};
ghost use Rattle.dedup.specs.Run.{EndsWith, HasCauses, HasRead, Said};
ghost use Rattle.dedup.specs.Words.{texts};

use dedup::{out_of_memory, run};
use outside::{Inputs, OpenGate, Sink};
use std::alloc::AllocError;
use std::process::{ExitCode, Termination};
use std::thread::Threads;

/// What a run came to. It can neither be made elsewhere nor let go, so a process that is handed one
/// ends with its status.
pub(crate) struct Finished {
    code: ExitCode,
}

impl Termination for Finished {
    fn report<R: Eprint>(self, _rt: &R) -> ExitCode
        ensures { result ≡ self.code }
    {
        let Finished { code } = self;
        code
    }
}

/// Runs over these words, if they could be had: the status of the process is the run's.
pub(crate) fn end<R: Threads + Sync + AllocGlobal, I: Inputs, O: Sink, E: Sink>(
    rt: &R,
    words: Result<Vec<String>, AllocError>,
    inputs: &mut I,
    out: &mut O,
    faults: &mut E,
) -> Finished
    ensures words { IfOk words (λ words. HasRead (texts words.items) (exit_status result.code)) }
    ensures ends { IfOk words (λ words. (rounds : List RoundEnd)
        × EndsWith (exit_status result.code) rounds (I.files inputs.old) (texts words.items)
        (I.left inputs.new) (O.written out.old) (O.written out.new) (E.faults faults.old)
        (E.faults faults.new) (E.written faults.old) (E.written faults.new)) }
    ensures causes { IfOk words (λ _. HasCauses (exit_status result.code)
        (I.faults inputs.old) (I.faults inputs.new) (O.faults out.old) (O.faults out.new)) }
    ensures status { IfErr words (λ _. exit_status result.code ≡ 1) }
    ensures line { IfErr words (λ _. Said (fault_line no_memory) (E.faults faults.old)
        (E.faults faults.new) (E.written faults.old) (E.written faults.new)) }
{
    let status = match words {
        Ok(words) => run(rt, rt.alloc(), &words, inputs, out, faults, &OpenGate).status,
        Err(AllocError) => out_of_memory(faults),
    };
    Finished {
        code: ExitCode::from(status),
    }
}
